//! The nodes of a text, each by itself: a row is `kind | text => its nodes`, with ` ~ ` between them. A node is
//! told by its printing, as `whole` where that is the text, and with its place where something else stands there.

use crate::node::{ELSEWHERE, SOURCE, parts, parts_of};
use node_core::{
    Boxed, Comma, Delimiter, DeriveInput, Expr, FnArg, Group, Ident, Items, Punctuated, Text,
    TokenStream, TokenTree, Type,
};
use node_span::Spanned;
use std::alloc::Global;
use syn_core::parse_expr;
use tests_checks::{Tested, given, no_kind, tokens};

pub const PARTS: &str =
    r#"Type | a :: B < C > => whole ~ whole ~ whole ~ B < C > ~ B ~ < C > at C ~ C
Type | < A as b :: C > :: D => whole ~ whole ~ < A as b :: C >
Type | & 'a mut T => whole ~ whole ~ 'a
Type | * const T => whole ~ whole
Type | [T] => whole ~ whole ~ T
Type | [T ; 8] => whole ~ whole
Type | (A ,) => whole ~ whole
Type | (T) => whole ~ whole
Type | for < 'a > fn (& 'a A , b : B) -> C => whole ~ whole ~ & 'a A ~ b : B ~ -> C at C
Type | dyn A + 'b + ? C => whole ~ whole ~ A ~ 'b ~ ? C ~ ? C
Type | impl for < 'a > A < 'a > => whole ~ whole
Type | ! => whole ~ whole
Type | _ => whole ~ whole
Expr | "x" => whole ~ whole ~ whole
Expr | b"x" => whole ~ whole ~ whole
Expr | b'x' => whole ~ whole ~ whole
Expr | 'x' => whole ~ whole ~ whole
Expr | 1u8 => whole ~ whole ~ whole
Expr | 1.5 => whole ~ whole ~ whole
Expr | true => whole ~ whole ~ whole
Expr | a :: b :: < C > => whole ~ whole
Expr | < A as B > :: c => whole ~ whole
Expr | [a , b] => whole ~ whole
Expr | [a ; 8] => whole
Expr | (a ,) => whole
Expr | (a) => whole
Expr | - a => whole ~ -
Expr | & mut a => whole
Expr | a && b => whole ~ &&
Expr | a (b , c) => whole
Expr | a . b :: < C > (d) => whole
Expr | a . b => whole ~ b
Expr | a . 0 => whole ~ 0
Expr | a [b] => whole
Expr | a ? => whole
Expr | a ..= b => whole ~ whole
Expr | | a , & b | c => whole ~ whole
Expr | {a ; b} => whole
Expr | _ => whole
Grouped | a + b => whole
FnArgs | (a , mut b) : A => whole ~ whole
Idents | a , b => whole"#;

// Items: each part stands first where it is meant.
pub const ITEM_PARTS: &str =
    "# [a] # [b (c)] # [d = 1] pub (in e) struct S < 'f : 'g , T : 'h + U = V , const N : u8 = 8 > where W : X , 'i : 'j {# [k] pub (crate) l : m :: M , n : O} => \
    whole ~ # [a] ~ a ~ a ~ # [b (c)] ~ b (c) ~ b (c) ~ # [d = 1] ~ d = 1 ~ d = 1 ~ pub (in e) ~ S ~ \
    < 'f : 'g , T : 'h + U = V , const N : u8 = 8 > ~ 'f : 'g ~ 'f : 'g ~ T : 'h + U = V ~ T : 'h + U = V ~ \
    const N : u8 = 8 ~ const N : u8 = 8 ~ where W : X , 'i : 'j ~ W : X ~ 'i : 'j ~ \
    {# [k] pub (crate) l : m :: M , n : O} ~ {# [k] pub (crate) l : m :: M , n : O} ~ \
    {# [k] pub (crate) l : m :: M , n : O} ~ {# [k] pub (crate) l : m :: M , n : O} ~ \
    # [k] pub (crate) l : m :: M ~ pub (crate) ~ n : O ~ nothing
pub enum E {# [a] A (pub B) , C = 1 , D {f : F}} => \
    whole ~ pub ~ E ~ nothing ~ {# [a] A (pub B) , C = 1 , D {f : F}} ~ \
    {# [a] A (pub B) , C = 1 , D {f : F}} ~ # [a] A (pub B) ~ (pub B) ~ (pub B) ~ C = 1 ~ nothing ~ \
    D {f : F} ~ {f : F} ~ {f : F} ~ f : F ~ nothing
union U {a : A} => \
    whole ~ nothing ~ U ~ nothing ~ {a : A} ~ {a : A} ~ {a : A}";

/// An expression in a group without delimiters, which no text has.
fn grouped(alloc: Global, source: u32, text: &str) -> Tested<Expr> {
    let stream = tokens(alloc, source, text)?;
    let delimiter = Delimiter::None;
    let span = stream.spanned();
    let group = Boxed::new(
        alloc,
        Group {
            delimiter,
            stream,
            span,
        },
    )?;
    let trees = Items::of(alloc, TokenTree::Group(group))?;
    given(parse_expr(alloc, &TokenStream { trees }), text)
}

fn grouped_parts(alloc: Global, text: &str) -> Tested<Text> {
    let expr = grouped(alloc, SOURCE, text)?;
    parts_of(alloc, text, &expr, &grouped(alloc, ELSEWHERE, text)?)
}

pub fn nodes(alloc: Global, kind: &str, text: &str) -> Tested<Text> {
    match kind {
        "Type" => parts::<Type>(alloc, text),
        "Expr" => parts::<Expr>(alloc, text),
        "DeriveInput" => parts::<DeriveInput>(alloc, text),
        "FnArgs" => parts::<Punctuated<FnArg, Comma>>(alloc, text),
        "Idents" => parts::<Punctuated<Ident, Comma>>(alloc, text),
        "Grouped" => grouped_parts(alloc, text),
        _ => no_kind(kind),
    }
}
