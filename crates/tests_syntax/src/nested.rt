//! Lists of nested items, as they are read, printed and refused: a row is `kind | text => answer`. Of a list each
//! item is told with its kind, its place and its printing. The value of `value` is an expression, that of `number`
//! is one literal; a bad value has the place of its fault behind it.

use crate::node::{SOURCE, fault, printing, push_place, read};
use meta_nested::NestedMeta;
use node_core::{Comma, Expr, Items, Meta, Path, Punctuated, Text, TryClone};
use node_span::Spanned;
use print_core::ToTokens;
use std::alloc::Global;
use std::marker::PhantomData;
use syn_core::Parse;
use tests_checks::{Tested, given, hash, no_kind, tokens};

// The last list of one item is another than its printing: a bad value ends at its first comma, but the tokens
// behind it, once they are printed, may close what it opens. `[x,]` is no type, and its printing `[x]` is one.
// Lists are compared without their places. The last row is the crate's own test, by its name there.
pub const METAS: &str = r#"meta |  => 
meta | a => path 0..1 a;
meta | a, => path 0..1 a;
meta | ::prost::Message => path 0..16 :: prost :: Message;
meta | ::a::b => path 0..6 :: a :: b;
meta | type, crate::self, _ => path 0..4 type;path 6..17 crate :: self;path 19..20 _;
meta | r#type, r#true => path 0..6 r#type;path 8..14 r#true;
meta | a::true => path 0..7 a :: true;
meta | a::true = b => value 0..11 a :: true = b;
meta | r#true = b => value 0..10 r#true = b;
meta | true => lit 0..4 true;
meta | false, true => lit 0..5 false;lit 7..11 true;
meta | true = 1 => number 0..8 true = 1;
meta | false = a => value 0..9 false = a;
meta | 1 => lit 0..1 1;
meta | "x", 'c', b"y", b'z', 1.5 => lit 0..3 "x";lit 5..8 'c';lit 10..14 b"y";lit 16..20 b'z';lit 22..25 1.5;
meta | -1 => lit 0..2 - 1;
meta | - 1.5, - 2 => lit 0..5 - 1.5;lit 7..10 - 2;
meta | a() => list 0..3 a ();
meta | a(b = c), a[..], a {b} => list 0..8 a (b = c);list 10..15 a [..];list 17..22 a {b};
meta | type(b, "c"), => list 0..12 type (b , "c");
meta | a = b => value 0..5 a = b;
meta | a = "x" => number 0..7 a = "x";
meta | a = -1, b => number 0..6 a = - 1;path 8..9 b;
meta | a = - 1.5, => number 0..9 a = - 1.5;
meta | a = -1 - 2 => value 0..10 a = - 1 - 2;
meta | a = -b => value 0..6 a = - b;
meta | a = -"x" => value 0..8 a = - "x";
meta | type = true, b => number 0..11 type = true;path 13..14 b;
meta | a::b = c + d, e => value 0..12 a :: b = c + d;path 14..15 e;
meta | a = |x| x, b => value 0..9 a = | x | x;path 11..12 b;
meta | a = |x, y| x, b => value 0..12 a = | x , y | x;path 14..15 b;
meta | a = b::<c, d> => value 0..13 a = b :: < c , d >;
meta | a = b < c => value 0..9 a = b < c;
meta | a = (b, c), d => value 0..10 a = (b , c);path 12..13 d;
meta | a = b c, d => bad 0..7 a = b c 4..5;path 9..10 d;
meta | a = , b => bad 0..3 a = 2..3;path 6..7 b;
meta | a = => bad 0..3 a = 2..3;
meta | a = , => bad 0..3 a = 2..3;
meta | a = if x {} => bad 0..11 a = if x {} 4..6;
meta | a = pub(in b::c), d => bad 0..16 a = pub (in b :: c) 4..7;path 18..19 d;
meta | a = struct S, b => bad 0..12 a = struct S 4..10;path 14..15 b;
meta | a = b.., c => value 0..7 a = b ..;path 9..10 c;
meta | a = b +, c => bad 0..7 a = b + 4..5;path 9..10 c;
meta | a = b::<c, d => bad 0..9 a = b ::< c 4..5;path 11..12 d;
meta | a == b => bad 0..6 a = = b 3..4;
meta | a = #b => bad 0..6 a = # b 4..5;
meta | a = #(b) => bad 0..8 a = # (b) 4..5;
meta | a = b #[c] => bad 0..10 a = b # [c] 4..5;
meta | a = fn() -> b, c => bad 0..13 a = fn () -> b 4..6;path 15..16 c;
meta | a = b::<c, d = [x,] > -1 => bad 0..9 a = b ::< c 4..5;value 11..24 d = [x] > - 1; 1 once printed
meta | , => refused at 0..1: expected a meta list
meta | a,, => refused at 0..3: expected a meta list
meta | a b => refused at 0..3: expected a meta list
meta | a; => refused at 0..2: expected a meta list
meta | a:: => refused at 0..3: expected a meta list
meta | :: => refused at 0..2: expected a meta list
meta | a(b) c => refused at 0..6: expected a meta list
meta | a()() => refused at 0..5: expected a meta list
meta | a<b> => refused at 0..4: expected a meta list
meta | true::a => refused at 0..7: expected a meta list
meta | true(a) => refused at 0..7: expected a meta list
meta | true::a = 1 => refused at 0..11: expected a meta list
meta | - a => refused at 0..3: expected a meta list
meta | -"x" => refused at 0..4: expected a meta list
meta | 1 = 2 => refused at 0..5: expected a meta list
meta | 'a => refused at 0..2: expected a meta list
meta | (a) => refused at 0..3: expected a meta list
meta | a = b < c, d > e => refused at 0..16: expected a meta list
meta | a b, c = #[d] => refused at 0..13: expected a meta list
meta | a = #[b] => refused at 4..5: unexpected attribute inside of attribute
meta | a, b = c d, e = #[f] g, h i => refused at 16..17: unexpected attribute inside of attribute
meta | true = #[] => refused at 7..8: unexpected attribute inside of attribute
metas | a, b(c), d = 1, e = f g, "x" <> a,b(c),d=1,e=f g,"x" => equal
metas | a, b(c), d = 1, e = f g, "x" <> a, b(c), d = 1, e = f h, "x" => not equal
absolute_path | ::prost::Message => :: prost :: Message"#;

fn kind(item: &NestedMeta) -> &str {
    match item {
        NestedMeta::Meta(Meta::Path(_)) => "path ",
        NestedMeta::Meta(Meta::List(_)) => "list ",
        NestedMeta::Meta(Meta::NameValue(pair)) => match &pair.value {
            Expr::Lit(_) => "number ",
            _ => "value ",
        },
        NestedMeta::Lit(_) => "lit ",
        NestedMeta::NameValueInvalidExpr(_) => "bad ",
    }
}

fn items_told(alloc: Global, items: &[NestedMeta]) -> Tested<Text> {
    let mut told = Text::new(alloc);
    for item in items {
        told.push_str(kind(item))?;
        push_place(alloc, &mut told, item.spanned())?;
        told.push(' ')?;
        told.push_str(printing(alloc, item)?.as_str())?;
        if let NestedMeta::NameValueInvalidExpr(bad) = item {
            told.push(' ')?;
            push_place(alloc, &mut told, bad.error.span())?;
        }
        told.push(';')?;
    }
    Ok(told)
}

fn listed(alloc: Global, text: &str) -> Tested<Parse<Items<NestedMeta>>> {
    let tokens = tokens(alloc, SOURCE, text)?;
    Ok(NestedMeta::parse_meta_list(alloc, &tokens))
}

fn is_told(alloc: Global, told: &Text, items: &Items<NestedMeta>) -> Tested<bool> {
    Ok(items_told(alloc, items.as_slice())? == *told)
}

/// The list that its printing is read as.
fn again(
    alloc: Global,
    text: &str,
    list: &Punctuated<NestedMeta, Comma>,
) -> Tested<Items<NestedMeta>> {
    let printing = list.to_token_stream(alloc)?;
    given(NestedMeta::parse_meta_list(alloc, &printing), text)
}

/// What is told of the list, and of its copy, and how many items its printing has where it is read as another list.
fn told(alloc: Global, text: &str, list: &Punctuated<NestedMeta, Comma>) -> Tested<Text> {
    let mut told = items_told(alloc, list.items.as_slice())?;
    if !is_told(alloc, &told, &list.items.try_clone(alloc)?)? {
        return no_kind("a copy");
    }
    let again = again(alloc, text, list)?;
    if again != list.items {
        told.push_str(format!(in alloc; " {} once printed", again.len())?.as_str())?;
    }
    Ok(told)
}

pub fn metas(alloc: Global, text: &str) -> Tested<Text> {
    match listed(alloc, text)? {
        Ok(items) => {
            let by = PhantomData;
            told(alloc, text, &Punctuated { items, by })
        }
        Err(fail) => fault(alloc, &fail),
    }
}

/// Whether two lists are equal, and hash alike then. A copy of the first equals it.
fn compared(alloc: Global, one: &Items<NestedMeta>, other: &Items<NestedMeta>) -> Tested<Text> {
    let copied = one.try_clone(alloc)? == *one;
    let told = match (copied, other == one) {
        (true, true) if hash(other) == hash(one) => "equal",
        (true, false) => "not equal",
        _ => "a copy differs, or equals hash apart",
    };
    Ok(Text::from_str(alloc, told)?)
}

pub fn pair(alloc: Global, text: &str) -> Tested<Text> {
    let Some((one, other)) = text.split_once(" <> ") else {
        return no_kind(text);
    };
    let one = given(listed(alloc, one)?, text)?;
    compared(alloc, &one, &given(listed(alloc, other)?, text)?)
}

fn is_path(items: &[NestedMeta], path: &Path) -> bool {
    match items {
        [NestedMeta::Meta(Meta::Path(one))] => one == path,
        _ => false,
    }
}

/// The path that the one item of the list is.
pub fn path_alone(alloc: Global, text: &str) -> Tested<Text> {
    let path: Path = read(alloc, text)?;
    if is_path(given(listed(alloc, text)?, text)?.as_slice(), &path) {
        return printing(alloc, &path);
    }
    no_kind(text)
}
