//! The public parsers. Each reads all of the tokens, or refuses them with one fault where they stand.

ghost use Rattle.std.specs.Prelude.{◌≡◌, codes};
ghost use Rattle.syn_grammar.specs.Input.{Outcome};
ghost use Rattle.syn_grammar.specs.Reads.{Gives};
ghost use Rattle.syn_grammar.specs.Trees as trees;
ghost use Rattle.syn_items.specs.Trees as item_trees;
ghost use Rattle.syn_core.specs.Parses.{Parses, Refuses, fault_over};

use crate::fail::{Parse, ParseFail};
use crate::front;
use base_core::Items;
use node_core::{DeriveInput, TypeParam, Visibility, WhereClause};
use node_expr::{Expr, ExprArray, ExprPath, ExprRange, FnArg, Path, Type};
use node_span::Spanned;
use std::alloc::Global;
use syn_grammar::{Cursor, ReadFail};
use syn_lists::all_of;
use tok_types::{Ident, TokenStream};

/// The one fault over all of the tokens.
fn refusal(alloc: Global, tokens: &TokenStream, text: &str) -> ParseFail
    ensures { Refuses (fault_over text.now tokens.now) result }
{
    ParseFail::at(alloc, tokens.spanned(), text)
}

/// What was read, if `left` says that nothing is left of the tokens, or the one fault `text`.
fn whole<A: Drop>(
    alloc: Global,
    tokens: &TokenStream,
    text: &str,
    read: Result<A, ReadFail>,
    left: &Cursor<'_>,
) -> Parse<A>
    ensures { (outcome : Outcome A) → Gives outcome read left.now → Parses text.now tokens.now (trees.all outcome) result }
{
    match all_of(read, left)? {
        Some(tree) => Ok(tree),
        None => Err(refusal(alloc, tokens, text)),
    }
}

/// A type: `Vec<T>`, `&'a [T; 8]`
///
/// ```
/// let tokens = lex(alloc, 0, text)?;
/// let ty = parse_type(alloc, &tokens)?;
/// Ok(ty)
/// ```
pub fn parse_type(alloc: Global, tokens: &TokenStream) -> Parse<Type>
    ensures { Parses (codes "expected a type") tokens.now (trees.type_of tokens.now) result }
{
    let mut left = Cursor::new(tokens.trees.as_slice());
    let read = front::ty(alloc, &mut left);
    whole(alloc, tokens, "expected a type", read, &left)
}

/// A path as in a type: `std::vec::Vec<T>`
pub fn parse_path(alloc: Global, tokens: &TokenStream) -> Parse<Path>
    ensures { Parses (codes "expected a path") tokens.now (trees.path_of tokens.now) result }
{
    let mut left = Cursor::new(tokens.trees.as_slice());
    let read = front::path(alloc, &mut left);
    whole(alloc, tokens, "expected a path", read, &left)
}

/// An expression: `a + b`, `|x| f(x)`
pub fn parse_expr(alloc: Global, tokens: &TokenStream) -> Parse<Expr>
    ensures { Parses (codes "expected an expression") tokens.now (trees.expr_of tokens.now) result }
{
    expr_or(alloc, tokens, "expected an expression")
}

/// An identifier that is no keyword; a raw one always.
pub fn parse_ident(alloc: Global, tokens: &TokenStream) -> Parse<Ident>
    ensures { Parses (codes "expected an identifier") tokens.now (trees.ident_of tokens.now) result }
{
    let mut left = Cursor::new(tokens.trees.as_slice());
    let read = front::name(alloc, &mut left);
    whole(alloc, tokens, "expected an identifier", read, &left)
}

/// An array of expressions: `[a, b]`
#[tactic(auto, unfolding(syn_grammar::specs::Trees::expr_array_of))]
pub fn parse_expr_array(alloc: Global, tokens: &TokenStream) -> Parse<ExprArray>
    ensures { Parses (codes "expected an array") tokens.now (trees.expr_array_of tokens.now) result }
{
    let expr = expr_or(alloc, tokens, "expected an array")?;
    match expr.into_array() {
        Some(array) => Ok(array),
        None => Err(refusal(alloc, tokens, "expected an array")),
    }
}

/// A path as an expression: `a::b::<T>`, `<T as Trait>::f`
#[tactic(auto, unfolding(syn_grammar::specs::Trees::expr_path_of))]
pub fn parse_expr_path(alloc: Global, tokens: &TokenStream) -> Parse<ExprPath>
    ensures { Parses (codes "expected an expression path") tokens.now (trees.expr_path_of tokens.now) result }
{
    let expr = expr_or(alloc, tokens, "expected an expression path")?;
    match expr.into_path() {
        Some(path) => Ok(path),
        None => Err(refusal(alloc, tokens, "expected an expression path")),
    }
}

/// A range: `a..b`, `..=b`, `..`
#[tactic(auto, unfolding(syn_grammar::specs::Trees::expr_range_of))]
pub fn parse_expr_range(alloc: Global, tokens: &TokenStream) -> Parse<ExprRange>
    ensures { Parses (codes "expected a range") tokens.now (trees.expr_range_of tokens.now) result }
{
    let expr = expr_or(alloc, tokens, "expected a range")?;
    match expr.into_range() {
        Some(range) => Ok(range),
        None => Err(refusal(alloc, tokens, "expected a range")),
    }
}

/// The arguments of a function: `a: A, &(mut b, _): B`
pub fn parse_fn_args(alloc: Global, tokens: &TokenStream) -> Parse<Items<FnArg>>
    ensures { Parses (codes "expected a list") tokens.now (trees.fn_args_of tokens.now) result }
{
    let mut left = Cursor::new(tokens.trees.as_slice());
    let read = front::fn_args(alloc, &mut left);
    whole(alloc, tokens, "expected a list", read, &left)
}

/// A list of expressions: `a, b + c`
pub fn parse_exprs(alloc: Global, tokens: &TokenStream) -> Parse<Items<Expr>>
    ensures { Parses (codes "expected a list") tokens.now (trees.exprs_of tokens.now) result }
{
    let mut left = Cursor::new(tokens.trees.as_slice());
    let read = front::exprs(alloc, &mut left);
    whole(alloc, tokens, "expected a list", read, &left)
}

/// A list of identifiers: `a, b`
pub fn parse_idents(alloc: Global, tokens: &TokenStream) -> Parse<Items<Ident>>
    ensures { Parses (codes "expected a list") tokens.now (trees.idents_of tokens.now) result }
{
    let mut left = Cursor::new(tokens.trees.as_slice());
    let read = front::names(alloc, &mut left);
    whole(alloc, tokens, "expected a list", read, &left)
}

/// A list of paths as in types: `a::b, Vec<T>`
pub fn parse_paths(alloc: Global, tokens: &TokenStream) -> Parse<Items<Path>>
    ensures { Parses (codes "expected a list") tokens.now (trees.paths_of tokens.now) result }
{
    let mut left = Cursor::new(tokens.trees.as_slice());
    let read = front::path_list(alloc, &mut left);
    whole(alloc, tokens, "expected a list", read, &left)
}

/// Items: structs, enums and unions.
pub fn parse_items(alloc: Global, tokens: &TokenStream) -> Parse<Items<DeriveInput>>
    ensures { Parses (codes "expected an item") tokens.now (item_trees.items_of tokens.now) result }
{
    let mut left = Cursor::new(tokens.trees.as_slice());
    let read = syn_items::items(alloc, &mut left);
    whole(alloc, tokens, "expected an item", read, &left)
}

/// One item: a struct, an enum or a union.
///
/// ```
/// let tokens = lex(alloc, 0, text)?;
/// let item = parse_derive_input(alloc, &tokens)?;
/// Ok(item)
/// ```
pub fn parse_derive_input(alloc: Global, tokens: &TokenStream) -> Parse<DeriveInput>
    ensures { Parses (codes "expected an item") tokens.now (item_trees.derive_input_of tokens.now) result }
{
    let mut left = Cursor::new(tokens.trees.as_slice());
    let read = syn_items::item(alloc, &mut left);
    whole(alloc, tokens, "expected an item", read, &left)
}

/// A `where` clause: `where 'a: 'b, T: A + B`
pub fn parse_where(alloc: Global, tokens: &TokenStream) -> Parse<WhereClause>
    ensures { Parses (codes "expected a where clause") tokens.now (item_trees.where_of tokens.now) result }
{
    let mut left = Cursor::new(tokens.trees.as_slice());
    let read = syn_items::where_clause(alloc, &mut left);
    whole(alloc, tokens, "expected a where clause", read, &left)
}

/// A visibility: `pub`, `pub(crate)`, `pub(in a::b)`, or nothing.
pub fn parse_visibility(alloc: Global, tokens: &TokenStream) -> Parse<Visibility>
    ensures { Parses (codes "expected a visibility") tokens.now (item_trees.visibility_of tokens.now) result }
{
    let mut left = Cursor::new(tokens.trees.as_slice());
    let read = syn_items::visibility(alloc, &mut left);
    whole(alloc, tokens, "expected a visibility", read, &left)
}

/// A type parameter: `#[attr] T: A + B = u8`
pub fn parse_type_param(alloc: Global, tokens: &TokenStream) -> Parse<TypeParam>
    ensures { Parses (codes "expected a type parameter") tokens.now (item_trees.type_param_of tokens.now) result }
{
    let mut left = Cursor::new(tokens.trees.as_slice());
    let read = syn_items::one_type_param(alloc, &mut left);
    whole(alloc, tokens, "expected a type parameter", read, &left)
}

/// An expression of all of the tokens, or the one fault `text`.
fn expr_or(alloc: Global, tokens: &TokenStream, text: &str) -> Parse<Expr>
    ensures { Parses text.now tokens.now (trees.expr_of tokens.now) result }
{
    let mut left = Cursor::new(tokens.trees.as_slice());
    let read = front::expr(alloc, &mut left);
    whole(alloc, tokens, text, read, &left)
}
