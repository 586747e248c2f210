//! The items of a list, and the call that reads them.

ghost use Rattle.std.specs.Prelude.{◌≡◌, [], IfOk};
ghost use Rattle.syn_grammar.specs.Input as input;
ghost use Rattle.syn_grammar.specs.Reads.{Gives};
ghost use Rattle.meta_nested.specs.Answers.{ParsesNested};
ghost use Rattle.meta_nested.specs.Nested as spec;

use crate::angles::closings_of;
use crate::item::{Found, item};
use base_core::{Items, Mem};
use error_core::Error;
use node_core::Meta;
use node_expr::{Lit, Path};
use node_span::Spanned;
use std::alloc::Global;
use syn_core::{Parse, ParseFail};
use syn_grammar::{Cursor, ReadFail};
use syn_lists::all_of;
use tok_types::{Span, TokenStream};

/// One item of the list in an attribute.
#[derive_where(PartialEq, Eq, Hash)]
pub enum NestedMeta {
    /// `path`, `path(tokens)`, `path = expression`
    Meta(Meta),
    /// A literal, or a number with a minus.
    Lit(Lit),
    /// `path = tokens`, where the tokens are no expression.
    NameValueInvalidExpr(MetaNameValueInvalidExpr),
}

/// `path = tokens`, where the tokens are no expression, as in `vis = pub(crate)`. Two are equal
/// where their paths and values are.
#[derive_where(PartialEq, Eq, Hash)]
pub struct MetaNameValueInvalidExpr {
    pub path: Path,
    #[derive_where(skip(EqHashOrd))]
    pub eq_span: Span,
    /// The tokens up to the next comma.
    pub value: TokenStream,
    /// What a type answers that reads no other tokens than those of an expression.
    #[derive_where(skip(EqHashOrd))]
    pub error: Error,
}

impl NestedMeta {
    /// Reads a list of nested items, with at most one comma at its end.
    ///
    /// ```
    /// let tokens = lex(alloc, 0, text)?;
    /// let items = NestedMeta::parse_meta_list(alloc, &tokens)?;
    /// Ok(items)
    /// ```
    #[tactic(auto, unfolding(crate::specs::Nested::nested_of, crate::specs::Nested::attribute_in))]
    pub fn parse_meta_list(alloc: Global, tokens: &TokenStream) -> Parse<Items<NestedMeta>>
        ensures { ParsesNested tokens.now result }
    {
        let Some(found) = found_of(alloc, tokens)? else {
            return Err(ParseFail::at(alloc, tokens.spanned(), "expected a meta list"));
        };
        match among(alloc, found)? {
            Ok(items) => Ok(items),
            Err(place) => {
                let text = "unexpected attribute inside of attribute";
                Err(ParseFail::at(alloc, place, text))
            }
        }
    }
}

fn list(alloc: Global, tokens: &mut Cursor<'_>) -> Result<Items<Found>, ReadFail>
    ensures { Gives (input.items_after spec.item [] tokens.old) result tokens.new }
{
    let closings = closings_of(alloc, tokens.rest())?;
    let mut found = Items::new(alloc);
    for _turn in 0..tokens.left() {
        if tokens.at_end() {
            return Ok(found);
        }
        let next = item(alloc, tokens, closings.as_slice())?;
        found.push(next)?;
        if !tokens.eat_mark(',') {
            return Ok(found);
        }
    }
    if tokens.at_end() {
        Ok(found)
    } else {
        Err(ReadFail::Syntax)
    }
}

/// What all of the tokens are, as far as they go without an attribute.
fn found_of(alloc: Global, tokens: &TokenStream) -> Mem<Option<Items<Found>>>
    ensures { IfOk result (λ found. found ≡ spec.found_of tokens.now) }
{
    let mut cursor = Cursor::new(tokens.trees.as_slice());
    let read = list(alloc, &mut cursor);
    all_of(read, &cursor)
}

/// The items, or where the attribute stands that is among them.
fn among(alloc: Global, found: Items<Found>) -> Mem<Result<Items<NestedMeta>, Span>>
    ensures { IfOk result (λ items. items ≡ spec.among found) }
{
    let mut items = Items::new(alloc);
    for it in found.into_vec() {
        match it.into_item() {
            Ok(item) => items.push(item)?,
            Err(place) => return Ok(Err(place)),
        }
    }
    Ok(Ok(items))
}

impl Drop for NestedMeta {
    fn drop(self) {
        match self {
            NestedMeta::Meta(_a) => {}
            NestedMeta::Lit(_a) => {}
            NestedMeta::NameValueInvalidExpr(_a) => {}
        }
    }
}

impl Drop for MetaNameValueInvalidExpr {
    fn drop(self) {
        let Self {
            path: _path,
            eq_span: _,
            value: _value,
            error: _error,
        } = self;
    }
}
