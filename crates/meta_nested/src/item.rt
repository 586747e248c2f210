//! One nested item.

ghost use Rattle.std.specs.Prelude.{◌≡◌, true, IfOk};
ghost use Rattle.syn_grammar.specs.Token.{is_equals};
ghost use Rattle.syn_grammar.specs.Reads.{Gives};
ghost use Rattle.meta_nested.specs.Angles.{Tells, TellsHere};
ghost use Rattle.meta_nested.specs.Nested as spec;

use crate::nested::NestedMeta;
use crate::value::take_value;
use base_core::Mem;
use node_core::Meta;
use node_expr::{Lit, LitBool, Path};
use std::alloc::Global;
use syn_grammar::{
    Cursor, ReadFail, Word, after_one, is_equals, is_group, is_mark, lit_of, literal_of, next_word,
};
use syn_items::{delimiter_of, meta_list, meta_path, signed};
use tok_types::{Delimiter, Span, TokenTree};

/// What stands in a list.
pub enum Found {
    Item(NestedMeta),
    /// The `#` of an attribute that takes the place of a value.
    Attribute(Span),
}

impl Found {
    /// The item. `Err` is where the attribute stands.
    pub(crate) fn into_item(self) -> Result<NestedMeta, Span>
        ensures { self ≡ spec.found_as result }
    {
        match self {
            Found::Item(item) => Ok(item),
            Found::Attribute(place) => Err(place),
        }
    }
}

impl Drop for Found {
    fn drop(self) {
        match self {
            Found::Item(_item) => {}
            Found::Attribute(_) => {}
        }
    }
}

/// How an item begins.
#[derive(Clone, Copy, Debug, PartialEq, Eq)]
pub enum ItemStart {
    Literal,
    /// `true` or `false`, and no `=` behind it.
    Boolean,
    /// The minus of a number.
    Minus,
    Path,
}

fn bool_of(word: Word, span: Span) -> Lit
    ensures { result ≡ spec.bool_of word span }
{
    match word {
        Word::True => Lit::Bool(LitBool { value: true, span }),
        _ => Lit::Bool(LitBool { value: false, span }),
    }
}

#[tactic(auto, unfolding(crate::specs::Nested::boolean))]
fn boolean(tokens: &mut Cursor<'_>) -> Result<Lit, ReadFail>
    ensures { Gives (spec.boolean tokens.old) result tokens.new }
{
    let span = tokens.here();
    let lit = bool_of(next_word(tokens.rest()), span);
    tokens.skip();
    Ok(lit)
}

#[tactic(auto, unfolding(crate::specs::Nested::literal))]
fn literal(alloc: Global, tokens: &mut Cursor<'_>) -> Result<Lit, ReadFail>
    ensures { Gives (spec.literal tokens.old) result tokens.new }
{
    let token = tokens.take_literal(alloc)?;
    Ok(lit_of(alloc, token)?)
}

fn is_attribute(trees: &[TokenTree]) -> bool
    ensures { result ≡ spec.is_attribute trees.now }
{
    is_mark('#', trees) && is_group(Delimiter::Bracket, after_one(trees))
}

#[tactic(auto, unfolding(crate::specs::Nested::attribute_item))]
fn attribute_item(tokens: &mut Cursor<'_>) -> Result<Found, ReadFail>
    ensures { Gives (spec.attribute_item tokens.old) result tokens.new }
{
    let place = tokens.here();
    tokens.skip_by(tokens.left());
    Ok(Found::Attribute(place))
}

#[tactic(auto, unfolding(crate::specs::Nested::value_item))]
fn value_item(
    alloc: Global,
    tokens: &mut Cursor<'_>,
    closings: &[bool],
    start: Span,
    path: Path,
    eq_span: Span,
) -> Result<Found, ReadFail>
    requires { TellsHere closings.now tokens.old.rest }
    ensures { Gives (spec.value_item start path eq_span tokens.old) result tokens.new }
{
    let value = take_value(alloc, tokens, closings, eq_span)?;
    let span = tokens.upto(start);
    let item = value.into_item(alloc, path, eq_span, span)?;
    Ok(Found::Item(item))
}

/// `=` and what stands behind it.
#[tactic(auto, unfolding(crate::specs::Nested::name_value))]
fn name_value(
    alloc: Global,
    tokens: &mut Cursor<'_>,
    closings: &[bool],
    start: Span,
    path: Path,
) -> Result<Found, ReadFail>
    requires tells { Tells closings.now tokens.old.rest }
    requires equals { is_equals tokens.old.rest ≡ true }
    ensures { Gives (spec.name_value start path tokens.old) result tokens.new }
{
    let eq_span = tokens.here();
    tokens.skip();
    if is_attribute(tokens.rest()) {
        attribute_item(tokens)
    } else {
        value_item(alloc, tokens, closings, start, path, eq_span)
    }
}

/// `path`, `path(tokens)`, `path = value`
#[tactic(auto, unfolding(crate::specs::Nested::path_item))]
fn path_item(alloc: Global, tokens: &mut Cursor<'_>, closings: &[bool]) -> Result<Found, ReadFail>
    requires { Tells closings.now tokens.old.rest }
    ensures { Gives (spec.path_item tokens.old) result tokens.new }
{
    let start = tokens.here();
    let path = meta_path(alloc, tokens)?;
    if let Some(delimiter) = delimiter_of(tokens.rest()) {
        let list = meta_list(alloc, tokens, start, path, delimiter)?;
        return Ok(Found::Item(NestedMeta::Meta(list)));
    }
    if is_equals(tokens.rest()) {
        return name_value(alloc, tokens, closings, start, path);
    }
    Ok(Found::Item(NestedMeta::Meta(Meta::Path(path))))
}

fn is_truth(word: Word) -> bool
    ensures { result ≡ spec.is_truth word }
{
    matches!(word, Word::True | Word::False)
}

fn is_boolean(trees: &[TokenTree]) -> bool
    ensures { result ≡ spec.is_boolean trees.now }
{
    is_truth(next_word(trees)) && !is_equals(after_one(trees))
}

fn item_start(trees: &[TokenTree]) -> ItemStart
    ensures { result ≡ spec.item_start trees.now }
{
    if literal_of(trees).is_some() {
        ItemStart::Literal
    } else if is_boolean(trees) {
        ItemStart::Boolean
    } else if is_mark('-', trees) {
        ItemStart::Minus
    } else {
        ItemStart::Path
    }
}

/// One item. `closings` says of each value whether its angles close.
#[tactic(auto, unfolding(crate::specs::Nested::item))]
pub(crate) fn item(
    alloc: Global,
    tokens: &mut Cursor<'_>,
    closings: &[bool],
) -> Result<Found, ReadFail>
    requires { Tells closings.now tokens.old.rest }
    ensures { Gives (spec.item tokens.old) result tokens.new }
{
    let lit = match item_start(tokens.rest()) {
        ItemStart::Literal => literal(alloc, tokens)?,
        ItemStart::Boolean => boolean(tokens)?,
        ItemStart::Minus => signed(alloc, tokens)?,
        ItemStart::Path => return path_item(alloc, tokens, closings),
    };
    Ok(Found::Item(NestedMeta::Lit(lit)))
}
