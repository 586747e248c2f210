//! The shapes that a receiver takes, as an option says them.

ghost use Rattle.std.specs.Prelude.{◌≡◌};
ghost use Rattle.error_core.specs.Answers.{Answers};
ghost use Rattle.error_core.specs.Each.{each};
ghost use Rattle.options_types.specs.Shapes as spec;

use base_core::{Items, Mem, Text, TryClone};
use codegen_program::DataShape;
use error_core::{Error, Fail, Result};
use node_core::Meta;
use node_expr::PathSegment;
use std::alloc::Global;
use tok_types::Ident;
use util_core::{Call, FromMeta, NestedMeta};

/// The shapes of items that a receiver takes: `supports(struct_named, enum_unit)`
#[derive(Clone, Copy, Default)]
pub struct DeriveInputShapeSet {
    pub enum_values: DataShape,
    pub struct_values: DataShape,
    /// Every item.
    pub any: bool,
}

impl TryClone for DeriveInputShapeSet {
    fn try_clone(&self, _alloc: Global) -> Mem<DeriveInputShapeSet> {
        Ok(*self)
    }
}

/// The words of a list. The first fault is told alone.
impl FromMeta for DeriveInputShapeSet {
    ghost use Rattle.options_types.specs.Shapes.{shapes_cells};
    ghost use Rattle.options_types.specs.declared.shapes.DeriveInputShapeSet.{DeriveInputShapeSet};

    ghost Seen = { DeriveInputShapeSet };

    ghost seen = { λ it. it };

    ghost cells = { shapes_cells };

    fn cell(alloc: Global, call: Call<'_>) -> Result<Option<DeriveInputShapeSet>> {
        match call {
            Call::List(items) => {
                let words = read_words(alloc, items)?;
                Ok(Some(shape_set(words.as_slice())))
            }
            _ => Ok(None),
        }
    }
}

fn shape_set(words: &[Text]) -> DeriveInputShapeSet
    ensures { result ≡ spec.shape_set words.now }
{
    DeriveInputShapeSet {
        enum_values: enum_shape(words),
        struct_values: struct_shape(words),
        any: has(words, "any"),
    }
}

/// The shapes of structs that the words name.
fn struct_shape(words: &[Text]) -> DataShape
    ensures { result ≡ spec.struct_shape words.now }
{
    DataShape {
        newtype: has(words, "struct_newtype"),
        named: has(words, "struct_named"),
        tuple: has(words, "struct_tuple"),
        unit: has(words, "struct_unit"),
        any: has(words, "struct_any"),
    }
}

/// The shapes of variants that the words name.
fn enum_shape(words: &[Text]) -> DataShape
    ensures { result ≡ spec.enum_shape words.now }
{
    DataShape {
        newtype: has(words, "enum_newtype"),
        named: has(words, "enum_named"),
        tuple: has(words, "enum_tuple"),
        unit: has(words, "enum_unit"),
        any: has(words, "enum_any"),
    }
}

/// Whether the word is among these.
pub(crate) fn has(words: &[Text], word: &str) -> bool
    ensures { result ≡ spec.has words.now word.now }
{
    words.iter().any(|it| it.is(word))
}

/// The words that the items are.
fn read_words(alloc: Global, items: &[NestedMeta]) -> Result<Items<Text>>
    ensures { Answers (λ it. it) result (each spec.shape_word items.now) }
{
    let mut words = Items::new(alloc);
    for item in items {
        words.push(read_word(alloc, item)?)?;
    }
    Ok(words)
}

/// The word that the item is, by the first segment of its path.
fn read_word(alloc: Global, item: &NestedMeta) -> Result<Text>
    ensures { Answers (λ it. it) result (spec.shape_word item.now) }
{
    match item {
        NestedMeta::Meta(Meta::Path(path)) => first_word(alloc, item, path.segments.as_slice()),
        other => non_word(alloc, other),
    }
}

fn first_word(alloc: Global, item: &NestedMeta, segments: &[PathSegment]) -> Result<Text>
    ensures { Answers (λ it. it) result (spec.first_word item.now segments.now) }
{
    match segments.first() {
        Some(segment) => known_word(alloc, &segment.ident),
        None => non_word(alloc, item),
    }
}

fn known_word(alloc: Global, ident: &Ident) -> Result<Text>
    ensures { Answers (λ it. it) result (spec.known_word ident.now) }
{
    let word = ident.to_text(alloc)?;
    if is_shape_word(word.as_str()) {
        return Ok(word);
    }
    let error = Error::unknown_value(alloc, word.as_str())?;
    Err(Fail::Faults(error.with_span(ident)))
}

/// An item that is no word.
pub(crate) fn non_word(alloc: Global, item: &NestedMeta) -> Result<Text>
    ensures { Answers (λ it. it) result (spec.non_word item.now) }
{
    let error = Error::unsupported_format(alloc, "non-word")?;
    Err(Fail::Faults(error.with_span(item)))
}

fn is_shape_word(word: &str) -> bool
    ensures { result ≡ spec.is_shape_word word.now }
{
    match word {
        "any" => true,
        "struct_any" | "struct_named" | "struct_newtype" | "struct_tuple" | "struct_unit" => true,
        "enum_any" | "enum_named" | "enum_newtype" | "enum_tuple" | "enum_unit" => true,
        _ => false,
    }
}
