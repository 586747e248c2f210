//! The shapes of variants that a receiver takes, as an option says them.

ghost use Rattle.std.specs.Prelude.{◌≡◌, ◌++◌, flat_map, IfOk, OnOk};
ghost use Rattle.std.specs.List.{filter_map};
ghost use Rattle.error_fault.specs.Outcome.{faults_of, value_of};
ghost use Rattle.error_core.specs.Answers.{Answers};
ghost use Rattle.error_core.specs.Each.{every};
ghost use Rattle.error_core.specs.ErrorView.{held};
ghost use Rattle.options_types.specs.Shapes as spec;

use crate::shapes::{has, non_word};
use base_core::{Items, Mem, Text, TryClone};
use codegen_program::DataShape;
use error_core::{Accumulator, Error, Fail, Result};
use node_core::Meta;
use node_expr::PathSegment;
use std::alloc::Global;
use tok_types::Ident;
use util_core::{Call, FromMeta, NestedMeta};

/// The shapes of variants that a receiver takes: `supports(named, unit)`
#[derive(Clone, Copy, Default)]
pub struct VariantShapes(pub DataShape);

impl TryClone for VariantShapes {
    fn try_clone(&self, _alloc: Global) -> Mem<VariantShapes> {
        Ok(*self)
    }
}

/// The words of a list. All faults are told.
impl FromMeta for VariantShapes {
    ghost use Rattle.codegen_program.specs.declared.shape.DataShape.{DataShape};
    ghost use Rattle.options_types.specs.Shapes.{variant_shapes_cells};

    ghost Seen = { DataShape };

    ghost seen = { λ shapes. shapes.0 };

    ghost cells = { variant_shapes_cells };

    fn cell(alloc: Global, call: Call<'_>) -> Result<Option<VariantShapes>> {
        match call {
            Call::List(items) => {
                let words = read_words(alloc, items)?;
                Ok(Some(VariantShapes(variant_shape(words.as_slice()))))
            }
            _ => Ok(None),
        }
    }
}

/// The shapes that the words name.
fn variant_shape(words: &[Text]) -> DataShape
    ensures { result ≡ spec.variant_shape words.now }
{
    DataShape {
        newtype: has(words, "newtype"),
        named: has(words, "named"),
        tuple: has(words, "tuple"),
        unit: has(words, "unit"),
        any: has(words, "any"),
    }
}

/// The words that the items are.
fn read_words(alloc: Global, items: &[NestedMeta]) -> Result<Items<Text>>
    ensures { Answers (λ it. it) result (every spec.variant_word items.now) }
{
    let mut errors = Error::accumulator(alloc);
    match collect_words(alloc, items, &mut errors) {
        Ok(words) => errors.finish_with(words),
        Err(_) => {
            drop(errors.into_inner());
            Err(Fail::NoMemory)
        }
    }
}

/// The words of the items that are words. The errors of the others are put behind those that are there.
fn collect_words(alloc: Global, items: &[NestedMeta], errors: &mut Accumulator) -> Mem<Items<Text>>
    ensures words { IfOk result (λ words. words ≡ filter_map (λ item. value_of (spec.variant_word item)) items.now) }
    ensures faults { OnOk result (held errors.new ≡ held errors.old ++ flat_map (λ item. faults_of (spec.variant_word item)) items.now) }
{
    let mut words = Items::new(alloc);
    for item in items {
        if let Some(word) = collect_word(alloc, item, errors)? {
            words.push(word)?;
        }
    }
    Ok(words)
}

/// The same of one item.
fn collect_word(alloc: Global, item: &NestedMeta, errors: &mut Accumulator) -> Mem<Option<Text>>
    ensures word { IfOk result (λ word. word ≡ value_of (spec.variant_word item.now)) }
    ensures faults { OnOk result (held errors.new ≡ held errors.old ++ faults_of (spec.variant_word item.now)) }
{
    errors.handle(alloc, read_word(alloc, item))
}

/// The word that the item is, by the first segment of its path.
fn read_word(alloc: Global, item: &NestedMeta) -> Result<Text>
    ensures { Answers (λ it. it) result (spec.variant_word item.now) }
{
    match item {
        NestedMeta::Meta(Meta::Path(path)) => first_word(alloc, item, path.segments.as_slice()),
        other => non_word(alloc, other),
    }
}

fn first_word(alloc: Global, item: &NestedMeta, segments: &[PathSegment]) -> Result<Text>
    ensures { Answers (λ it. it) result (spec.first_variant_word item.now segments.now) }
{
    match segments.first() {
        Some(segment) => known_word(alloc, &segment.ident),
        None => non_word(alloc, item),
    }
}

fn known_word(alloc: Global, ident: &Ident) -> Result<Text>
    ensures { Answers (λ it. it) result (spec.known_variant_word ident.now) }
{
    let word = ident.to_text(alloc)?;
    if is_variant_word(word.as_str()) {
        return Ok(word);
    }
    Err(Fail::Faults(Error::unknown_value(alloc, word.as_str())?))
}

fn is_variant_word(word: &str) -> bool
    ensures { result ≡ spec.is_variant_word word.now }
{
    match word {
        "any" | "named" | "newtype" | "tuple" | "unit" => true,
        _ => false,
    }
}
