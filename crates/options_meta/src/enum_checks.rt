//! What is checked of an enum under `FromMeta`: what its words and its unit variants exclude.

ghost use Rattle.std.specs.Prelude.{◌≡◌, ◌++◌, map, IfOk, OnOk};
ghost use Rattle.std.specs.List.{list_any};
ghost use Rattle.error_core.specs.ErrorView.{One, held};
ghost use Rattle.options_members.specs.Body.{is_read_unit};
ghost use Rattle.options_meta.specs.MetaChecks as spec;

use crate::from_meta::FromMetaOptions;
use base_core::{Items, Mem};
use error_core::{Accumulator, Error};
use options_members::InputVariant;
use options_rows::{Callable, SpannedValue};
use std::alloc::Global;
use tok_types::Span;

/// What is called for an enum is of use, and one word alone stands for it.
pub(crate) fn check_enum(
    alloc: Global,
    options: &FromMetaOptions,
    variants: &[InputVariant],
    errors: &mut Accumulator,
) -> Mem<()>
    ensures { OnOk result (held errors.new ≡ held errors.old ++ spec.enum_faults options.now variants.now) }
{
    let words = word_spans(alloc, variants)?;
    check_beside(alloc, words.as_slice(), &options.from_word, errors)?;
    check_words(alloc, words.as_slice(), errors)?;
    check_units(alloc, has_read_unit(variants), &options.from_expr, errors)
}

/// Where `word` stands among the variants.
fn word_spans(alloc: Global, variants: &[InputVariant]) -> Mem<Items<Span>>
    ensures { IfOk result (λ spans. spans ≡ spec.word_spans variants.now) }
{
    let mut spans = Items::new(alloc);
    for variant in variants {
        push_place(variant, &mut spans)?;
    }
    Ok(spans)
}

/// Adds where the variant's `word` stands, where it is true.
fn push_place(variant: &InputVariant, spans: &mut Items<Span>) -> Mem<()>
    ensures { OnOk result (spans.new ≡ spans.old ++ spec.word_places variant.now) }
{
    match &variant.word {
        Some(word) => push_true(word, spans),
        None => Ok(()),
    }
}

fn push_true(word: &SpannedValue<bool>, spans: &mut Items<Span>) -> Mem<()>
    ensures { OnOk result (spans.new ≡ spans.old ++ spec.true_place word.now) }
{
    if **word {
        return spans.push(word.span());
    }
    Ok(())
}

/// A variant's word stands in the place of `from_word`.
fn check_beside(
    alloc: Global,
    words: &[Span],
    from_word: &Option<Callable>,
    errors: &mut Accumulator,
) -> Mem<()>
    ensures { OnOk result (held errors.new ≡ held errors.old ++ spec.beside_faults words.now from_word.now) }
{
    let Some(callable) = from_word else {
        return Ok(());
    };
    if 0 < words.len() {
        let error = beside_word(alloc, callable)?;
        return errors.push(alloc, error);
    }
    Ok(())
}

/// A word stands for one variant.
fn check_words(alloc: Global, words: &[Span], errors: &mut Accumulator) -> Mem<()>
    ensures { OnOk result (held errors.new ≡ held errors.old ++ spec.words_faults words.now) }
{
    if 1 < words.len() {
        return push_words(alloc, words, errors);
    }
    Ok(())
}

fn push_words(alloc: Global, words: &[Span], errors: &mut Accumulator) -> Mem<()>
    ensures { OnOk result (held errors.new ≡ held errors.old ++ map spec.not_one_word words.now) }
{
    for span in words {
        let error = not_one_word(alloc, *span)?;
        errors.push(alloc, error)?;
    }
    Ok(())
}

/// A unit variant is read from a string, so that no function reads expressions.
fn check_units(
    alloc: Global,
    units: bool,
    from_expr: &Option<Callable>,
    errors: &mut Accumulator,
) -> Mem<()>
    ensures { OnOk result (held errors.new ≡ held errors.old ++ spec.unit_faults units from_expr.now) }
{
    let Some(callable) = from_expr else {
        return Ok(());
    };
    if units {
        let error = beside_unit(alloc, callable)?;
        return errors.push(alloc, error);
    }
    Ok(())
}

fn has_read_unit(variants: &[InputVariant]) -> bool
    ensures { result ≡ list_any is_read_unit variants.now }
{
    variants.iter().any(|variant| variant.is_unit_variant() && !variant.is_skipped())
}

#[tactic(auto, unfolding(crate::specs::MetaChecks::beside_word))]
fn beside_word(alloc: Global, callable: &Callable) -> Mem<Error>
    ensures { IfOk result (λ error. error ≡ One (spec.beside_word callable.now)) }
{
    let text = "`from_word` cannot be used with an enum that also uses `word`";
    Ok(Error::custom(alloc, text)?.with_span(callable.as_ref()))
}

#[tactic(auto, unfolding(crate::specs::MetaChecks::not_one_word))]
fn not_one_word(alloc: Global, span: Span) -> Mem<Error>
    ensures { IfOk result (λ error. error ≡ One (spec.not_one_word span)) }
{
    let text = "`#[darling(word)]` can only be applied to one variant";
    Ok(Error::custom(alloc, text)?.with_span_at(span))
}

#[tactic(auto, unfolding(crate::specs::MetaChecks::beside_unit))]
fn beside_unit(alloc: Global, callable: &Callable) -> Mem<Error>
    ensures { IfOk result (λ error. error ≡ One (spec.beside_unit callable.now)) }
{
    let text =
        "`from_expr` cannot be used on enums with non-skipped unit variants because it conflicts with the generated impl";
    Ok(Error::custom(alloc, text)?.with_span(callable.as_ref()))
}
