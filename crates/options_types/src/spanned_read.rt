//! Values that are read with their places.

ghost use Rattle.std.specs.Prelude.{◌≡◌};
ghost use Rattle.util_core.specs.Places.{answer_at};
ghost use Rattle.options_types.specs.SpannedValue as spec;

use crate::spanned_value::SpannedValue;
use body_core::{
    FromDeriveInput, FromField, FromGenericParam, FromGenerics, FromTypeParam, FromVariant,
};
use error_core::Result;
use node_core::{DeriveInput, Field, GenericParam, Generics, TypeParam, Variant};
use node_span::Spanned;
use std::alloc::Global;
use tok_types::Span;
use util_core::{ByType, Call, FromMeta, spanned, value_and_span_cell};

/// What the type inside reads, and where it stands: the word, the tokens of the list, the value behind the `=`, or the
/// whole item.
impl<T: FromMeta> FromMeta for SpannedValue<T> {
    ghost use Rattle.options_types.specs.SpannedValue.{seen_spanned, spanned_cells};
    ghost use Rattle.options_types.specs.declared.spanned_value.SpannedValue.{SpannedValue};

    ghost Seen = { SpannedValue T.Seen };

    ghost seen = { seen_spanned T.seen };

    ghost cells = { spanned_cells T.cells };

    fn cell(alloc: Global, call: Call<'_>) -> Result<Option<SpannedValue<T>>> {
        match value_and_span_cell(alloc, &ByType::<T>::new(), call)? {
            Some((value, span)) => Ok(Some(SpannedValue::new(value, span))),
            None => Ok(None),
        }
    }
}

/// The answer at this place: the value stands there, and so does an error whose root has no place.
fn at_span<T>(answer: Result<T>, span: Span) -> Result<SpannedValue<T>>
    ensures { result ≡ spec.placed_answer (answer_at answer span) span }
{
    Ok(SpannedValue::new(spanned(answer, span)?, span))
}

impl<T: FromDeriveInput> FromDeriveInput for SpannedValue<T> {
    ghost use Rattle.options_types.specs.SpannedValue.{seen_spanned, spanned_meaning};
    ghost use Rattle.options_types.specs.declared.spanned_value.SpannedValue.{SpannedValue};

    ghost Seen = { SpannedValue T.Seen };

    ghost seen = { seen_spanned T.seen };

    ghost meaning = { spanned_meaning (λ it. it.span) T.meaning };

    #[tactic(auto, using(crate::proofs::PlaceLemmas::answers_placed))]
    fn from_derive_input(alloc: Global, input: &DeriveInput) -> Result<SpannedValue<T>> {
        at_span(T::from_derive_input(alloc, input), input.spanned())
    }
}

impl<T: FromField> FromField for SpannedValue<T> {
    ghost use Rattle.options_types.specs.SpannedValue.{seen_spanned, spanned_meaning};
    ghost use Rattle.options_types.specs.declared.spanned_value.SpannedValue.{SpannedValue};

    ghost Seen = { SpannedValue T.Seen };

    ghost seen = { seen_spanned T.seen };

    ghost meaning = { spanned_meaning (λ it. it.span) T.meaning };

    #[tactic(auto, using(crate::proofs::PlaceLemmas::answers_placed))]
    fn from_field(alloc: Global, field: &Field) -> Result<SpannedValue<T>> {
        at_span(T::from_field(alloc, field), field.spanned())
    }
}

impl<T: FromVariant> FromVariant for SpannedValue<T> {
    ghost use Rattle.options_types.specs.SpannedValue.{seen_spanned, spanned_meaning};
    ghost use Rattle.options_types.specs.declared.spanned_value.SpannedValue.{SpannedValue};

    ghost Seen = { SpannedValue T.Seen };

    ghost seen = { seen_spanned T.seen };

    ghost meaning = { spanned_meaning (λ it. it.span) T.meaning };

    #[tactic(auto, using(crate::proofs::PlaceLemmas::answers_placed))]
    fn from_variant(alloc: Global, variant: &Variant) -> Result<SpannedValue<T>> {
        at_span(T::from_variant(alloc, variant), variant.spanned())
    }
}

impl<T: FromTypeParam> FromTypeParam for SpannedValue<T> {
    ghost use Rattle.options_types.specs.SpannedValue.{seen_spanned, spanned_meaning};
    ghost use Rattle.options_types.specs.declared.spanned_value.SpannedValue.{SpannedValue};

    ghost Seen = { SpannedValue T.Seen };

    ghost seen = { seen_spanned T.seen };

    ghost meaning = { spanned_meaning (λ it. it.span) T.meaning };

    #[tactic(auto, using(crate::proofs::PlaceLemmas::answers_placed))]
    fn from_type_param(alloc: Global, type_param: &TypeParam) -> Result<SpannedValue<T>> {
        at_span(T::from_type_param(alloc, type_param), type_param.spanned())
    }
}

impl<T: FromGenericParam> FromGenericParam for SpannedValue<T> {
    ghost use Rattle.node_span.specs.Spanned.{param_span};
    ghost use Rattle.options_types.specs.SpannedValue.{seen_spanned, spanned_meaning};
    ghost use Rattle.options_types.specs.declared.spanned_value.SpannedValue.{SpannedValue};

    ghost Seen = { SpannedValue T.Seen };

    ghost seen = { seen_spanned T.seen };

    ghost meaning = { spanned_meaning param_span T.meaning };

    #[tactic(auto, using(crate::proofs::PlaceLemmas::answers_placed))]
    fn from_generic_param(alloc: Global, param: &GenericParam) -> Result<SpannedValue<T>> {
        at_span(T::from_generic_param(alloc, param), param.spanned())
    }
}

impl<T: FromGenerics> FromGenerics for SpannedValue<T> {
    ghost use Rattle.node_span.specs.Spanned.{generics_span};
    ghost use Rattle.options_types.specs.SpannedValue.{seen_spanned, spanned_meaning};
    ghost use Rattle.options_types.specs.declared.spanned_value.SpannedValue.{SpannedValue};

    ghost Seen = { SpannedValue T.Seen };

    ghost seen = { seen_spanned T.seen };

    ghost meaning = { spanned_meaning generics_span T.meaning };

    #[tactic(auto, using(crate::proofs::PlaceLemmas::answers_placed))]
    fn from_generics(alloc: Global, generics: &Generics) -> Result<SpannedValue<T>> {
        at_span(T::from_generics(alloc, generics), generics.spanned())
    }
}
