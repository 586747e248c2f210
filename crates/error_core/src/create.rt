//! The calls that make an error of one fault.

ghost use Rattle.std.specs.Prelude.{◌≡◌, [], IfOk, Some, None};
ghost use Rattle.error_fault.specs.Kind.{set_of};
ghost use Rattle.error_core.specs.Changes.{leaf};

use crate::error::Error;
use base_core::{Mem, Text};
use error_fault::{Alts, Fault, FaultKind, Shared, name_set};
use std::alloc::Global;
use std::collections::BTreeSet;

/// Errors of one fault, in no field and at no place.
impl Error {
    fn leaf(alloc: Global, kind: FaultKind) -> Mem<Error>
        ensures { IfOk result (λ error. error ≡ leaf kind) }
    {
        Error::from_fault(alloc, Fault::new(alloc, kind))
    }

    /// A message of the caller's own.
    pub fn custom(alloc: Global, msg: &str) -> Mem<Error>
        ensures { IfOk result (λ error. error ≡ leaf (FaultKind.Custom msg.now)) }
    {
        let message = Text::from_str(alloc, msg)?;
        Error::leaf(alloc, FaultKind::Custom(message))
    }

    /// A field that stands more than once.
    pub fn duplicate_field(alloc: Global, name: &str) -> Mem<Error>
        ensures { IfOk result (λ error. error ≡ leaf (FaultKind.DuplicateField name.now)) }
    {
        let name = Text::from_str(alloc, name)?;
        Error::leaf(alloc, FaultKind::DuplicateField(name))
    }

    /// A field that has to stand and does not.
    pub fn missing_field(alloc: Global, name: &str) -> Mem<Error>
        ensures { IfOk result (λ error. error ≡ leaf (FaultKind.MissingField name.now)) }
    {
        let name = Text::from_str(alloc, name)?;
        Error::leaf(alloc, FaultKind::MissingField(name))
    }

    /// A field that is not known, with no alternatives.
    pub fn unknown_field(alloc: Global, name: &str) -> Mem<Error>
        ensures { IfOk result (λ error. error ≡ leaf (FaultKind.UnknownField name.now (set_of []))) }
    {
        let name = Text::from_str(alloc, name)?;
        let alts = Alts::of(alloc, Shared::new(alloc, BTreeSet::new(alloc))?);
        Error::leaf(alloc, FaultKind::UnknownField { name, alts })
    }

    /// A field that is not known, where `alts` are.
    pub fn unknown_field_with_alts(alloc: Global, field: &str, alts: &[Text]) -> Mem<Error>
        ensures { IfOk result (λ error. error
            ≡ leaf (FaultKind.UnknownField field.now (set_of alts.now))) }
    {
        let name = Text::from_str(alloc, field)?;
        let alts = Alts::of(alloc, Shared::new(alloc, name_set(alloc, alts)?)?);
        Error::leaf(alloc, FaultKind::UnknownField { name, alts })
    }

    /// A declaration of a shape that is not taken.
    pub fn unsupported_shape(alloc: Global, shape: &str) -> Mem<Error>
        ensures { IfOk result (λ error. error ≡ leaf (FaultKind.UnsupportedShape shape.now None)) }
    {
        let observed = Text::from_str(alloc, shape)?;
        let expected = None;
        let kind = FaultKind::UnsupportedShape { observed, expected };
        Error::leaf(alloc, kind)
    }

    /// A declaration of a shape that is not taken; `expected` names those that are.
    pub fn unsupported_shape_with_expected(alloc: Global, shape: &str, expected: &str) -> Mem<Error>
        ensures { IfOk result (λ error. error
            ≡ leaf (FaultKind.UnsupportedShape shape.now (Some expected.now))) }
    {
        let observed = Text::from_str(alloc, shape)?;
        let expected = Some(Text::from_str(alloc, expected)?);
        let kind = FaultKind::UnsupportedShape { observed, expected };
        Error::leaf(alloc, kind)
    }

    /// An item of a format that is not read, as `word` or `list`.
    pub fn unsupported_format(alloc: Global, format: &str) -> Mem<Error>
        ensures { IfOk result (λ error. error ≡ leaf (FaultKind.UnexpectedFormat format.now)) }
    {
        let format = Text::from_str(alloc, format)?;
        Error::leaf(alloc, FaultKind::UnexpectedFormat(format))
    }

    /// A literal or an expression of a type that is not read.
    pub fn unexpected_type(alloc: Global, ty: &str) -> Mem<Error>
        ensures { IfOk result (λ error. error ≡ leaf (FaultKind.UnexpectedType ty.now)) }
    {
        let name = Text::from_str(alloc, ty)?;
        Error::leaf(alloc, FaultKind::UnexpectedType(name))
    }

    /// A value that is not known, with no alternatives.
    pub fn unknown_value(alloc: Global, value: &str) -> Mem<Error>
        ensures { IfOk result (λ error. error ≡ leaf (FaultKind.UnknownValue value.now (set_of []))) }
    {
        let name = Text::from_str(alloc, value)?;
        let alts = Alts::of(alloc, Shared::new(alloc, BTreeSet::new(alloc))?);
        Error::leaf(alloc, FaultKind::UnknownValue { name, alts })
    }

    /// A value that is not known, where `alts` are.
    pub fn unknown_value_with_alts(alloc: Global, value: &str, alts: &[Text]) -> Mem<Error>
        ensures { IfOk result (λ error. error
            ≡ leaf (FaultKind.UnknownValue value.now (set_of alts.now))) }
    {
        let name = Text::from_str(alloc, value)?;
        let alts = Alts::of(alloc, Shared::new(alloc, name_set(alloc, alts)?)?);
        Error::leaf(alloc, FaultKind::UnknownValue { name, alts })
    }

    /// A list of fewer than `min` items.
    pub fn too_few_items(alloc: Global, min: usize) -> Mem<Error>
        ensures { IfOk result (λ error. error ≡ leaf (FaultKind.TooFewItems min)) }
    {
        Error::leaf(alloc, FaultKind::TooFewItems(min))
    }

    /// A list of more than `max` items.
    pub fn too_many_items(alloc: Global, max: usize) -> Mem<Error>
        ensures { IfOk result (λ error. error ≡ leaf (FaultKind.TooManyItems max)) }
    {
        Error::leaf(alloc, FaultKind::TooManyItems(max))
    }
}
