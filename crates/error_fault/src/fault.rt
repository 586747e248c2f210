//! A fault, and the calls that make one.

ghost use Rattle.std.specs.Prelude.{◌≡◌, IfOk};

use crate::alts::Alts;
use crate::kind::FaultKind;
use crate::names::name_set;
use crate::shared::Shared;
use base_core::{Items, Mem, Text, TryClone};
use std::alloc::Global;
use std::collections::BTreeSet;
use tok_types::Span;

/// One thing that is wrong: what it is, the names of the fields that lead to it from the outermost
/// one, and the place in the text.
#[derive(Debug)]
pub struct Fault {
    pub kind: FaultKind,
    pub path: Items<Text>,
    pub span: Option<Span>,
}

impl Fault {
    ghost use Rattle.error_fault.specs.Kind.{set_of};
    ghost use Rattle.error_fault.specs.Fault.{plain, at_span, located};

    /// A fault in no field and at no place.
    pub fn new(alloc: Global, kind: FaultKind) -> Fault
        ensures { result ≡ plain kind }
    {
        Fault {
            kind,
            path: Items::new(alloc),
            span: None,
        }
    }

    /// A fault in no field, at a place.
    pub fn at_span(alloc: Global, kind: FaultKind, span: Span) -> Fault
        ensures { result ≡ at_span kind span }
    {
        Fault {
            kind,
            path: Items::new(alloc),
            span: Some(span),
        }
    }

    pub fn missing_field(alloc: Global, name: &str) -> Mem<Fault>
        ensures { IfOk result (λ fault. fault ≡ plain (FaultKind.MissingField name.now)) }
    {
        let name = Text::from_str(alloc, name)?;
        Ok(Fault::new(alloc, FaultKind::MissingField(name)))
    }

    pub fn duplicate_field(alloc: Global, name: &str, span: Span) -> Mem<Fault>
        ensures { IfOk result (λ fault. fault ≡ at_span (FaultKind.DuplicateField name.now) span) }
    {
        let name = Text::from_str(alloc, name)?;
        Ok(Fault::at_span(alloc, FaultKind::DuplicateField(name), span))
    }

    pub fn unknown_field_with_alts(
        alloc: Global,
        name: &str,
        alts: &[Text],
        span: Span,
    ) -> Mem<Fault>
        ensures { IfOk result (λ fault. fault
            ≡ at_span (FaultKind.UnknownField name.now (set_of alts.now)) span) }
    {
        let alts = Shared::new(alloc, name_set(alloc, alts)?)?;
        Fault::unknown_field_among(alloc, name, &alts, span)
    }

    /// As [`Fault::unknown_field_with_alts`], where many faults share a set of alternatives.
    pub fn unknown_field_among(
        alloc: Global,
        name: &str,
        alts: &Shared<BTreeSet<Text>>,
        span: Span,
    ) -> Mem<Fault>
        ensures { IfOk result (λ fault. fault ≡ at_span (FaultKind.UnknownField name.now alts.now) span) }
    {
        let name = Text::from_str(alloc, name)?;
        let alts = Alts::of(alloc, alts.try_clone(alloc)?);
        Ok(Fault::at_span(alloc, FaultKind::UnknownField { name, alts }, span))
    }

    pub fn custom(alloc: Global, message: &str, span: Span) -> Mem<Fault>
        ensures { IfOk result (λ fault. fault ≡ at_span (FaultKind.Custom message.now) span) }
    {
        let message = Text::from_str(alloc, message)?;
        Ok(Fault::at_span(alloc, FaultKind::Custom(message), span))
    }

    pub fn unexpected_format(alloc: Global, format: &str, span: Span) -> Mem<Fault>
        ensures { IfOk result (λ fault. fault ≡ at_span (FaultKind.UnexpectedFormat format.now) span) }
    {
        let format = Text::from_str(alloc, format)?;
        Ok(Fault::at_span(alloc, FaultKind::UnexpectedFormat(format), span))
    }

    /// The fault one field further in. Want of memory drops it.
    pub fn located(self, alloc: Global, name: &str) -> Mem<Fault>
        ensures { IfOk result (λ fault. fault ≡ located self name.now) }
    {
        let Fault {
            kind,
            mut path,
            span,
        } = self;
        path.insert(0, Text::from_str(alloc, name)?)?;
        Ok(Fault { kind, path, span })
    }

    /// What is wrong, the path and the place.
    pub fn into_parts(self) -> (FaultKind, Items<Text>, Option<Span>)
        ensures { result ≡ (self.kind, self.path, self.span) }
    {
        let Fault { kind, path, span } = self;
        (kind, path, span)
    }
}

impl Drop for Fault {
    fn drop(self) {
        let Self {
            kind: _kind,
            path: _path,
            span: _span,
        } = self;
    }
}
