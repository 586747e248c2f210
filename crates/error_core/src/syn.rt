//! Errors as errors of syntax, and back.

ghost use Rattle.std.specs.Prelude.{◌≡◌, map, IfOk};
ghost use Rattle.error_fault.specs.Fault.{at_span};
ghost use Rattle.node_core.specs.Error.{faults_of};
ghost use Rattle.error_core.specs.Syn.{syn_fault};
ghost use Rattle.error_core.specs.ErrorView.{One, leaves};

use crate::error::Error;
use base_core::{Items, Mem, Text};
use error_fault::{Fault, FaultKind, fault_text, kind_text};
use node_core::SynError;
use std::alloc::Global;
use tok_types::Span;

impl Error {
    /// The first fault of the error of syntax: its text is the message, and it stands at its place.
    pub fn from_syn(alloc: Global, mut e: SynError) -> Mem<Error>
        ensures { IfOk result (λ error. error ≡ One (at_span (FaultKind.Custom e.first.1) e.first.0)) }
    {
        let message = std::mem::replace(&mut e.first.1, Text::new(alloc));
        let fault = Fault::at_span(alloc, FaultKind::Custom(message), e.first.0);
        Error::from_fault(alloc, fault)
    }

    /// The faults as errors of syntax, in order: one with a place is told there, without its path, and
    /// one without by its whole text, at [`Span::CallSite`].
    pub fn into_syn(self, alloc: Global) -> Mem<SynError>
        ensures { IfOk result (λ error. faults_of error ≡ map syn_fault (leaves self)) }
    {
        let faults = self.into_faults(alloc)?;
        let [first, others @ ..] = faults.as_slice() else {
            unreachable!()
        };
        let first = syn_fault(alloc, first)?;
        let mut more = Items::new(alloc);
        for fault in others {
            more.push(syn_fault(alloc, fault)?)?;
        }
        Ok(SynError { first, more })
    }
}

fn syn_fault(alloc: Global, fault: &Fault) -> Mem<(Span, Text)>
    ensures { IfOk result (λ told. told ≡ syn_fault fault.now) }
{
    match fault.span {
        Some(span) => Ok((span, kind_text(alloc, &fault.kind)?)),
        None => Ok((Span::CallSite, fault_text(alloc, fault)?)),
    }
}
