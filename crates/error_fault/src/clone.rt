//! Clones of faults.

use crate::fault::Fault;
use crate::kind::FaultKind;
use base_core::{Mem, TryClone};
use std::alloc::Global;

impl TryClone for FaultKind {
    fn try_clone(&self, alloc: Global) -> Mem<FaultKind> {
        Ok(match self {
            FaultKind::Custom(message) => FaultKind::Custom(message.try_clone(alloc)?),
            FaultKind::DuplicateField(name) => FaultKind::DuplicateField(name.try_clone(alloc)?),
            FaultKind::MissingField(name) => FaultKind::MissingField(name.try_clone(alloc)?),
            FaultKind::UnsupportedShape { observed, expected } => FaultKind::UnsupportedShape {
                observed: observed.try_clone(alloc)?,
                expected: expected.try_clone(alloc)?,
            },
            FaultKind::UnknownField { name, alts } => FaultKind::UnknownField {
                name: name.try_clone(alloc)?,
                alts: alts.try_clone(alloc)?,
            },
            FaultKind::UnexpectedFormat(format) => {
                FaultKind::UnexpectedFormat(format.try_clone(alloc)?)
            }
            FaultKind::UnexpectedType(name) => FaultKind::UnexpectedType(name.try_clone(alloc)?),
            FaultKind::UnknownValue { name, alts } => FaultKind::UnknownValue {
                name: name.try_clone(alloc)?,
                alts: alts.try_clone(alloc)?,
            },
            FaultKind::TooFewItems(least) => FaultKind::TooFewItems(*least),
            FaultKind::TooManyItems(most) => FaultKind::TooManyItems(*most),
        })
    }
}

impl TryClone for Fault {
    fn try_clone(&self, alloc: Global) -> Mem<Fault> {
        Ok(Fault {
            kind: self.kind.try_clone(alloc)?,
            path: self.path.try_clone(alloc)?,
            span: self.span,
        })
    }
}
