//! What is wrong with an input, by kinds.

ghost use Rattle.std.specs.Prelude.{◌≡◌, IfOk};

use crate::alts::Alts;
use crate::shared::Shared;
use base_core::{Mem, Text, TryClone};
use std::alloc::Global;
use std::collections::BTreeSet;

/// What is wrong.
#[derive(Debug)]
pub enum FaultKind {
    /// A message of the caller's own.
    Custom(Text),
    /// A field that stands more than once.
    DuplicateField(Text),
    /// A field that has to stand and does not.
    MissingField(Text),
    /// A declaration whose shape is not among those that are taken; `expected` names these.
    UnsupportedShape {
        observed: Text,
        expected: Option<Text>,
    },
    /// A field that is not known; `alts` are those that are.
    UnknownField {
        name: Text,
        alts: Alts,
    },
    /// An item of another format than is read, as a word in the place of a list.
    UnexpectedFormat(Text),
    /// A literal of another type than is read.
    UnexpectedType(Text),
    /// A value that is not known; `alts` are those that are.
    UnknownValue {
        name: Text,
        alts: Alts,
    },
    /// Fewer items than the count, which is the least that is taken.
    TooFewItems(usize),
    /// More items than the count, which is the most that is taken.
    TooManyItems(usize),
}

impl FaultKind {
    ghost use Rattle.error_fault.specs.Kind.{with_alternatives};

    /// An unknown field with these alternatives too; every other kind as it is. Want of memory drops
    /// the kind.
    pub fn with_alternatives(self, alloc: Global, names: &Shared<BTreeSet<Text>>) -> Mem<FaultKind>
        ensures { IfOk result (λ kind. kind ≡ with_alternatives self names.now.keys) }
    {
        match self {
            FaultKind::UnknownField { name, alts } => {
                let alts = alts.widen(names.try_clone(alloc)?)?;
                Ok(FaultKind::UnknownField { name, alts })
            }
            other => Ok(other),
        }
    }
}

impl Drop for FaultKind {
    fn drop(self) {
        match self {
            FaultKind::Custom(_a) => {}
            FaultKind::DuplicateField(_a) => {}
            FaultKind::MissingField(_a) => {}
            FaultKind::UnsupportedShape {
                observed: _observed,
                expected: _expected,
            } => {}
            FaultKind::UnknownField {
                name: _name,
                alts: _alts,
            } => {}
            FaultKind::UnexpectedFormat(_a) => {}
            FaultKind::UnexpectedType(_a) => {}
            FaultKind::UnknownValue {
                name: _name,
                alts: _alts,
            } => {}
            FaultKind::TooFewItems(_) => {}
            FaultKind::TooManyItems(_) => {}
        }
    }
}
