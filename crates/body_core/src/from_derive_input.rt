//! The trait of types that are read from an item.

use base_core::TryClone;
use error_core::Result;
use node_core::DeriveInput;
use std::alloc::Global;

/// A type that is read from an item.
pub trait FromDeriveInput: Sized {
    ghost use Rattle.error_fault.specs.Outcome.{Outcome};
    ghost use Rattle.error_core.specs.Answers.{Answers};
    ghost use Rattle.node_core.specs.declared.derive.DeriveInput.{DeriveInput};

    /// What contracts see of a value.
    ghost Seen: { Type 0 };

    ghost seen: { Self → Seen };

    /// What an item is to the type: a value as it is seen, or the faults.
    ghost meaning: { DeriveInput → Outcome Seen };

    fn from_derive_input(alloc: Global, input: &DeriveInput) -> Result<Self>
        ensures { Answers seen result (meaning input.now) };
}

/// Nothing is read.
impl FromDeriveInput for () {
    ghost use Rattle.error_fault.specs.Outcome.{Value};

    ghost Seen = { Unit {0} };

    ghost seen = { λ it. it };

    ghost meaning = { λ _. Value tt };

    fn from_derive_input(_alloc: Global, _input: &DeriveInput) -> Result<()> {
        Ok(())
    }
}

/// The whole of it.
impl FromDeriveInput for DeriveInput {
    ghost use Rattle.error_fault.specs.Outcome.{Value};
    ghost use Rattle.node_core.specs.declared.derive.DeriveInput.{DeriveInput};

    ghost Seen = { DeriveInput };

    ghost seen = { λ it. it };

    ghost meaning = { Value };

    fn from_derive_input(alloc: Global, input: &DeriveInput) -> Result<DeriveInput> {
        Ok(input.try_clone(alloc)?)
    }
}
