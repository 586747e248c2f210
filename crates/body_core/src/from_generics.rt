//! The trait of types that are read from the generics of an item.

use base_core::TryClone;
use error_core::{Error, Fail, Result};
use node_core::Generics;
use std::alloc::Global;
use std::result;

/// A type that is read from the generics of an item.
pub trait FromGenerics: Sized {
    ghost use Rattle.error_fault.specs.Outcome.{Outcome};
    ghost use Rattle.error_core.specs.Answers.{Answers};
    ghost use Rattle.node_core.specs.declared.generics.Generics.{Generics};

    /// What contracts see of a value.
    ghost Seen: { Type 0 };

    ghost seen: { Self → Seen };

    /// What the generics of an item is to the type: a value as it is seen, or the faults.
    ghost meaning: { Generics → Outcome Seen };

    fn from_generics(alloc: Global, generics: &Generics) -> Result<Self>
        ensures { Answers seen result (meaning generics.now) };
}

/// Nothing is read.
impl FromGenerics for () {
    ghost use Rattle.error_fault.specs.Outcome.{Value};

    ghost Seen = { Unit {0} };

    ghost seen = { λ it. it };

    ghost meaning = { λ _. Value tt };

    fn from_generics(_alloc: Global, _generics: &Generics) -> Result<()> {
        Ok(())
    }
}

/// The whole of it.
impl FromGenerics for Generics {
    ghost use Rattle.error_fault.specs.Outcome.{Value};
    ghost use Rattle.node_core.specs.declared.generics.Generics.{Generics};

    ghost Seen = { Generics };

    ghost seen = { λ it. it };

    ghost meaning = { Value };

    fn from_generics(alloc: Global, generics: &Generics) -> Result<Generics> {
        Ok(generics.try_clone(alloc)?)
    }
}

/// The answer with its error, where the type inside refuses the generics. Want of memory is not kept.
impl<T: FromGenerics> FromGenerics for result::Result<T, Error> {
    ghost use Rattle.error_fault.specs.Outcome.{Outcome, Value};
    ghost use Rattle.body_core.specs.Generics.{outcome_of};

    ghost Seen = { Outcome T.Seen };

    ghost seen = { outcome_of T.seen };

    ghost meaning = { λ it. Value (T.meaning it) };

    fn from_generics(alloc: Global, generics: &Generics) -> Result<result::Result<T, Error>> {
        match T::from_generics(alloc, generics) {
            Ok(value) => Ok(Ok(value)),
            Err(fail) => match fail.into_error() {
                Some(error) => Ok(Err(error)),
                None => Err(Fail::NoMemory),
            },
        }
    }
}
