//! Why declarations compile to no program.

ghost use Rattle.std.specs.Prelude.{◌≡◌};

use base_core::{Items, Mem, TryClone};
use codegen_program::Derive;
use error_fault::Fault;
use std::alloc::{AllocError, AllocFailed, Global};
use tok_types::Ident;

/// A declaration whose options have faults under a derive.
#[derive(Debug)]
pub struct Rejected {
    pub decl: Ident,
    pub derive: Derive,
    /// All of them, in order.
    pub faults: Items<Fault>,
}

impl TryClone for Rejected {
    fn try_clone(&self, alloc: Global) -> Mem<Rejected> {
        Ok(Rejected {
            decl: self.decl.try_clone(alloc)?,
            derive: self.derive,
            faults: self.faults.try_clone(alloc)?,
        })
    }
}

impl Drop for Rejected {
    fn drop(self) {
        let Self {
            decl: _decl,
            derive: _,
            faults: _faults,
        } = self;
    }
}

/// Why declarations compile to no program.
#[derive(Debug, Drop)]
pub enum CompileFail {
    /// The first declaration and derive whose options have faults.
    Rejected(Rejected),
    NoMemory,
}

impl From<AllocError> for CompileFail {
    ghost use Rattle.run_accepted.specs.declared.rejected.CompileFail.TheVariants.{NoMemory};

    ghost from_gives = { λ _ fail. fail ≡ NoMemory };

    fn from(_error: AllocError) -> CompileFail {
        CompileFail::NoMemory
    }
}

impl<T: Drop> From<AllocFailed<T>> for CompileFail {
    ghost use Rattle.run_accepted.specs.declared.rejected.CompileFail.TheVariants.{NoMemory};

    ghost from_gives = { λ _ fail. fail ≡ NoMemory };

    fn from(_error: AllocFailed<T>) -> CompileFail {
        CompileFail::NoMemory
    }
}
