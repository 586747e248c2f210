//! Why a call gives no value: faults, or want of memory.

ghost use Rattle.std.specs.Prelude.{◌≡◌};
ghost use Rattle.error_core.specs.Answers.{fail_of};

use crate::error::Error;
use std::alloc::{AllocError, AllocFailed};

/// Why a call gives no value.
#[derive(Debug)]
pub enum Fail {
    Faults(Error),
    NoMemory,
}

impl Fail {
    /// The faults. `None` is want of memory.
    pub fn into_error(self) -> Option<Error>
        ensures { self ≡ fail_of result }
    {
        match self {
            Fail::Faults(error) => Some(error),
            Fail::NoMemory => None,
        }
    }
}

impl Drop for Fail {
    fn drop(self) {
        match self {
            Fail::Faults(_error) => {}
            Fail::NoMemory => {}
        }
    }
}

/// A value, or why there is none.
pub type Result<T> = std::result::Result<T, Fail>;

impl From<AllocError> for Fail {
    ghost use Rattle.std.specs.Prelude.{◌≡◌};
    ghost use Rattle.error_core.specs.declared.fail.Fail.TheVariants.{NoMemory};

    ghost from_gives = { λ _ fail. fail ≡ NoMemory };

    fn from(_error: AllocError) -> Fail {
        Fail::NoMemory
    }
}

impl<T: Drop> From<AllocFailed<T>> for Fail {
    ghost use Rattle.std.specs.Prelude.{◌≡◌};
    ghost use Rattle.error_core.specs.declared.fail.Fail.TheVariants.{NoMemory};

    ghost from_gives = { λ _ fail. fail ≡ NoMemory };

    fn from(_error: AllocFailed<T>) -> Fail {
        Fail::NoMemory
    }
}
