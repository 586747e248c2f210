//! Why a rule reads nothing.

use std::alloc::{AllocError, AllocFailed};

/// Why a rule gives no tree.
#[derive(Clone, Copy, Debug, PartialEq, Eq)]
pub enum ReadFail {
    /// The tokens are not what the rule reads.
    Syntax,
    NoMemory,
}

impl From<AllocError> for ReadFail {
    ghost use Rattle.std.specs.Prelude.{◌≡◌};
    ghost use Rattle.syn_grammar.specs.declared.fail.ReadFail.TheVariants.{NoMemory};

    ghost from_gives = { λ _ fail. fail ≡ NoMemory };

    fn from(_: AllocError) -> ReadFail {
        ReadFail::NoMemory
    }
}

impl<T: Drop> From<AllocFailed<T>> for ReadFail {
    ghost use Rattle.std.specs.Prelude.{◌≡◌};
    ghost use Rattle.syn_grammar.specs.declared.fail.ReadFail.TheVariants.{NoMemory};

    ghost from_gives = { λ _ fail. fail ≡ NoMemory };

    fn from(_: AllocFailed<T>) -> ReadFail {
        ReadFail::NoMemory
    }
}
