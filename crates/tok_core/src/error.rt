//! Why a text has no tokens.

ghost use Rattle.std.specs.Prelude.{◌≡◌};

use std::alloc::{AllocError, AllocFailed};

/// Why a text is not read. `at` is a byte of the text.
#[derive(Debug, Drop, thiserror::Error)]
pub enum LexError {
    /// A group starts at `at` inside 128 open ones.
    #[error("TooDeep")]
    TooDeep { at: u32 },
    /// Nothing starts at `at`, a delimiter there closes what is not open, or the text ends there
    /// with a group open.
    #[error("Syntax")]
    Syntax { at: u32 },
    #[error("NoMemory")]
    NoMemory,
}

impl From<AllocError> for LexError {
    ghost use Rattle.tok_core.specs.declared.error.LexError.TheVariants.{NoMemory};

    ghost from_gives = { λ _ e. e ≡ NoMemory };

    fn from(_error: AllocError) -> LexError {
        LexError::NoMemory
    }
}

impl<T: Drop> From<AllocFailed<T>> for LexError {
    ghost use Rattle.tok_core.specs.declared.error.LexError.TheVariants.{NoMemory};

    ghost from_gives = { λ _ e. e ≡ NoMemory };

    fn from(_error: AllocFailed<T>) -> LexError {
        LexError::NoMemory
    }
}
