//! Why a text is no identifier.

ghost use Rattle.std.specs.Prelude.{◌≡◌};

use std::alloc::AllocError;

/// Why no identifier is made.
#[derive(Debug, thiserror::Error)]
pub enum IdentError {
    /// The text is no identifier.
    #[error("NotAnIdentifier")]
    NotAnIdentifier,
    #[error("NoMemory")]
    NoMemory,
}

impl From<AllocError> for IdentError {
    ghost use Rattle.tok_types.specs.declared.error.IdentError.TheVariants.{NoMemory};

    ghost from_gives = { λ _ e. e ≡ NoMemory };

    fn from(_error: AllocError) -> IdentError {
        IdentError::NoMemory
    }
}

impl Drop for IdentError {
    fn drop(self) {
        match self {
            IdentError::NotAnIdentifier => {}
            IdentError::NoMemory => {}
        }
    }
}
