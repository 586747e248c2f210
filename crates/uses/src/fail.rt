//! Why a text gives no item.

use std::alloc::{AllocError, AllocFailed};
use syn_core::ParseFail;
use tok_core::LexError;

/// Why a text gives no item.
#[derive(Debug, Drop)]
pub enum TextFail {
    /// The text is no list of tokens, or memory ran out.
    Lex(LexError),
    /// The tokens are no item, or memory ran out.
    Parse(ParseFail),
    /// Memory ran out.
    NoMemory,
}

impl From<LexError> for TextFail {
    ghost use Rattle.std.specs.Prelude.{◌≡◌};
    ghost use Rattle.uses.specs.declared.fail.TextFail.TheVariants.{Lex};

    ghost from_gives = { λ error fail. fail ≡ Lex error };

    fn from(error: LexError) -> TextFail {
        TextFail::Lex(error)
    }
}

impl From<ParseFail> for TextFail {
    ghost use Rattle.std.specs.Prelude.{◌≡◌};
    ghost use Rattle.uses.specs.declared.fail.TextFail.TheVariants.{Parse};

    ghost from_gives = { λ error fail. fail ≡ Parse error };

    fn from(error: ParseFail) -> TextFail {
        TextFail::Parse(error)
    }
}

impl From<AllocError> for TextFail {
    ghost use Rattle.std.specs.Prelude.{◌≡◌};
    ghost use Rattle.uses.specs.declared.fail.TextFail.TheVariants.{NoMemory};

    ghost from_gives = { λ _ fail. fail ≡ NoMemory };

    fn from(_error: AllocError) -> TextFail {
        TextFail::NoMemory
    }
}

impl<T: Drop> From<AllocFailed<T>> for TextFail {
    ghost use Rattle.std.specs.Prelude.{◌≡◌};
    ghost use Rattle.uses.specs.declared.fail.TextFail.TheVariants.{NoMemory};

    ghost from_gives = { λ _ fail. fail ≡ NoMemory };

    fn from(_error: AllocFailed<T>) -> TextFail {
        TextFail::NoMemory
    }
}
