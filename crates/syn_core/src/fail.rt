//! Why a public parser gives no tree.

ghost use Rattle.syn_core.specs.Parses.{Refuses, fault_at};

use base_core::{Mem, TryClone};
use node_core::SynError;
use std::alloc::{AllocError, AllocFailed, Global};
use tok_types::Span;

/// Why a parser gives no tree.
#[derive(Debug, Drop)]
pub enum ParseFail {
    Syn(SynError),
    NoMemory,
}

impl ParseFail {
    /// The one fault with this text there.
    pub fn at(alloc: Global, place: Span, text: &str) -> ParseFail
        ensures { Refuses (fault_at place text.now) result }
    {
        match SynError::new(alloc, place, text) {
            Ok(error) => ParseFail::Syn(error),
            Err(_) => ParseFail::NoMemory,
        }
    }
}

impl TryClone for ParseFail {
    fn try_clone(&self, alloc: Global) -> Mem<ParseFail> {
        match self {
            ParseFail::Syn(error) => Ok(ParseFail::Syn(error.try_clone(alloc)?)),
            ParseFail::NoMemory => Ok(ParseFail::NoMemory),
        }
    }
}

/// A tree, or why there is none.
pub type Parse<T> = Result<T, ParseFail>;

impl From<AllocError> for ParseFail {
    ghost use Rattle.std.specs.Prelude.{◌≡◌};
    ghost use Rattle.syn_core.specs.declared.fail.ParseFail.TheVariants.{NoMemory};

    ghost from_gives = { λ _ fail. fail ≡ NoMemory };

    fn from(_: AllocError) -> ParseFail {
        ParseFail::NoMemory
    }
}

impl<T: Drop> From<AllocFailed<T>> for ParseFail {
    ghost use Rattle.std.specs.Prelude.{◌≡◌};
    ghost use Rattle.syn_core.specs.declared.fail.ParseFail.TheVariants.{NoMemory};

    ghost from_gives = { λ _ fail. fail ≡ NoMemory };

    fn from(_: AllocFailed<T>) -> ParseFail {
        ParseFail::NoMemory
    }
}
