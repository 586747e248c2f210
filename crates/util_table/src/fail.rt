//! Why a text is no table.

ghost use Rattle.std.specs.Prelude.{◌≡◌};

use std::alloc::{AllocError, AllocFailed};

/// Why a text gives no table.
#[derive(Debug, Drop, PartialEq, Eq, thiserror::Error)]
pub enum TableFail {
    /// The first line that is neither empty nor a row, from 1 on.
    #[error("BadTable")]
    BadTable { line: u32 },
    #[error("NoMemory")]
    NoMemory,
}

impl From<AllocError> for TableFail {
    ghost use Rattle.util_table.specs.declared.fail.TableFail.TheVariants.{NoMemory};

    ghost from_gives = { λ _ fail. fail ≡ NoMemory };

    fn from(_error: AllocError) -> TableFail {
        TableFail::NoMemory
    }
}

impl<T: Drop> From<AllocFailed<T>> for TableFail {
    ghost use Rattle.util_table.specs.declared.fail.TableFail.TheVariants.{NoMemory};

    ghost from_gives = { λ _ fail. fail ≡ NoMemory };

    fn from(_error: AllocFailed<T>) -> TableFail {
        TableFail::NoMemory
    }
}
