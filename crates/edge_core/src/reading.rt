//! Reads all of a source, up to a limit.

ghost use Rattle.std.specs.Prelude.{◌≡◌, ◌+◌, ◌<◌, ◌≤◌, [], length, Some, IfOk, IfSome, OnOk, IsErrOf, IsSome};
ghost use Rattle.edge_core.specs.Faults.{HasRisen};
ghost use Rattle.edge_core.specs.ReadAll.{Answers};
ghost use Rattle.edge_core.specs.Source.{LeavesEnd, SomeReads};

use crate::input::{Failed, Source};
use std::alloc::{AllocError, Global};
use thiserror::Error;

/// Why not all bytes of a source were read. Its text is the variant's name.
#[derive(Debug, Drop, Error)]
pub enum ReadAll {
    /// A read failed.
    #[error("ReadFault")]
    ReadFault,
    /// The source gave more bytes than the limit.
    #[error("TooLong")]
    TooLong,
    /// Memory ran out.
    #[error("NoMemory")]
    NoMemory,
}

impl From<AllocError> for ReadAll {
    ghost use Rattle.edge_core.specs.declared.reading.ReadAll.TheVariants.{NoMemory};

    ghost from_gives = { λ _ error. error ≡ NoMemory };

    fn from(_error: AllocError) -> ReadAll {
        ReadAll::NoMemory
    }
}

// How many bytes one read has room for.
const ROOM: usize = 4096;

/// Reads all bytes up to the end of the source, if they are at most `limit`.
///
/// After an error the bytes that were read are lost. The source can be read on after them.
pub fn read_all<S: Source>(alloc: Global, source: &mut S, limit: u64) -> Result<Vec<u8>, ReadAll>
    // The bytes, where the source tells them.
    ensures all { IfOk result (λ bytes. IfSome (S.left source.old) (λ left. bytes.items ≡ left)) }
    ensures nothing_left { OnOk result (IsSome (S.left source.old) → S.left source.new ≡ Some []) }
    ensures left { LeavesEnd (S.left source.old) (S.left source.new) }
    ensures too_long { IsErrOf result ReadAll.TooLong →
        IfSome (S.left source.old) (λ left. limit < length left) }

    // The reads, of any source: at most one more than the limit. `TooLong` comes exactly where
    // they gave more bytes than that.
    ensures within { IfOk result (λ bytes. length bytes.items ≤ limit) }
    ensures reads { SomeReads S.read_gives source.old source.new (limit + 1)
        (λ given. Answers given limit result) }

    // The faults.
    ensures fault { IsErrOf result ReadAll.ReadFault →
        HasRisen (S.faults source.old) (S.faults source.new) }
    ensures never_falls { S.faults source.old ≤ S.faults source.new }
{
    let mut bytes = Vec::new(alloc);
    let mut buf = [0; ROOM];
    loop {
        let count = match source.read(&mut buf) {
            Ok(0) => return Ok(bytes),
            Ok(count) => count,
            Err(Failed) => return Err(ReadAll::ReadFault),
        };
        if count as u64 > limit - bytes.len() as u64 {
            return Err(ReadAll::TooLong);
        }
        bytes.extend_from_slice(&buf[..count])?;
    }
}
