//! Bytes that are kept up to a limit.

ghost use Rattle.std.specs.Prelude.{◌≡◌, ◌-◌, ◌^◌, ◌<◌, ◌≤◌, ◌↔◌, [], ◌++◌, take, length, min, vec_capacity, IfOk, IsTrue};
ghost use Rattle.edge_core.specs.Kept.{KeptBytes};

use std::alloc::{AllocError, Global};
use std::marker::Model;

/// Bytes in memory, and room for more that was taken when it was made.
#[derive(Debug, Drop)]
pub(crate) struct Kept {
    bytes: Vec<u8>,
    room: usize,
}

impl Model for Kept {
    ghost Value = { KeptBytes };

    ghost view = { λ kept. record { bytes = kept.bytes.items; room = kept.room } };

    ghost invariant = { λ kept.
        (length kept.bytes.items ≤ kept.room) × (kept.room ≤ vec_capacity kept.bytes) };
}

impl Kept {
    pub(crate) fn new(alloc: Global, room: usize) -> Result<Kept, AllocError>
        ensures { IfOk result (λ kept. kept ≡ record { bytes = []; room = room }) }
    {
        let bytes = Vec::with_capacity(alloc, room)?;
        Ok(Kept { bytes, room })
    }

    pub(crate) fn as_slice(&self) -> &[u8]
        ensures { result.now ≡ self.now.bytes }
    {
        self.bytes.as_slice()
    }

    pub(crate) fn is_full(&self) -> bool
        ensures full { IsTrue result ↔ (self.now.room ≤ length self.now.bytes) }
    {
        self.bytes.len() == self.room
    }

    /// Keeps as many bytes from the front of `bytes` as there is room for, and says how many.
    pub(crate) fn keep(&mut self, bytes: &[u8]) -> usize
        ensures count { result ≡ min (length bytes.now) (self.old.room - length self.old.bytes) }
        ensures kept { self.new.bytes ≡ self.old.bytes ++ take result bytes.now }
        ensures same_room { self.new.room ≡ self.old.room }
        ensures small_room { self.new.room < 2 ^ 63 }
    {
        let count = bytes.len().min(self.room - self.bytes.len());
        self.bytes.extend_from_slice(&bytes[..count]).unwrap();
        count
    }
}
