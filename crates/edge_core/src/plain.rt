//! A source and a sink in memory that never fail.

ghost use Rattle.std.specs.Prelude.{◌≡◌, ℕ, List, [], length, min, Some, IfOk};
ghost use Rattle.edge_core.specs.Plain.{PlainOutput, ReadsPlain, WritesPlain, told_bytes};

use crate::input::{Failed, Source};
use crate::kept::Kept;
use crate::output::Sink;
use crate::unread::Unread;
use std::alloc::{AllocError, Global};
use std::marker::Model;

/// A source over bytes in memory that never fails.
#[derive(Debug, Drop)]
pub struct PlainSource {
    unread: Unread,
}

// Clauses see the bytes left.
impl Model for PlainSource {
    ghost Value = { List ℕ };

    ghost view = { λ source. source.unread };
}

impl PlainSource {
    pub fn new(bytes: Vec<u8>) -> PlainSource
        ensures { result ≡ bytes.items }
    {
        PlainSource {
            unread: Unread::new(bytes),
        }
    }
}

impl Source for PlainSource {
    ghost left = { λ source. Some source };

    ghost faults = { λ _. 0 };

    ghost read_gives = { ReadsPlain };

    fn read(&mut self, buf: &mut [u8]) -> Result<usize, Failed> {
        Ok(self.unread.give(buf))
    }
}

/// A sink over memory that takes all bytes, counts them and keeps the first.
///
/// It never fails. Past the last value of a `u64` its count stands still.
#[derive(Debug, Drop)]
pub struct PlainSink {
    kept: Kept,
    written: u64,
}

impl Model for PlainSink {
    ghost Value = { PlainOutput };

    ghost view = { λ sink. record {
      bytes = sink.kept.bytes;
      room = sink.kept.room;
      written = sink.written;
    } };

    ghost invariant = { λ sink. length sink.kept.bytes ≡ min sink.written sink.kept.room };
}

impl PlainSink {
    /// A sink that keeps the first `room` bytes. All its memory is taken here.
    pub fn new(alloc: Global, room: usize) -> Result<PlainSink, AllocError>
        ensures { IfOk result (λ sink. sink ≡ record { bytes = []; room = room; written = 0 }) }
    {
        Ok(PlainSink {
            kept: Kept::new(alloc, room)?,
            written: 0,
        })
    }

    /// The bytes kept: all that were written, or the first of them.
    pub fn bytes(&self) -> &[u8]
        ensures { result.now ≡ self.now.bytes }
    {
        self.kept.as_slice()
    }

    /// How many bytes were written.
    pub fn written(&self) -> u64
        ensures { result ≡ self.now.written }
    {
        self.written
    }
}

impl Sink for PlainSink {
    ghost taken = { told_bytes };

    ghost faults = { λ _. 0 };

    ghost write_gives = { WritesPlain };

    fn write(&mut self, bytes: &[u8]) -> Result<usize, Failed> {
        self.kept.keep(bytes);
        self.written = self.written.saturating_add(bytes.len() as u64);
        Ok(bytes.len())
    }
}
