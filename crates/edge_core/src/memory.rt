//! A source and a sink in memory whose pieces and faults are set.

ghost use Rattle.std.specs.Prelude.{◌≡◌, ◌<◌, [], Some, IfOk};
ghost use Rattle.edge_core.specs.Memory.{MemoryInput, MemoryOutput, ReadsMemory, WritesMemory};

use crate::faults::count_fault;
use crate::input::{Failed, Source};
use crate::kept::Kept;
use crate::output::Sink;
use crate::unread::Unread;
use std::alloc::{AllocError, Global};
use std::marker::Model;

/// A source over bytes in memory that gives them in pieces and fails at chosen calls.
///
/// The calls are numbered from 1. Past the last value of a `u64` each call has that number.
#[derive(Debug, Drop)]
pub struct MemorySource {
    unread: Unread,
    piece: usize,
    fails: Vec<u64>,
    calls: u64,
    faults: u64,
}

impl Model for MemorySource {
    ghost Value = { MemoryInput };

    ghost view = { λ source. record {
      left = source.unread;
      piece = source.piece;
      fails = source.fails.items;
      calls = source.calls;
      faults = source.faults;
    } };

    ghost invariant = { λ source. 0 < source.piece };
}

impl MemorySource {
    /// A source that gives at most `piece` bytes for a call, and fails at the calls whose numbers
    /// are in `fails`.
    pub fn new(bytes: Vec<u8>, piece: usize, fails: Vec<u64>) -> MemorySource
        requires { 0 < piece }
        ensures { result ≡ record {
          left = bytes.items;
          piece = piece;
          fails = fails.items;
          calls = 0;
          faults = 0;
        } }
    {
        MemorySource {
            unread: Unread::new(bytes),
            piece,
            fails,
            calls: 0,
            faults: 0,
        }
    }
}

impl Source for MemorySource {
    ghost left = { λ source. Some source.left };

    ghost faults = { λ source. source.faults };

    ghost read_gives = { ReadsMemory };

    fn read(&mut self, buf: &mut [u8]) -> Result<usize, Failed> {
        self.calls = self.calls.saturating_add(1);
        if self.fails.contains(&self.calls) {
            return Err(count_fault(&mut self.faults));
        }
        let most = buf.len().min(self.piece);
        Ok(self.unread.give(&mut buf[..most]))
    }
}

/// A sink over memory that takes bytes in pieces and fails at chosen calls, and where it is full.
///
/// The calls are numbered from 1. Past the last value of a `u64` each call has that number.
#[derive(Debug, Drop)]
pub struct MemorySink {
    kept: Kept,
    piece: usize,
    fails: Vec<u64>,
    calls: u64,
    faults: u64,
}

impl Model for MemorySink {
    ghost Value = { MemoryOutput };

    ghost view = { λ sink. record {
      bytes = sink.kept.bytes;
      piece = sink.piece;
      room = sink.kept.room;
      fails = sink.fails.items;
      calls = sink.calls;
      faults = sink.faults;
    } };

    ghost invariant = { λ sink. 0 < sink.piece };
}

impl MemorySink {
    /// A sink that takes at most `piece` bytes for a call and at most `room` in all, and fails at
    /// the calls whose numbers are in `fails`. All its memory is taken here.
    pub fn new(
        alloc: Global,
        piece: usize,
        room: usize,
        fails: Vec<u64>,
    ) -> Result<MemorySink, AllocError>
        requires { 0 < piece }
        ensures { IfOk result (λ sink. sink ≡ record {
          bytes = [];
          piece = piece;
          room = room;
          fails = fails.items;
          calls = 0;
          faults = 0;
        }) }
    {
        Ok(MemorySink {
            kept: Kept::new(alloc, room)?,
            piece,
            fails,
            calls: 0,
            faults: 0,
        })
    }

    /// The bytes taken so far.
    pub fn bytes(&self) -> &[u8]
        ensures { result.now ≡ self.now.bytes }
    {
        self.kept.as_slice()
    }
}

impl Sink for MemorySink {
    ghost taken = { λ sink. Some sink.bytes };

    ghost faults = { λ sink. sink.faults };

    ghost write_gives = { WritesMemory };

    fn write(&mut self, bytes: &[u8]) -> Result<usize, Failed> {
        self.calls = self.calls.saturating_add(1);
        if self.kept.is_full() || self.fails.contains(&self.calls) {
            return Err(count_fault(&mut self.faults));
        }
        let most = bytes.len().min(self.piece);
        Ok(self.kept.keep(&bytes[..most]))
    }
}
