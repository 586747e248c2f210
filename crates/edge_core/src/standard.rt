//! Sources and sinks over the readers and writers of std.

ghost use Rattle.std.specs.Prelude.{◌≡◌, ◌^◌, ◌<◌, false};

use crate::faults::count_fault;
use crate::input::{Failed, Source};
use crate::output::Sink;
use std::io::{Read, Write};

/// A source over a reader of std.
///
/// It tells what the reader tells: the bytes left of a slice, a `Cursor` or a queue, and nothing
/// of a file or a terminal. Each error of the reader is a fault, an interruption too.
#[derive(Drop)]
pub struct StdSource<R> {
    reader: R,
    faults: u64,
    ghost in_range: { faults < 2 ^ 64 },
}

impl<R> StdSource<R> {
    ghost use Rattle.edge_core.specs.Standard.{inner_reader, read_faults};

    pub fn new(reader: R) -> StdSource<R>
        ensures reader { inner_reader result ≡ reader }
        ensures no_faults { read_faults result ≡ 0 }
    {
        StdSource { reader, faults: 0 }
    }

    pub fn into_inner(self) -> R
        ensures { result ≡ inner_reader self }
    {
        self.reader
    }
}

impl<R: Read> Source for StdSource<R> {
    ghost left = { λ source. R.remaining source.reader };

    ghost faults = { λ source. source.faults };

    fn read(&mut self, buf: &mut [u8]) -> Result<usize, Failed> {
        match self.reader.read(buf) {
            Ok(count) => Ok(count),
            Err(_) => Err(count_fault(&mut self.faults)),
        }
    }
}

/// A sink over a writer of std.
///
/// It tells what the writer tells: the bytes in a `Vec`, and nothing of a file or a terminal. Each
/// error of the writer is a fault, and so is a write that takes no byte. It never flushes.
#[derive(Drop)]
pub struct StdSink<W> {
    writer: W,
    faults: u64,
    ghost in_range: { faults < 2 ^ 64 },
}

impl<W> StdSink<W> {
    ghost use Rattle.edge_core.specs.Standard.{inner_writer, write_faults};

    pub fn new(writer: W) -> StdSink<W>
        ensures writer { inner_writer result ≡ writer }
        ensures no_faults { write_faults result ≡ 0 }
    {
        StdSink { writer, faults: 0 }
    }

    pub fn into_inner(self) -> W
        ensures { result ≡ inner_writer self }
    {
        self.writer
    }
}

impl<W: Write> Sink for StdSink<W> {
    ghost taken = { λ sink. W.contents sink.writer };

    // A writer that tells goes on telling.
    ghost may_fall_silent = { false };

    ghost faults = { λ sink. sink.faults };

    fn write(&mut self, bytes: &[u8]) -> Result<usize, Failed> {
        match self.writer.write(bytes) {
            Ok(count) if count > 0 => Ok(count),
            _ => Err(count_fault(&mut self.faults)),
        }
    }
}
