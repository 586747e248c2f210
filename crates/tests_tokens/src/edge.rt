//! Bytes are read and written whole, over memory and over std: a row is `kind | argument => answer`.

ghost use Rattle.std.specs.Prelude.{◌≡◌, IfOk, IsOk, IsErrOf};

use crate::told::Tested;
use base_core::Mem;
use edge_core::{
    MemorySink, MemorySource, PlainSink, PlainSource, ReadAll, Sink, Source, StdSink, StdSource,
    WriteFault, read_all, write_all,
};
use std::alloc::Global;
use std::io;
use std::io::{Cursor, Read, Write};
use std::test::Fail;

const TEXT: &[u8] = b"twenty bytes of text";

// `read`: the pieces, the call that fails, the limit, and the bytes or the fault. `again`: the bytes that a second
// read has, behind a fault. `write`: the pieces, the call that fails, the room, and the bytes that are taken, of
// which `all` are the whole text. `over`: what a source gives or a sink takes.
pub const ROWS: &str = "read | 3 0 20 => twenty bytes of text
read | 3 0 19 => TooLong
read | 100 0 0 => TooLong
read | 8 2 20 => ReadFault
read | 1 21 20 => ReadFault
read | 1 22 20 => twenty bytes of text
again | 8 2 20 => ytes of text
write | 8 2 100 => 8 twenty b
write | 8 4 100 => all twenty bytes of text
write | 100 2 100 => all twenty bytes of text
write | 8 0 20 => all twenty bytes of text
write | 8 0 10 => 10 twenty byt
write | 8 0 0 => 0 
over | a plain source => twenty bytes of text
over | a plain sink with room for six => 40 twenty
over | std, a copy => twenty bytes of text
over | std, a cursor => twenty bytes of text
over | std, a reader that fails => ReadFault
over | std, a writer that fails => 2 
over | std, a writer with room for six => 6 ";

fn number(word: Option<&str>) -> usize {
    word.unwrap_or("").parse::<usize>().unwrap_or(0)
}

/// The pieces, the call that fails, and the limit or the room.
fn numbers(text: &str) -> (usize, u64, usize) {
    let mut words = text.split(' ');
    (
        number(words.next()),
        number(words.next()) as u64,
        number(words.next()),
    )
}

/// The bytes that are read, or the fault.
fn received(alloc: Global, outcome: Result<Vec<u8>, ReadAll>) -> Mem<String> {
    match outcome {
        Ok(bytes) => format!(in alloc; "{}", str::from_utf8(&bytes).unwrap_or("no text")),
        Err(error) => format!(in alloc; "{error}"),
    }
}

/// What is read, by a second call where `again` is true.
pub fn read(alloc: Global, settings: &str, again: bool) -> Tested<String> {
    let (piece, failing, limit) = numbers(settings);
    if piece == 0 {
        return Err(Fail::new("a piece is empty"));
    }
    let fails = [failing].to_vec(alloc)?;
    let mut source = MemorySource::new(TEXT.to_vec(alloc)?, piece, fails);
    if again && read_all(alloc, &mut source, limit as u64).is_ok() {
        return Err(Fail::new("the first call has no fault"));
    }
    Ok(received(alloc, read_all(alloc, &mut source, limit as u64))?)
}

/// How many bytes are taken, and which.
fn taken(alloc: Global, outcome: Result<(), WriteFault>, bytes: &[u8]) -> Mem<String> {
    let bytes = str::from_utf8(bytes).unwrap_or("no text");
    match outcome {
        Ok(()) => format!(in alloc; "all {bytes}"),
        Err(WriteFault { sent }) => format!(in alloc; "{sent} {bytes}"),
    }
}

pub fn write(alloc: Global, settings: &str) -> Tested<String> {
    let (piece, failing, room) = numbers(settings);
    if piece == 0 {
        return Err(Fail::new("a piece is empty"));
    }
    let mut sink = MemorySink::new(alloc, piece, room, [failing].to_vec(alloc)?)?;
    let outcome = write_all(&mut sink, TEXT);
    Ok(taken(alloc, outcome, sink.bytes())?)
}

// Over a plain source there is no fault.
fn read_plain(alloc: Global, bytes: Vec<u8>) -> Result<Vec<u8>, ReadAll>
    ensures all { IfOk result (λ read. read.items ≡ bytes.items) }
    ensures no_fault { ¬ IsErrOf result ReadAll.ReadFault }
{
    read_all(alloc, &mut PlainSource::new(bytes), u64::MAX)
}

// Over a plain sink a write succeeds.
fn write_plain(sink: &mut PlainSink, bytes: &[u8]) -> Result<(), WriteFault>
    ensures { IsOk result }
{
    write_all(sink, bytes)
}

// What std tells of a slice and a vector is passed on.
fn copy_by_std(alloc: Global, from: &[u8]) -> Result<Vec<u8>, ReadAll>
    ensures { IfOk result (λ to. to.items ≡ from.now) }
{
    let bytes = read_all(alloc, &mut StdSource::new(from), u64::MAX)?;
    let mut sink = StdSink::new(Vec::new(alloc));
    match write_all(&mut sink, &bytes) {
        Ok(()) => Ok(sink.into_inner()),
        Err(_) => Err(ReadAll::NoMemory),
    }
}

// Reads and writes a byte at a time, and fails at the third call.
#[derive(Drop)]
struct Third {
    calls: u8,
}

impl Read for Third {
    fn read(&mut self, buf: &mut [u8]) -> io::Result<usize> {
        self.calls = self.calls.saturating_add(1);
        if self.calls == 3 || buf.is_empty() {
            return Err(io::Error::from(io::ErrorKind::Other));
        }
        buf[0] = b'x';
        Ok(1)
    }
}

impl Write for Third {
    fn write(&mut self, buf: &[u8]) -> io::Result<usize> {
        self.calls = self.calls.saturating_add(1);
        if self.calls == 3 || buf.is_empty() {
            return Err(io::Error::from(io::ErrorKind::Other));
        }
        Ok(1)
    }

    fn flush(&mut self) -> io::Result<()> {
        Ok(())
    }
}

/// What a plain sink has, which is filled past its room, and how many bytes were written.
fn filled(alloc: Global) -> Tested<String> {
    let mut sink = PlainSink::new(alloc, 6)?;
    write_plain(&mut sink, b"")?;
    write_plain(&mut sink, TEXT)?;
    write_plain(&mut sink, TEXT)?;
    let bytes = str::from_utf8(sink.bytes()).unwrap_or("no text");
    Ok(format!(in alloc; "{} {bytes}", sink.written())?)
}

/// What the source gives, or the sink takes.
pub fn over(alloc: Global, place: &str) -> Tested<String> {
    match place {
        "a plain source" => Ok(received(alloc, read_plain(alloc, TEXT.to_vec(alloc)?))?),
        "a plain sink with room for six" => filled(alloc),
        "std, a copy" => Ok(received(alloc, copy_by_std(alloc, TEXT))?),
        "std, a cursor" => {
            let mut cursor = StdSource::new(Cursor::new(TEXT));
            Ok(received(alloc, read_all(alloc, &mut cursor, 20))?)
        }
        "std, a reader that fails" => {
            Ok(received(
                alloc,
                read_all(alloc, &mut StdSource::new(Third { calls: 0 }), 20),
            )?)
        }
        "std, a writer that fails" => {
            Ok(taken(
                alloc,
                write_all(&mut StdSink::new(Third { calls: 0 }), TEXT),
                b"",
            )?)
        }
        // A writer with no room left takes no byte.
        _ => {
            let mut room = [0; 6];
            let mut full = StdSink::new(Cursor::new(&mut room[..]));
            Ok(taken(alloc, write_all(&mut full, TEXT), b"")?)
        }
    }
}
