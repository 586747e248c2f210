//! Runs of the tool over sources and sinks in memory, and how a row is run.

use darling_run::{StdHost, run_tool};
use edge_core::{MemorySink, MemorySource};
use std::alloc::Global;
use std::test::Fail;
use tests_checks::{Tested, kind_of, row_of, unwrapped};

// What the source gives in one read, and what the sink takes in one write and in all.
const GIVEN: usize = 65_536;

const TAKEN: usize = 8;

const KEPT: usize = 4096;

// What a row wants where nothing is written: there is no item, or no memory.
const NOTHING: &str = "nothing";

const NO_MEMORY: &str = "out of memory";

/// The program's number and what is written, where the tool runs on `bytes` and the read and the
/// write of these numbers fail.
fn end_of(
    alloc: Global,
    words: &str,
    bytes: Vec<u8>,
    failing_read: u64,
    failing_write: u64,
) -> Tested<(u8, Vec<u8>)> {
    let mut all = Vec::new(alloc);
    for word in words.split(' ') {
        all.push(word.to_string(alloc)?)?;
    }
    let reads = Vec::from_slice(alloc, &[failing_read])?;
    let writes = Vec::from_slice(alloc, &[failing_write])?;
    let mut source = MemorySource::new(bytes, GIVEN, reads);
    let mut sink = MemorySink::new(alloc, TAKEN, KEPT, writes)?;
    let host = StdHost::new(alloc)?;
    let ended = run_tool(alloc, all.as_slice(), &mut source, &mut sink, &host);
    let text = Vec::from_slice(alloc, sink.bytes())?;
    Ok((ended.status.exit_code(), text))
}

/// Whether a run on the input ends with the number and the text.
pub fn must_end(alloc: Global, input: &str, number: u8, text: &str) -> Tested<()> {
    let bytes = Vec::from_slice(alloc, input.as_bytes())?;
    ends(end_of(alloc, "run", bytes, 0, 0)?, input, number, text)
}

fn ends(end: (u8, Vec<u8>), row: &str, number: u8, text: &str) -> Tested<()> {
    let (code, written) = end;
    if code == number && written.as_slice() == text.as_bytes() {
        return Ok(());
    }
    let written = str::from_utf8(written.as_slice()).unwrap_or("no text");
    Err(Fail::new(format_args!("{row} ends with {code}: {written}")))
}

/// Runs the tool on each row.
pub fn rows(alloc: Global, tables: &[&str]) -> Tested<()> {
    for table in tables {
        let table = unwrapped(alloc, table)?;
        for row in table.lines() {
            let (given, wanted) = row_of(row);
            let input = input_of(alloc, given)?;
            let text = report_of(alloc, wanted)?;
            must_end(alloc, input.as_str(), number_of(wanted), text.as_str())?;
        }
    }
    Ok(())
}

/// The program's number where the tool ends so.
fn number_of(wanted: &str) -> u8 {
    if wanted.starts_with("refused") {
        3
    } else if wanted == NO_MEMORY {
        6
    } else {
        0
    }
}

/// The input of a row: fields of a receiver and items, or all of its lines.
fn input_of(alloc: Global, given: &str) -> Tested<String> {
    let mut input = String::new(alloc);
    let mut rest = given;
    if let Some((fields, items)) = given.split_once(" | ") {
        input.push_str("#[derive(FromDeriveInput)]\n#[darling(attributes(my))]\nstruct Opts { ")?;
        input.push_str(fields)?;
        input.push_str(" }\n%%\n")?;
        rest = items;
    }
    push_lines(alloc, &mut input, rest)?;
    input.push('\n')?;
    Ok(input)
}

/// The report of a row. A line of a fault begins with two spaces.
fn report_of(alloc: Global, wanted: &str) -> Tested<String> {
    let mut report = String::new(alloc);
    if wanted == NOTHING || wanted == NO_MEMORY {
        return Ok(report);
    }
    for line in wanted.split(" / ") {
        if !is_first(line) {
            report.push_str("  ")?;
        }
        push_lines(alloc, &mut report, line)?;
        report.push('\n')?;
    }
    Ok(report)
}

/// Whether the line is the first of an item, or of a refusal.
fn is_first(line: &str) -> bool {
    line.starts_with("ok ") || line.starts_with("err ") || line.starts_with("refused: ")
}

/// A text of a row, as [`push_lines`] adds it.
pub fn lines_of(alloc: Global, text: &str) -> Tested<String> {
    let mut lines = String::new(alloc);
    push_lines(alloc, &mut lines, text)?;
    Ok(lines)
}

/// Adds a text, with a line feed for each ` / `, and each `⟨COUNT TEXT⟩` so many times.
fn push_lines(alloc: Global, lines: &mut String, text: &str) -> Tested<()> {
    for (at, line) in text.split(" / ").enumerate() {
        if at > 0 {
            lines.push('\n')?;
        }
        for piece in line.split('⟩') {
            let (front, repeated) = piece.split_once('⟨').unwrap_or((piece, ""));
            lines.push_str(front)?;
            let (count, one) = repeated.split_once(' ').unwrap_or(("", ""));
            push_repeated(alloc, lines, count.parse::<usize>().unwrap_or(0), one)?;
        }
    }
    Ok(())
}

/// Adds the text so many times. `$` counts from 1, `^` from 0, and `~` down to 1.
fn push_repeated(alloc: Global, text: &mut String, count: usize, one: &str) -> Tested<()> {
    for number in 0..count {
        for c in one.chars() {
            match c {
                '$' => push_number(alloc, text, number.saturating_add(1))?,
                '^' => push_number(alloc, text, number)?,
                '~' => push_number(alloc, text, count.saturating_sub(number))?,
                c => text.push(c)?,
            }
        }
    }
    Ok(())
}

fn push_number(alloc: Global, text: &mut String, number: usize) -> Tested<()> {
    text.push_str(format!(in alloc; "{number}")?.as_str())?;
    Ok(())
}

/// Whether the tool ends so in a row `WORDS | FAULT | INPUT => NUMBER | TEXT`: the second read or the second write
/// fails, a byte that is no text stands behind the input, or 16,777,217 spaces stand in its place.
pub fn ends_so(alloc: Global, row: &str) -> Tested<()> {
    let (given, wanted) = row_of(row);
    let (words, given) = kind_of(given)?;
    let (fault, given) = kind_of(given)?;
    let (number, wanted) = kind_of(wanted)?;
    let input = lines_of(alloc, given)?;
    let mut bytes = match fault {
        "spaces" => Vec::from_elem(alloc, b' ', 16_777_217)?,
        _ => input.into_bytes(),
    };
    let (read, write) = match fault {
        "read" => (2, 0),
        "write" => (0, 2),
        _ => (0, 0),
    };
    if fault == "byte" {
        bytes.push(0xFF)?;
    }
    let text = lines_of(alloc, wanted)?;
    let end = end_of(alloc, words, bytes, read, write)?;
    ends(end, row, number.parse::<u8>().unwrap_or(0), text.as_str())
}
