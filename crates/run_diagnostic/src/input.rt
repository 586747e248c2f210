//! Inputs that are no parts: bytes that are no text, dividers, rows of the table.

use crate::place::{place_of, push_all, push_place};
use base_core::{Mem, Text};
use run_parts::Parts;
use std::alloc::Global;

/// Adds what is told of bytes that are not UTF-8 from `at` on.
pub fn push_not_text(alloc: Global, out: &mut Text, input: &[u8], at: usize) -> Mem<()> {
    let front = input.get(..at).unwrap_or(&[]);
    let byte = input.get(at).copied().unwrap_or(0);
    let head = format!(in alloc; "error: the byte {byte:#04x} begins no character of UTF-8\n")?;
    out.push_str(head.as_str())?;
    let text = str::from_utf8(front).unwrap_or("");
    let place = place_of(text, text.len(), text.len());
    let line = place.line.saturating_add(1);
    let column = place.before.saturating_add(1);
    let place = format!(in alloc; "  --> line {line}, column {column}\n")?;
    push_all(
        out,
        &[place.as_str(), "  = help: save the input as UTF-8\n"],
    )
}

/// Adds what is told of a text whose dividers are none, or more than two.
pub fn push_no_parts(alloc: Global, out: &mut Text, text: &str) -> Mem<()> {
    let mut dividers = 0usize;
    let mut near = 0usize;
    let mut number = 0usize;
    for line in text.split('\n') {
        number = number.saturating_add(1);
        if line == "%%" {
            dividers = dividers.saturating_add(1);
        } else if line.trim() == "%%" && near == 0 {
            near = number;
        }
    }
    let head = format!(in alloc; "error: {dividers} lines are `%%`\n")?;
    out.push_str(head.as_str())?;
    if dividers == 0 && near > 0 {
        let help = format!(in alloc;
            "  = help: line {near} has more than `%%`: a divider has no space and no carriage return\n"
        )?;
        return out.push_str(help.as_str());
    }
    out.push_str(
        "  = help: one line `%%` stands between the declarations and the items; a second may stand before the table of names\n",
    )
}

/// Adds what is told of a line of the table, counted from 1, that is no row.
pub fn push_bad_row(alloc: Global, out: &mut Text, parts: &Parts<'_>, line: u32) -> Mem<()> {
    out.push_str("error: the line is no row of the table\n")?;
    let table = parts.table.unwrap_or("");
    let (start, end) = line_bytes(table, line as usize);
    push_place(alloc, out, parts, 3, (start, end))?;
    out.push_str(
        "  = help: a row is a rule, `field` or `variant`, an identifier and its name, with one space between: `PascalCase field one_two OneTwo`\n",
    )
}

/// The bytes of a line, which is counted from 1.
fn line_bytes(text: &str, number: usize) -> (usize, usize) {
    let mut start = 0usize;
    let mut line = 0usize;
    for piece in text.split('\n') {
        line = line.saturating_add(1);
        let end = start.saturating_add(piece.len());
        if line == number {
            return (start, end);
        }
        start = end.saturating_add(1);
    }
    (start, start)
}
