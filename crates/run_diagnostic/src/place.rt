//! Places of an input as an editor shows them, and the lines that show them.

use base_core::{Mem, Text};
use run_parts::Parts;
use std::alloc::Global;
use tok_types::Span;

/// How many characters of a line are shown.
const SHOWN: usize = 120;

/// How many characters are shown before a place far to the right.
const BEFORE: usize = 60;

/// A place of a text.
#[derive(Clone, Copy)]
pub(crate) struct Place<'t> {
    /// How many lines stand before its line.
    pub line: usize,
    /// The line, without its line feed.
    pub text: &'t str,
    /// How many characters of the line stand before it.
    pub before: usize,
    /// How many characters of the line it covers.
    pub width: usize,
}

/// The place of the bytes from `start` to before `end`. One of more lines is cut at the end of the first.
pub(crate) fn place_of(text: &str, start: usize, end: usize) -> Place<'_> {
    let mut first = 0usize;
    let mut line = 0usize;
    for piece in text.split('\n') {
        let behind = first.saturating_add(piece.len());
        if start <= behind {
            return place_in(
                piece,
                line,
                start.saturating_sub(first),
                end.saturating_sub(first),
            );
        }
        first = behind.saturating_add(1);
        line = line.saturating_add(1);
    }
    place_in("", line, 0, 0)
}

/// The place of the bytes from `from` to before `to` of a line, before which so many stand.
fn place_in(text: &str, line: usize, from: usize, to: usize) -> Place<'_> {
    let to = to.min(text.len());
    Place {
        line,
        text,
        before: count(text.get(..from)),
        width: count(text.get(from..to)).max(1),
    }
}

/// How many characters the text has.
fn count(text: Option<&str>) -> usize {
    match text {
        Some(text) => text.chars().count(),
        None => 0,
    }
}

/// The text of a part, by its number from 1 on.
pub(crate) fn part_text<'t>(parts: &Parts<'t>, part: u32) -> &'t str {
    match part {
        1 => parts.declarations,
        2 => parts.subjects,
        _ => parts.table.unwrap_or(""),
    }
}

/// How many lines of the input stand before the part.
fn lines_before(parts: &Parts<'_>, part: u32) -> usize {
    let mut lines = 0usize;
    if part > 1 {
        lines = line_feeds(parts.declarations).saturating_add(1);
    }
    if part > 2 {
        lines = lines
            .saturating_add(line_feeds(parts.subjects))
            .saturating_add(1);
    }
    lines
}

fn line_feeds(text: &str) -> usize {
    text.split('\n').count().saturating_sub(1)
}

/// The bytes of a text from which a span is, and before which it ends.
pub(crate) fn bytes_of(span: Span) -> (usize, usize) {
    match span {
        Span::CallSite => (0, 0),
        Span::At { start, end, .. } => (start as usize, end as usize),
    }
}

/// The text at the span.
pub(crate) fn text_at(text: &str, span: Span) -> &str {
    let (start, end) = bytes_of(span);
    text.get(start..end).unwrap_or("")
}

/// Adds the lines that show the bytes from `start` to before `end` of a part.
pub(crate) fn push_place(
    alloc: Global,
    out: &mut Text,
    parts: &Parts<'_>,
    part: u32,
    bytes: (usize, usize),
) -> Mem<()> {
    let (start, end) = bytes;
    let place = place_of(part_text(parts, part), start, end);
    let line = place
        .line
        .saturating_add(lines_before(parts, part))
        .saturating_add(1);
    push_lines(alloc, out, part, line, &place)
}

/// Adds the lines of a place. `line` is that of the input.
pub(crate) fn push_lines(
    alloc: Global,
    out: &mut Text,
    part: u32,
    line: usize,
    place: &Place<'_>,
) -> Mem<()> {
    let column = place.before.saturating_add(1);
    let number = format!(in alloc; "{line}")?;
    let head = format!(in alloc; " --> part {part}, line {line}, column {column}\n")?;
    push_spaces(out, number.len())?;
    out.push_str(head.as_str())?;
    push_spaces(out, number.len())?;
    out.push_str(" |\n")?;
    out.push_str(number.as_str())?;
    out.push_str(" | ")?;
    let skipped = skipped(place.before);
    push_shown(out, place.text, skipped)?;
    push_spaces(out, number.len())?;
    out.push_str(" | ")?;
    push_spaces(out, place.before.saturating_sub(skipped))?;
    push_carets(out, place.width)?;
    out.push_str("\n")
}

/// How many characters at the front of a line aren't shown.
fn skipped(before: usize) -> usize {
    if before < SHOWN {
        return 0;
    }
    before.saturating_sub(BEFORE)
}

/// Adds a part of a line. A control character is shown as a space, so that the carets stand under their place.
fn push_shown(out: &mut Text, line: &str, skipped: usize) -> Mem<()> {
    let end = skipped.saturating_add(SHOWN);
    for (at, c) in line.chars().enumerate() {
        if at >= end {
            break;
        }
        if at >= skipped {
            out.push(if c.is_control() { ' ' } else { c })?;
        }
    }
    out.push_str("\n")
}

fn push_spaces(out: &mut Text, count: usize) -> Mem<()> {
    for _ in 0..count {
        out.push(' ')?;
    }
    Ok(())
}

fn push_carets(out: &mut Text, width: usize) -> Mem<()> {
    for _ in 0..width.min(BEFORE) {
        out.push('^')?;
    }
    Ok(())
}

/// Adds texts, one behind the other.
pub(crate) fn push_all(out: &mut Text, texts: &[&str]) -> Mem<()> {
    for text in texts {
        out.push_str(text)?;
    }
    Ok(())
}

/// Whether the character may be in a word.
fn is_letter(c: char) -> bool {
    c.is_alphanumeric() || c == '_'
}

/// The word that the text begins with.
pub(crate) fn first_word(text: &str) -> &str {
    let rest = text.trim_start_matches(is_letter);
    text.get(..text.len().saturating_sub(rest.len()))
        .unwrap_or("")
}

/// The word that the text ends with.
pub(crate) fn last_word(text: &str) -> &str {
    let front = text.trim_end_matches(is_letter);
    text.get(front.len()..).unwrap_or("")
}
