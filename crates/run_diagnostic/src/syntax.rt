//! Texts that are no list of items.

ghost use Rattle.std.specs.Prelude.{◌≤◌, length};

use crate::place::{first_word, part_text, push_all, push_place};
use base_core::{Mem, Text};
use run_parts::Parts;
use std::alloc::{AllocError, Global};
use tok_core::{LexError, MAX_LEN, lex};

/// The delimiters that may be open, with what closes them.
const DELIMITERS: [(&str, &str); 3] = [("(", ")"), ("[", "]"), ("{", "}")];

/// Adds what is told of a part that has more than 128 delimiters open at the byte.
pub fn push_too_deep(
    alloc: Global,
    out: &mut Text,
    parts: &Parts<'_>,
    part: u32,
    at: u32,
) -> Mem<()> {
    let at = at as usize;
    out.push_str("error: more than 128 delimiters are open\n")?;
    push_place(alloc, out, parts, part, (at, at.saturating_add(1)))?;
    out.push_str("  = help: an input has at most 128 groups inside each other\n")
}

/// Adds what is told of a part that is no list of items from the byte on.
pub fn push_syntax(
    alloc: Global,
    out: &mut Text,
    parts: &Parts<'_>,
    part: u32,
    at: u32,
) -> Mem<()> {
    let text = part_text(parts, part);
    if text.len() > MAX_LEN {
        return Ok(());
    }
    match lex(alloc, 0, text) {
        Ok(_) => push_no_item(alloc, out, parts, part, at as usize),
        Err(LexError::NoMemory) => Err(AllocError),
        Err(_) => push_no_tokens(alloc, out, parts, part, at as usize),
    }
}

/// Adds what is told of tokens that are no items from the byte on.
fn push_no_item(alloc: Global, out: &mut Text, parts: &Parts<'_>, part: u32, at: usize) -> Mem<()> {
    out.push_str("error: no whole item begins here\n")?;
    let rest = part_text(parts, part).get(at..).unwrap_or("");
    let end = at.saturating_add(first_word(rest).len());
    push_place(alloc, out, parts, part, (at, end))?;
    out.push_str(
        "  = help: an item is a struct, an enum or a union, with its attributes and its visibility before it\n",
    )
}

/// Adds what is told of a text that is no tokens from the byte on.
fn push_no_tokens(
    alloc: Global,
    out: &mut Text,
    parts: &Parts<'_>,
    part: u32,
    at: usize,
) -> Mem<()> {
    let text = part_text(parts, part);
    let front = text.get(..at).unwrap_or("");
    let rest = text.get(at..).unwrap_or("");
    push_title(out, rest)?;
    push_place(alloc, out, parts, part, (at, at.saturating_add(1)))?;
    if !rest.is_empty() && !begins_closing(rest) {
        return out.push_str(
            "  = help: a text, a character or a comment that begins here is not closed, or has an escape that is none\n",
        );
    }
    match open_in(alloc, front)? {
        Some((open, close)) => push_all(
            out,
            &[
                "  = help: a `",
                open,
                "` is open here, which `",
                close,
                "` closes\n",
            ],
        ),
        None => out.push_str("  = help: no delimiter is open here\n"),
    }
}

fn push_title(out: &mut Text, rest: &str) -> Mem<()> {
    match rest.chars().next() {
        None => out.push_str("error: the part ends too early\n"),
        Some(c) => {
            out.push_str("error: no token begins with `")?;
            out.push(c)?;
            out.push_str("` here\n")
        }
    }
}

fn begins_closing(rest: &str) -> bool {
    rest.starts_with(')') || rest.starts_with(']') || rest.starts_with('}')
}

/// The innermost delimiter that is open at the end of a text, and what closes it: the one behind which the text goes on.
fn open_in(alloc: Global, front: &str) -> Mem<Option<(&'static str, &'static str)>> {
    if front.len() >= MAX_LEN {
        return Ok(None);
    }
    if is_read(alloc, front, "")? {
        return Ok(None);
    }
    for (open, close) in DELIMITERS {
        if is_read(alloc, front, close)? {
            return Ok(Some((open, close)));
        }
    }
    Ok(None)
}

/// Whether the text is read up to its end with this behind it.
fn is_read(alloc: Global, front: &str, close: &str) -> Mem<bool> {
    let mut text = Text::from_str(alloc, front)?;
    text.push_str(close)?;
    if text.len() > MAX_LEN {
        return Ok(false);
    }
    match lex(alloc, 0, text.as_str()) {
        Ok(_) => Ok(true),
        Err(LexError::Syntax { at }) => Ok(!close.is_empty() && at as usize >= text.len()),
        Err(LexError::TooDeep { .. }) => Ok(false),
        Err(LexError::NoMemory) => Err(AllocError),
    }
}
