//! Rows of tables, each a line of one text, and what their words stand for.

use error_core::{Items, Mem, Span, Text};
use std::alloc::Global;
use std::test::Fail;

pub type Tested<T> = Result<T, Fail>;

/// The first column of a row, and the others.
pub fn kind_of(row: &str) -> Tested<(&str, &str)> {
    match row.split_once(" | ") {
        Some(columns) => Ok(columns),
        None => Err(Fail::new(format_args!("{row} has one column"))),
    }
}

/// What stands before the arrow of a row, and behind it.
pub fn row_of(row: &str) -> Tested<(&str, &str)> {
    match row.split_once(" => ") {
        Some(sides) => Ok(sides),
        None => Err(Fail::new(format_args!("{row} has no arrow"))),
    }
}

/// The first word, and the others.
pub fn first_word(words: &str) -> (&str, &str) {
    words.split_once(' ').unwrap_or((words, ""))
}

/// The words as names.
pub fn names(alloc: Global, words: &str) -> Mem<Items<Text>> {
    let mut names = Items::new(alloc);
    for word in words.split(' ') {
        if !word.is_empty() {
            names.push(Text::from_str(alloc, word)?)?;
        }
    }
    Ok(names)
}

/// The number, or 0 where the word is none.
pub fn number(word: &str) -> u32 {
    word.parse::<u32>().unwrap_or(0)
}

pub fn place(start: u32, end: u32) -> Span {
    let source = 1;
    Span::At { source, start, end }
}

/// The place between two numbers, as in `4..8`; else the call site.
pub fn span_of(word: &str) -> Span {
    match word.split_once("..") {
        Some((start, end)) => place(number(start), number(end)),
        None => Span::CallSite,
    }
}

/// The place, as a row has it.
pub fn span_text(alloc: Global, span: Span) -> Mem<String> {
    match span {
        Span::At { start, end, .. } if span == place(start, end) => {
            format!(in alloc; "{start}..{end}")
        }
        Span::At { .. } => format!(in alloc; "elsewhere"),
        Span::CallSite => format!(in alloc; "call"),
    }
}
