//! What is told of a text, by the kind of its row: `kind | text => answer`, or `text => answer` where a table has
//! one kind. A character may stand in a row by its number, as in `‹A›`, and a text so many times, as in `‹128*[›`.

use crate::{edge, lex, lit, names, scan, values};
use base_core::Text;
use std::alloc::Global;
use std::test::Fail;
use tok_core::quoted;

pub type Tested<T> = Result<T, Fail>;

fn push_spelled(text: &mut Text, word: &str) -> Tested<()> {
    if let Some((times, part)) = word.split_once('*') {
        for _time in 0..times.parse::<u16>().unwrap_or(0) {
            text.push_str(part)?;
        }
        return Ok(());
    }
    match u32::from_str_radix(word, 16).ok().and_then(char::from_u32) {
        Some(character) => Ok(text.push(character)?),
        None => Err(Fail::new(format_args!("{word} is the number of no character"))),
    }
}

/// The row with what stands in it by numbers.
fn spelled(alloc: Global, row: &str) -> Tested<Text> {
    let mut text = Text::new(alloc);
    for part in row.split('‹') {
        match part.split_once('›') {
            Some((word, behind)) => {
                push_spelled(&mut text, word)?;
                text.push_str(behind)?;
            }
            None => text.push_str(part)?,
        }
    }
    Ok(text)
}

fn told(alloc: Global, kind: &str, text: &str) -> Tested<String> {
    match kind {
        "lex" => Ok(lex::lexed(alloc, text)?),
        "print" => lex::printed(alloc, &lex::tokens(alloc, text)?),
        "quote" => Ok(quoted(alloc, text)?.into_string()?),
        "comment" => Ok(lex::comment(alloc, &lex::tokens(alloc, text)?)?),
        "literal" => lit::value(alloc, text),
        "piece" | "raw" | "text" => Ok(scan::found(alloc, kind, text)?),
        "ident" => names::ident(alloc, text),
        "fault" => names::fault(alloc, text),
        "fact" => Ok(format!(in alloc; "{}", values::holds(alloc, text)?)?),
        "read" | "again" => edge::read(alloc, text, kind == "again"),
        "write" => edge::write(alloc, text),
        "over" => edge::over(alloc, text),
        _ => Err(Fail::new(format_args!("{kind} is no kind"))),
    }
}

/// Each row is answered so. Where no kind is given, each has its own.
fn hold(alloc: Global, kind: &str, rows: &str) -> Tested<()> {
    for row in rows.lines() {
        let row = spelled(alloc, row)?;
        let (text, answer) = row.as_str().split_once(" => ").unwrap_or(("", ""));
        let (kind, text) = match kind {
            "" => text.split_once(" | ").unwrap_or((text, "")),
            _ => (kind, text),
        };
        let found = told(alloc, kind, text)?;
        if found.as_str() != answer {
            return Err(Fail::new(format_args!("{} is {found}", row.as_str())));
        }
    }
    Ok(())
}

#[test]
fn rows_are_answered(rt: HostRuntime) -> Tested<()> {
    let alloc = rt.alloc();
    hold(alloc, "", lex::ROWS)?;
    hold(alloc, "literal", lit::ROWS)?;
    hold(alloc, "", scan::ROWS)?;
    hold(alloc, "ident", names::IDENTS)?;
    hold(alloc, "fault", names::FAULTS)?;
    hold(alloc, "fact", values::ROWS)?;
    hold(alloc, "", edge::ROWS)
}
