//! How a row `ARGUMENT => ANSWER` is asked: by its kind. `⟨3 x⟩` stands for `xxx`; in it `$` counts 1, 2, 3 and `^`
//! counts 0, 1, 2.

use crate::elements::element_outcome;
use crate::hosts::answer_of;
use crate::outer_places::taken;
use crate::outer_types::outer_text;
use crate::programs::{
    any_program, arm_at, by_hand, come_of, named_twice, outcome, program_of, units_of,
};
use crate::sources::{derives, repeated, without};
use crate::statements::of_last;
use crate::types::{beside, deeper, element, of_host, row_of_table, row_text};
use crate::variants::variant_outcome;
use machine_host::RefusingHost;
use machine_std::StdHost;
use node_core::{Span, Text};
use print_core::ToTokens;
use std::alloc::Global;
use std::test::Fail;
use tests_checks::{Tested, row_of, unwrapped};
use tok_core::to_text;

/// Asks each row of a table of one kind.
pub fn rows(alloc: Global, kind: &str, table: &str) -> Tested<()> {
    let table = unwrapped(alloc, table)?;
    for row in table.lines() {
        let (argument, wanted) = row_of(row);
        let told = told(alloc, kind, expanded(alloc, argument)?.as_str())?;
        if !told.is(expanded(alloc, wanted)?.as_str()) {
            return Err(Fail::new(format_args!("{kind}, {row}: {}", told.as_str())));
        }
    }
    Ok(())
}

fn told(alloc: Global, kind: &str, argument: &str) -> Tested<Text> {
    match kind {
        "row of the table" => row_of_table(alloc, argument),
        "row" => row_text(alloc, &[], argument),
        "row of the host" => of_host(alloc, argument),
        "row beside declarations" => row_text(alloc, beside(alloc)?.as_slice(), argument),
        "outer row" => outer_text(alloc, &[], argument),
        "outer row beside declarations" => outer_text(alloc, beside(alloc)?.as_slice(), argument),
        "types at a place" => taken(alloc, argument),
        "row in an option" => deeper(alloc, argument),
        "element" => element(alloc, argument),
        "derives" => derives(alloc, argument),
        "repeated derives" => repeated(alloc, argument),
        "without attributes" => without(alloc, argument),
        "compiled" => come_of(alloc, argument),
        "units" => units_of(alloc, argument),
        "statements" => of_last(alloc, &program_of(alloc, argument)?),
        "statements of any derive" => of_last(alloc, &any_program(alloc, argument)?),
        "statements by hand" => of_last(alloc, &by_hand(alloc, argument)?),
        "outcome" => outcome(alloc, argument),
        "variants" => variant_outcome(alloc, argument),
        "element of a derive" => element_outcome(alloc, argument),
        "arm" => arm_at(alloc, argument),
        "names" => named_twice(alloc, argument),
        _ => match kind.strip_prefix("refusing ") {
            Some(kind) => answer_of(alloc, &RefusingHost::new(alloc)?, kind, argument),
            None => answer_of(alloc, &StdHost::new(alloc)?, kind, argument),
        },
    }
}

/// The tokens of a node.
pub fn printed<T: ToTokens>(alloc: Global, node: &T) -> Tested<Text> {
    Ok(to_text(alloc, &node.to_token_stream(alloc)?)?)
}

/// The places, or how many they are.
pub fn places(alloc: Global, spans: &[Span]) -> Tested<Text> {
    let mut text = Text::new(alloc);
    if spans.len() > 100 {
        text.push_str(format!(in alloc; "{} places", spans.len())?.as_str())?;
        return Ok(text);
    }
    for span in spans {
        push_place(alloc, &mut text, "", *span)?;
    }
    if text.is_empty() {
        text.push_str("none")?;
    }
    Ok(text)
}

/// Adds a name and a place, behind a comma where one stands before.
pub fn push_place(alloc: Global, text: &mut Text, name: &str, span: Span) -> Tested<()> {
    let Span::At { start, end, .. } = span else {
        return Err(Fail::new(format_args!("{name} stands nowhere")));
    };
    if !text.is_empty() {
        text.push_str(", ")?;
    }
    text.push_str(format!(in alloc; "{name}{start}..{end}")?.as_str())?;
    Ok(())
}

/// The text with each `⟨COUNT TEXT⟩` so many times.
fn expanded(alloc: Global, text: &str) -> Tested<String> {
    let mut all = String::new(alloc);
    for piece in text.split('⟩') {
        let (front, repeated) = piece.split_once('⟨').unwrap_or((piece, ""));
        all.push_str(front)?;
        let (count, one) = repeated.split_once(' ').unwrap_or(("", ""));
        for number in 0..count.parse::<usize>().unwrap_or(0) {
            push_numbered(alloc, &mut all, one, number)?;
        }
    }
    Ok(all)
}

fn push_numbered(alloc: Global, text: &mut String, one: &str, number: usize) -> Tested<()> {
    for c in one.chars() {
        match c {
            '$' => text.push_str(format!(in alloc; "{}", number.saturating_add(1))?.as_str())?,
            '^' => text.push_str(format!(in alloc; "{number}")?.as_str())?,
            c => text.push(c)?,
        }
    }
    Ok(())
}
