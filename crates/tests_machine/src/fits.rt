//! What stands against a program: a row `DECLARATIONS => REASON`, or `fits`. The mark `@` stands at the start of the place
//! that is refused, and `$` at that which is the first of the text; a program without a mark is refused nowhere.

use crate::programs::{any_program, by_hand, program_of};
use machine_fit::{fit, refusals};
use machine_forms::Unfit;
use machine_host::Host;
use node_core::{Span, Text};
use std::alloc::Global;
use tests_checks::Tested;

/// Why the program of the text is refused, in the order of answers or of the text.
pub fn unfit<H: Host>(alloc: Global, host: &H, kind: &str, marked: &str) -> Tested<Text> {
    let in_text = kind == "first in the text";
    let (mark, other) = if in_text { ('$', '@') } else { ('@', '$') };
    let (text, _) = unmarked(alloc, marked, other)?;
    let (text, place) = unmarked(alloc, text.as_str(), mark)?;
    let program = match kind {
        "fit by hand" => by_hand(alloc, text.as_str())?,
        "fit of any derive" => any_program(alloc, text.as_str())?,
        _ => program_of(alloc, text.as_str())?,
    };
    let found = if in_text {
        refusals(alloc, &program, host)?.first_in_text()
    } else {
        fit(alloc, &program, host).err()
    };
    let (reason, span) = shown(found.as_ref());
    let mut told = Text::from_str(alloc, reason)?;
    if !starts_at(span, place) {
        told.push_str(format!(in alloc; " at {span:?}")?.as_str())?;
    }
    Ok(told)
}

fn unmarked(alloc: Global, marked: &str, mark: char) -> Tested<(Text, Option<usize>)> {
    let mut text = Text::new(alloc);
    match marked.split_once(mark) {
        Some((before, behind)) => {
            text.push_str(before)?;
            text.push_str(behind)?;
            Ok((text, Some(before.len())))
        }
        None => {
            text.push_str(marked)?;
            Ok((text, None))
        }
    }
}

/// What is refused, and where.
fn shown(answer: Option<&Unfit>) -> (&'static str, Option<Span>) {
    match answer {
        None => ("fits", None),
        Some(Unfit::DuplicateName { span }) => ("duplicate name", Some(*span)),
        Some(Unfit::Unsupported { form, span }) => (form.words(), Some(*span)),
        Some(Unfit::UnknownType { span }) => ("unknown type", Some(*span)),
        Some(Unfit::UnknownCallable { span }) => ("unknown callable", Some(*span)),
        Some(Unfit::NoReceiver) => ("no receiver", None),
        Some(Unfit::NoMemory) => ("no memory", None),
    }
}

fn starts_at(span: Option<Span>, place: Option<usize>) -> bool {
    match (span, place) {
        (Some(Span::At { start, .. }), Some(place)) => start as usize == place,
        (None, None) => true,
        _ => false,
    }
}
