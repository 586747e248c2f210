//! Errors are made, gathered, moved, flattened and told: a row is `kind | commands => answer`.

use crate::made::{made, two_of_syntax};
use crate::rows::{Tested, kind_of, row_of, span_text};
use crate::{carried, faults};
use error_core::{Error, Mem, Span, Text, into_compile_error};
use node_core::TokenStream;
use node_span::Spanned;
use std::alloc::Global;
use std::test::Fail;
use tok_core::lex;

// Commands that make an error, with what is told of it: `shows` is its text, `debug` what `{:?}` writes of a `Fail`
// that holds it, `stands` its own place and its text, `place` its own place and the place that it has in the end,
// `length` the number of its faults, `bytes` of its text, `first` the faults of its first child, `children` their
// texts, `inside` their places and texts. `syn` has the faults as syntax tells them, `compiled` the tokens that tell
// the compiler and where they stand, `trees` their number. `syntax` is `compiled` of two errors of syntax.
const ROWS: &str = r#"shows | custom no value => no value
shows | duplicate hello => Duplicate field `hello`
shows | missing hell_no => Missing field `hell_no`
shows | shape enum => Unsupported shape `enum`
shows | shape_with enum a unit struct => Unsupported shape `enum`. Expected a unit struct.
shows | format list => Unexpected meta-item format `list`
shows | type int => Unexpected type `int`
shows | value quick => Unknown value: `quick`
shows | few 2 => Too few items: Expected at least 2
shows | many 1 => Too many items: Expected no more than 1
shows | path duplicate => Duplicate field `a::b`
shows | path unknown => Unknown field: `a::b`
shows | path unknown_with => Unknown field: `a::b`. Available values: `c`
shows | missing z; path at => Missing field `z` at a::b
stands | missing z; path span => 3..9 Missing field `z`
stands | literal type => 4..8 Unexpected type `bool`
stands | literal expression => 4..8 Unexpected type `lit`
stands | literal value => 4..8 Unknown value: `quick`
shows | missing z; at x; at y => Missing field `z` at y/x
shows | custom a; at x; custom b; gather 2; at y; at z => Multiple errors: (a at x, b) at z/y
place | custom a => none call
place | custom a; span 1..2; span 3..4 => 1..2 1..2
place | custom a; span 1..2; custom b; gather 2 => none call
syn | custom a; span 1..2; span 3..4; custom b; gather 2; span 5..6 => 1..2 a; call b
shows | unknown_with k => Unknown field: `k`
shows | unknown_with k j => Unknown field: `k`. Available values: `j`
shows | unknown_with k j i => Unknown field: `k`. Available values: `i`, `j`
shows | unknown_with k j i h g f e d c b => Unknown field: `k`. Available values: `b`, `c`, `d`, `e`, `f`, `g`, `h`, `i`, `j`
shows | unknown_with k j i h g f e d c b a => Unknown field: `k`
shows | value_with k => Unknown value: `k`
shows | value_with k j => Unknown value: `k`. Available values: `j`
shows | value_with k j i => Unknown value: `k`. Available values: `i`, `j`
shows | value_with k j i h g f e d c b => Unknown value: `k`. Available values: `b`, `c`, `d`, `e`, `f`, `g`, `h`, `i`, `j`
shows | value_with k j i h g f e d c b a => Unknown value: `k`
shows | unknown k; widen => Unknown field: `k`. Available values: `a`, `b`
shows | unknown_with k c; widen => Unknown field: `k`. Available values: `a`, `b`, `c`
shows | value k; widen => Unknown value: `k`
shows | unknown k; at x; widen => Unknown field: `k` at x
shows | unknown k; at x; unknown l; gather 2; widen => Multiple errors: (Unknown field: `k` at x, Unknown field: `l`. Available values: `a`, `b`)
shows | unknown k; unknown l; gather 2; at x; widen => Multiple errors: (Unknown field: `k`, Unknown field: `l`) at x
children | duplicate hello; duplicate hi; missing bye; duplicate whatsup; gather 1; at c; gather 3; at b; gather 2; at a => Duplicate field `hello`; Multiple errors: (Duplicate field `hi`, Missing field `bye`, Duplicate field `whatsup` at c) at b
length | duplicate hello; duplicate hi; missing bye; duplicate whatsup; gather 1; at c; gather 3; at b; gather 2; at a; flatten => 4
length | duplicate hello; duplicate hi; missing bye; duplicate whatsup; gather 1; at c; gather 3; at b; gather 2; at a; flatten; flatten => 4
children | duplicate hello; duplicate hi; missing bye; duplicate whatsup; gather 1; at c; gather 3; at b; gather 2; at a; flatten; flatten => Duplicate field `hello` at a; Duplicate field `hi` at a/b; Missing field `bye` at a/b; Duplicate field `whatsup` at a/b/c
children | custom a => a
debug | missing z; at x; custom b; gather 2; span 1..2 => Faults(Error { nodes: Items { vec: [Node { size: 3, locations: Items { vec: [] }, span: Some(At { source: 1, start: 1, end: 2 }), kind: None }, Node { size: 1, locations: Items { vec: ["x"] }, span: None, kind: Some(MissingField("z")) }, Node { size: 1, locations: Items { vec: [] }, span: None, kind: Some(Custom("b")) }] }, .. })
inside | unknown k; unknown l; gather 2; span 1..2; missing z; unknown m; at x; gather 3; span 3..4; widen => 1..2 Multiple errors: (Unknown field: `k`. Available values: `a`, `b`, Unknown field: `l`. Available values: `a`, `b`); none Missing field `z`; none Unknown field: `m` at x
length | custom a; custom b; gather 2; span 1..2; clone => 2
stands | custom a; custom b; gather 2; span 1..2; clone => 1..2 Multiple errors: (a, b)
shows | collected => Multiple errors: (a, b, c, d)
length | spilled => 4
length | syntax => 1
stands | syntax => 1..2 a
syn | missing z; at x => call Missing field `z` at x
syn | missing z; at x; span 5..6 => 5..6 Missing field `z`
syn | duplicate hello; duplicate hi; missing bye; duplicate whatsup; gather 1; at c; gather 3; at b; gather 2; at a; span 7..8 => call Duplicate field `hello` at a; call Duplicate field `hi` at a/b; call Missing field `bye` at a/b; call Duplicate field `whatsup` at a/b/c
compiled | custom no value; span 1..4 => 1..4 ::core::compile_error!{"no value"}
compiled | torn; span 1..4 => 1..4 ::core::compile_error! { "`a`\n\t\"\\" }
syntax |  => 1..4 ::core::compile_error!{"a"} ::core::compile_error!{"b"}"#;

// Trees of many levels, each the tree so far and one new leaf: no call takes stack for a level, and `checks/stack.sh`
// runs these rows within 256 kB of it. In the text of a tree `Multiple errors: (`, `, ` and `)` stand for each level.
const MANY_LEVELS: &str = "length | deep 10000; flatten => 10001
first | deep 10000; clone; widen => 10000
bytes | deep 10000 => 390018
trees | deep 10000 => 80008";

// Errors of one accumulator: what is told of them takes time in their number.
const MANY: &str = "length | pushed 1000000; flatten => 1000000
bytes | pushed 1000000 => 3000017
trees | pushed 1000000 => 8000000";

/// The text of the error, whoever writes it.
pub fn text_of(alloc: Global, error: &Error) -> Mem<String> {
    let shown = format!(in alloc; "{error}")?;
    if error.to_text(alloc)?.is(shown.as_str()) {
        return Ok(shown);
    }
    format!(in alloc; "written in two ways")
}

/// The place of the error itself.
fn own_place(alloc: Global, error: &Error) -> Mem<String> {
    match error.explicit_span() {
        Some(span) if error.has_span() => span_text(alloc, span),
        None if !error.has_span() => format!(in alloc; "none"),
        _ => format!(in alloc; "told in two ways"),
    }
}

/// The own place of the error and its text.
fn stands(alloc: Global, error: &Error) -> Mem<String> {
    let mut told = own_place(alloc, error)?;
    told.push(' ')?;
    told.push_str(text_of(alloc, error)?.as_str())?;
    Ok(told)
}

/// The texts of the children, in their order, each behind its own place if that is asked for.
fn children(alloc: Global, error: Error, placed: bool) -> Mem<String> {
    let mut text = String::new(alloc);
    for child in error.into_iter(alloc)? {
        if !text.as_str().is_empty() {
            text.push_str("; ")?;
        }
        let told = if placed {
            stands(alloc, &child)?
        } else {
            text_of(alloc, &child)?
        };
        text.push_str(told.as_str())?;
    }
    Ok(text)
}

fn first_length(alloc: Global, error: Error) -> Mem<String> {
    match error.into_iter(alloc)?.next() {
        Some(first) => format!(in alloc; "{}", first.len()),
        None => format!(in alloc; "none"),
    }
}

fn push_fault(alloc: Global, text: &mut String, fault: &(Span, Text)) -> Mem<()> {
    text.push_str(span_text(alloc, fault.0)?.as_str())?;
    text.push(' ')?;
    text.push_str(fault.1.as_str())
}

/// The faults where syntax is wrong, each with its place.
fn syn(alloc: Global, error: Error) -> Mem<String> {
    let told = error.into_syn(alloc)?;
    let mut text = String::new(alloc);
    push_fault(alloc, &mut text, &told.first)?;
    for fault in told.more.as_slice() {
        text.push_str("; ")?;
        push_fault(alloc, &mut text, fault)?;
    }
    Ok(text)
}

/// What is told of the error.
fn told_of(alloc: Global, kind: &str, error: Error) -> Mem<String> {
    match kind {
        "shows" => text_of(alloc, &error),
        "debug" => format!(in alloc; "{:?}", error_core::Fail::Faults(error)),
        "stands" => stands(alloc, &error),
        "place" => {
            let mut told = own_place(alloc, &error)?;
            told.push(' ')?;
            told.push_str(span_text(alloc, error.span())?.as_str())?;
            Ok(told)
        }
        "length" => format!(in alloc; "{}", error.len()),
        "bytes" => format!(in alloc; "{}", error.to_text(alloc)?.len()),
        "children" => children(alloc, error, false),
        "inside" => children(alloc, error, true),
        "first" => first_length(alloc, error),
        "syn" => syn(alloc, error),
        "trees" => format!(in alloc; "{}", error.write_errors(alloc)?.trees.len()),
        _ => format!(in alloc; "of no kind"),
    }
}

/// What is expected, if the tokens are those of its text and run over the place before it.
fn spelled(alloc: Global, tokens: TokenStream, expected: &str) -> Tested<String> {
    let (place, text) = expected.split_once(' ').unwrap_or((expected, ""));
    if text.len() > 200 || lex(alloc, 0, text)? != tokens {
        return Ok(format!(in alloc; "other tokens")?);
    }
    let mut told = span_text(alloc, tokens.spanned())?;
    told.push_str(expected.strip_prefix(place).unwrap_or(""))?;
    Ok(told)
}

/// What is told by the kind of a row.
fn told(alloc: Global, kind: &str, commands: &str, expected: &str) -> Tested<String> {
    match kind {
        "line" => Ok(faults::line(alloc, commands)?),
        "accumulator" => Ok(carried::accumulated(alloc, commands)?),
        "compiled" => spelled(alloc, made(alloc, commands)?.write_errors(alloc)?, expected),
        "syntax" => {
            let tokens = into_compile_error(alloc, two_of_syntax(alloc)?)?;
            spelled(alloc, tokens, expected)
        }
        _ => Ok(told_of(alloc, kind, made(alloc, commands)?)?),
    }
}

/// Each row is answered so. The crate's own tests have their names before the kind.
fn hold(alloc: Global, rows: &str) -> Tested<()> {
    for row in rows.lines() {
        let (kind, rest) = kind_of(row)?;
        let (_, kind) = kind.split_once(": ").unwrap_or(("", kind));
        let (commands, expected) = row_of(rest)?;
        let found = told(alloc, kind, commands, expected)?;
        if found.as_str() != expected {
            return Err(Fail::new(format_args!("{row} is {found}")));
        }
    }
    Ok(())
}

#[test]
fn rows_are_answered(rt: HostRuntime) -> Tested<()> {
    hold(rt.alloc(), ROWS)?;
    hold(rt.alloc(), carried::ROWS)?;
    hold(rt.alloc(), faults::ROWS)
}

#[test]
fn many_levels_take_no_stack(rt: HostRuntime) -> Tested<()> {
    hold(rt.alloc(), MANY_LEVELS)
}

#[test]
fn many_errors_take_time_in_their_number(rt: HostRuntime) -> Tested<()> {
    hold(rt.alloc(), MANY)
}
