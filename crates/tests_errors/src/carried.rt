//! The crate's own tests of errors and of their kinds, and accumulators: a row is `kind | commands => answer`, with the
//! name of the crate's test before its kind.

use crate::errors::text_of;
use error_core::{Accumulator, Error, Fail, Mem, Result};
use std::alloc::Global;
use std::fmt::Debug;

// The text of a flattened error ends without ` at`, so it is in no field itself. Of an accumulator what it gives: a
// value, the text of its error, or the number of its errors.
pub const ROWS: &str = r#"present_no_alts: shows | unknown hello => Unknown field: `hello`
present_few_alts: shows | unknown_with hello world friend => Unknown field: `hello`. Available values: `friend`, `world`
flatten_noop: stands | duplicate hello; at world => none Duplicate field `hello` at world
flatten_noop: stands | duplicate hello; at world; clone; flatten => none Duplicate field `hello` at world
flatten_noop: length | duplicate hello; at world; clone; flatten => 1
flatten_simple: shows | unknown hello; at world; missing hell_no; at world; gather 2; at foo; flatten => Multiple errors: (Unknown field: `hello` at foo/world, Missing field `hell_no` at foo/world)
flatten_simple: children | unknown hello; at world; missing hell_no; at world; gather 2; at foo; flatten => Unknown field: `hello` at foo/world; Missing field `hell_no` at foo/world
len_single: length | duplicate hello => 1
len_multiple: length | duplicate hello; missing hell_no; gather 2 => 2
len_nested: length | duplicate hello; duplicate hi; missing bye; duplicate whatsup; gather 1; gather 3; gather 2 => 4
accumulator | accum_ok => "test"
accumulator | accum_errr => foo!
accumulator | accum_into_inner => 1
accumulator | accum_checkpoint_error => foo!
accumulator | finish_with => 5
accumulator | finish => ()
accumulator | checkpoint => 0
accumulator | no memory => no error"#;

/// Collects the error `foo!`.
fn collect(errors: &mut Accumulator, alloc: Global) -> Mem<()> {
    errors.push(alloc, Error::custom(alloc, "foo!")?)
}

/// An accumulator with the error `foo!`, or with none for want of memory.
fn collected(alloc: Global) -> Accumulator {
    let mut errors = Error::accumulator(alloc);
    let _collected = collect(&mut errors, alloc);
    errors
}

/// The value, or the text of the error that is given in its place.
fn outcome<T: Debug + Drop>(alloc: Global, given: Result<T>) -> Mem<String> {
    match given {
        Ok(value) => format!(in alloc; "{value:?}"),
        Err(fail) => match fail.into_error() {
            Some(error) => text_of(alloc, &error),
            None => format!(in alloc; "no error"),
        },
    }
}

/// The number of the errors, or the text of the error that is given in place of an accumulator.
fn checked(alloc: Global, errors: Accumulator) -> Mem<String> {
    match errors.checkpoint() {
        Ok(fresh) => format!(in alloc; "{}", fresh.into_inner().len()),
        Err(fail) => outcome::<()>(alloc, Err(fail)),
    }
}

/// What the accumulator of the row gives.
pub fn accumulated(alloc: Global, row: &str) -> Mem<String> {
    match row {
        "accum_ok" => outcome(alloc, Error::accumulator(alloc).finish_with("test")),
        "accum_errr" => outcome(alloc, collected(alloc).finish()),
        "accum_into_inner" => format!(in alloc; "{}", collected(alloc).into_inner().len()),
        "accum_checkpoint_error" => checked(alloc, collected(alloc)),
        "finish_with" => outcome(alloc, Error::accumulator(alloc).finish_with(5)),
        "finish" => outcome(alloc, Error::accumulator(alloc).finish()),
        "checkpoint" => checked(alloc, Error::accumulator(alloc)),
        "no memory" => outcome::<()>(alloc, Err(Fail::NoMemory)),
        _ => format!(in alloc; "no such row"),
    }
}
