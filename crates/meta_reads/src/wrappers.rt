//! Types around a type that is read, whatever reads the one inside: `Option`, `Box`, and `Result` that keeps an error or a
//! meta.

ghost use Rattle.std.specs.Prelude.{Some, option_map};
ghost use Rattle.error_core.specs.Answers.{Answers};
ghost use Rattle.error_fault.specs.Outcome.{Outcome, Value};
ghost use Rattle.meta_nested.specs.Cells.{AnswersCell, cell_at};
ghost use Rattle.meta_reads.specs.Wrappers as spec;

use crate::reader::Reader;
use base_core::TryClone;
use error_core::{Error, Fail, Result};
use meta_nested::Call;
use node_core::Meta;
use std::alloc::Global;
use std::result;

/// What the type inside reads. No item is `None`.
pub fn option_cell<R: Reader>(
    alloc: Global,
    inner: &R,
    call: Call<'_>,
) -> Result<Option<Option<R::Value>>>
    requires { R.is_callable inner.now }
    ensures { AnswersCell (option_map R.seen) result (cell_at (spec.option_cells (R.cells inner.now)) call.entry) }
{
    match call {
        Call::Meta(item) => Ok(Some(Some(inner.from_meta(alloc, item)?))),
        Call::Absent => Ok(Some(None)),
        _ => Ok(None),
    }
}

/// What the type inside reads, not yet in its box.
pub fn box_cell<R: Reader>(alloc: Global, inner: &R, call: Call<'_>) -> Result<Option<R::Value>>
    requires { R.is_callable inner.now }
    ensures { AnswersCell R.seen result (cell_at (spec.box_cells (R.cells inner.now)) call.entry) }
{
    match call {
        Call::Meta(item) => Ok(Some(inner.from_meta(alloc, item)?)),
        Call::List(items) => Ok(Some(inner.from_list(alloc, items)?)),
        Call::Absent => Ok(inner.from_none(alloc)?),
        _ => Ok(None),
    }
}

/// The answer with its error, where the type inside refuses the item.
pub fn result_cell<R: Reader>(
    alloc: Global,
    inner: &R,
    call: Call<'_>,
) -> Result<Option<result::Result<R::Value, Error>>>
    requires { R.is_callable inner.now }
    ensures { AnswersCell (spec.outcome_of R.seen) result (cell_at (spec.result_cells (R.cells inner.now)) call.entry) }
{
    match call {
        Call::Meta(item) => kept::<R>(inner.from_meta(alloc, item)),
        Call::List(items) => kept::<R>(inner.from_list(alloc, items)),
        Call::Absent => match inner.from_none(alloc)? {
            Some(value) => Ok(Some(Ok(value))),
            None => Ok(None),
        },
        _ => Ok(None),
    }
}

/// The answer as a value. Want of memory is not kept.
fn kept<R: Reader>(answer: Result<R::Value>) -> Result<Option<result::Result<R::Value, Error>>>
    ensures { (outcome : Outcome R.Seen) → Answers R.seen answer outcome
        → AnswersCell (spec.outcome_of R.seen) result (Some (Value outcome)) }
{
    match answer {
        Ok(value) => Ok(Some(Ok(value))),
        Err(fail) => match fail.into_error() {
            Some(error) => Ok(Some(Err(error))),
            None => Err(Fail::NoMemory),
        },
    }
}

/// The meta itself, where the type inside refuses it.
pub fn result_meta_cell<R: Reader>(
    alloc: Global,
    inner: &R,
    call: Call<'_>,
) -> Result<Option<result::Result<R::Value, Meta>>>
    requires { R.is_callable inner.now }
    ensures { AnswersCell (spec.either_of R.seen) result (cell_at (spec.result_meta_cells (R.cells inner.now)) call.entry) }
{
    let Call::Meta(item) = call else {
        return Ok(None);
    };
    match inner.from_meta(alloc, item) {
        Ok(value) => Ok(Some(Ok(value))),
        Err(fail) => match fail.into_error() {
            Some(_error) => Ok(Some(Err(item.try_clone(alloc)?))),
            None => Err(Fail::NoMemory),
        },
    }
}
