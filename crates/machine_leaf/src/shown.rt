//! How what is read is shown as a value.

ghost use Rattle.std.specs.Prelude.{◌≡◌, IfOk};
ghost use Rattle.machine_cells.specs.Cells.{AnswersCell, Cells, cell_at};
ghost use Rattle.machine_cells.specs.Call.{Call as Asked};
ghost use Rattle.machine_value.specs.declared.value.Value.{Value as Datum};
ghost use Rattle.machine_cells.specs.Shown.{shown_cells};
ghost use Rattle.machine_cells.specs.Values.{syntax};
ghost use Rattle.machine_leaf.specs.Seen.{ShowsSeen};

use base_core::Mem;
use error_core::{Fail, Result};
use machine_cells::{Call, FromMeta};
use machine_value::Value;
use print_core::ToTokens;
use std::alloc::Global;

/// What can be shown as a value.
pub(crate) trait Shown {
    ghost use Rattle.std.specs.Prelude.{◌≡◌, IfOk};
    ghost use Rattle.machine_value.specs.declared.value.Value.{Value as Datum};

    ghost shows: { Self → Datum };

    /// What is shown.
    fn to_value(&self, alloc: Global) -> Mem<Value>
        ensures { IfOk result (λ value. value ≡ shows self.now) };
}

/// A piece of syntax, which is shown by its tokens.
pub(crate) trait Syntax: ToTokens {}

impl<T: Syntax> Shown for T {
    ghost use Rattle.machine_cells.specs.Values.{syntax};

    ghost shows = { syntax T.printing };

    fn to_value(&self, alloc: Global) -> Mem<Value> {
        syntax_value(alloc, self)
    }
}

/// A piece of syntax as a value.
pub fn syntax_value<T: ToTokens>(alloc: Global, it: &T) -> Mem<Value>
    ensures { IfOk result (λ value. value ≡ syntax T.printing it.now) }
{
    Ok(Value::Syntax(it.to_token_stream(alloc)?))
}

/// What a type answers to a call itself, as a value.
pub(crate) fn shown_cell<T: FromMeta + Shown + Drop>(
    alloc: Global,
    call: Call<'_>,
) -> Result<Option<Value>>
    ensures { (show : T.Seen → Datum) → ShowsSeen T.shows T.seen show → AnswersCell (λ it. it) result (cell_at (shown_cells show T.cells) call.entry) }
{
    shown_answer(alloc, T::cell(alloc, call))
}

/// The answer, with its value shown.
pub(crate) fn shown_answer<T: FromMeta + Shown + Drop>(
    alloc: Global,
    answer: Result<Option<T>>,
) -> Result<Option<Value>>
    ensures { (show : T.Seen → Datum) → ShowsSeen T.shows T.seen show → (cells : Cells T.Seen) (call : Asked) → AnswersCell T.seen answer (cell_at cells call) → AnswersCell (λ it. it) result (cell_at (shown_cells show cells) call) }
{
    match answer {
        Ok(Some(it)) => Ok(Some(it.to_value(alloc)?)),
        Ok(None) => Ok(None),
        Err(fail) => Err(fail),
    }
}
