//! Words, characters, strings and flags as values.

ghost use Rattle.std.specs.Prelude.{◌≡◌, IfOk};
ghost use Rattle.machine_cells.specs.Cells.{AnswersCell, cell_at};
ghost use Rattle.machine_cells.specs.Rows.{text_cells};
ghost use Rattle.machine_value.specs.declared.value.Value.TheVariants as value;
ghost use Rattle.machine_cells.specs.Leaves.{ignored_cells};
ghost use Rattle.machine_cells.specs.Shown.{shown_cells};
ghost use Rattle.machine_cells.specs.Values.{ignored as ignored_value};

use crate::shown::Shown;
use base_core::{Boxed, Items, Mem, Text};
use error_core::Result;
use machine_cells::{Call, Flag};
use machine_value::Value;
use node_core::Style;
use std::alloc::Global;

impl Shown for () {
    ghost use Rattle.machine_cells.specs.Values.{unit};

    ghost shows = { unit };

    fn to_value(&self, _alloc: Global) -> Mem<Value> {
        Ok(Value::Unit)
    }
}

impl Shown for bool {
    ghost use Rattle.machine_value.specs.declared.value.Value.TheVariants as value;

    ghost shows = { value.Bool };

    fn to_value(&self, _alloc: Global) -> Mem<Value> {
        Ok(Value::Bool(*self))
    }
}

impl Shown for char {
    ghost use Rattle.machine_value.specs.declared.value.Value.TheVariants as value;

    ghost shows = { value.Char };

    fn to_value(&self, _alloc: Global) -> Mem<Value> {
        Ok(Value::Char(*self))
    }
}

/// A flag is shown by the place of its word.
impl Shown for Flag {
    ghost use Rattle.machine_cells.specs.Values.{flag};

    ghost shows = { λ it. flag it.0 };

    fn to_value(&self, alloc: Global) -> Mem<Value> {
        match self.0 {
            Some(span) => Ok(Value::Opt(Some(Boxed::new(alloc, Value::Span(Some(span)))?))),
            None => Ok(Value::Opt(None)),
        }
    }
}

/// What a string type answers: the string.
pub(crate) fn text_cell(alloc: Global, call: Call<'_>) -> Result<Option<Value>>
    ensures { AnswersCell (λ it. it) result (cell_at (shown_cells value.Text text_cells) call.entry) }
{
    match call {
        Call::String(text, _) => Ok(Some(Value::Text(Text::from_str(alloc, text)?))),
        _ => Ok(None),
    }
}

/// What `Ignored` answers: that a meta is there.
pub(crate) fn ignored_cell(alloc: Global, call: Call<'_>) -> Result<Option<Value>>
    ensures { AnswersCell (λ it. it) result (cell_at ignored_cells call.entry) }
{
    match call {
        Call::Meta(_) => Ok(Some(ignored(alloc)?)),
        _ => Ok(None),
    }
}

/// What is not looked at.
pub(crate) fn ignored(alloc: Global) -> Mem<Value>
    ensures { IfOk result (λ value. value ≡ ignored_value) }
{
    Ok(Value::Struct {
        name: Text::from_str(alloc, "Ignored")?,
        style: Style::Unit,
        fields: Items::new(alloc),
    })
}
