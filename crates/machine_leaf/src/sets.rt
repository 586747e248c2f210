//! Sets of names as values.

ghost use Rattle.std.specs.Prelude.{◌≡◌, IfOk, List, Option, map};
ghost use Rattle.error_fault.specs.Outcome.{Outcome};
ghost use Rattle.machine_cells.specs.Cells.{AnswersCell, cell_at};
ghost use Rattle.machine_cells.specs.Leaves.{set_cells};
ghost use Rattle.machine_cells.specs.Maps as spec;
ghost use Rattle.machine_cells.specs.Shown.{shown};
ghost use Rattle.machine_cells.specs.Values.{syntax};

use crate::order::in_order;
use crate::shown::syntax_value;
use base_core::{Items, Mem, Text};
use error_core::Result;
use machine_cells::{Call, FromMeta, KeyFromPath};
use machine_rows::SetItem;
use machine_value::Value;
use node_expr::Path;
use print_core::ToTokens;
use std::alloc::Global;
use std::collections::HashSet;
use tok_types::Ident;

/// What a `HashSet` answers: its names in the order of their texts.
pub(crate) fn set_cell(alloc: Global, item: SetItem, call: Call<'_>) -> Result<Option<Value>>
    ensures { AnswersCell (λ it. it) result (cell_at (set_cells item) call.entry) }
{
    match item {
        SetItem::Ident => ident_set_cell(alloc, call),
        SetItem::Path => path_set_cell(alloc, call),
    }
}

/// The set tells all faults. Without one its names are those of the same items as a list.
fn ident_set_cell(alloc: Global, call: Call<'_>) -> Result<Option<Value>>
    ensures { AnswersCell (λ it. it) result (cell_at (set_cells SetItem.Ident) call.entry) }
{
    match HashSet::<Ident>::cell(alloc, call) {
        Ok(Some(_set)) => names_answer(alloc, Vec::<Ident>::cell(alloc, call)),
        Ok(None) => Ok(None),
        Err(fail) => Err(fail),
    }
}

/// As `ident_set_cell`.
fn path_set_cell(alloc: Global, call: Call<'_>) -> Result<Option<Value>>
    ensures { AnswersCell (λ it. it) result (cell_at (set_cells SetItem.Path) call.entry) }
{
    match HashSet::<Path>::cell(alloc, call) {
        Ok(Some(_set)) => names_answer(alloc, Vec::<Path>::cell(alloc, call)),
        Ok(None) => Ok(None),
        Err(fail) => Err(fail),
    }
}

/// The answer, with its names shown in the order of their texts.
fn names_answer<T: KeyFromPath + ToTokens + Drop>(
    alloc: Global,
    answer: Result<Option<Vec<T>>>,
) -> Result<Option<Value>>
    ensures { (cell : Option (Outcome (List T))) → AnswersCell (λ it. it.items) answer cell → AnswersCell (λ it. it) result (shown (spec.names_value (λ name. T.text (T.seen name)) T.printing) cell) }
{
    match answer {
        Ok(Some(names)) => Ok(Some(names_value(alloc, names.as_slice())?)),
        Ok(None) => Ok(None),
        Err(fail) => Err(fail),
    }
}

fn names_value<T: KeyFromPath + ToTokens>(alloc: Global, names: &[T]) -> Mem<Value>
    ensures { IfOk result (λ it. it ≡ spec.names_value (λ name. T.text (T.seen name)) T.printing names.now) }
{
    let entries = in_order(entries_of(alloc, names)?)?;
    let values: Vec<Value> = entries
        .into_vec()
        .into_iter()
        .map(|(_text, value)| value)
        .collect(alloc)?;
    Ok(Value::List(Items::from_vec(values)))
}

/// The names under their texts.
fn entries_of<T: KeyFromPath + ToTokens>(alloc: Global, names: &[T]) -> Mem<Items<(Text, Value)>>
    ensures { IfOk result (λ it. it ≡ map (λ name. (T.text (T.seen name), syntax T.printing name)) names.now) }
{
    let mut entries = Items::new(alloc);
    for name in names {
        entries.push(entry_of(alloc, name)?)?;
    }
    Ok(entries)
}

fn entry_of<T: KeyFromPath + ToTokens>(alloc: Global, name: &T) -> Mem<(Text, Value)>
    ensures { IfOk result (λ it. it ≡ (T.text (T.seen name.now), syntax T.printing name.now)) }
{
    let text = name.to_display(alloc)?;
    Ok((text, syntax_value(alloc, name)?))
}
