//! Lists as values.

ghost use Rattle.std.specs.Prelude.{◌≡◌, IfOk, map};
ghost use Rattle.machine_cells.specs.Cells.{AnswersCell, cell_at};
ghost use Rattle.machine_value.specs.declared.value.Value.TheVariants as value;
ghost use Rattle.machine_cells.specs.Leaves.{punctuated_cells, unsigned_list_cells, vec_cells};

use crate::literals::lit_list_cell;
use crate::shown::{Shown, shown_cell};
use base_core::{Items, Mem};
use error_core::Result;
use machine_cells::{Call, PathList};
use machine_rows::{PunctuatedItem, Unsigned, VecItem};
use machine_value::Value;
use node_core::{Comma, Punctuated, WherePredicate};
use node_expr::{Expr, FnArg, Path};
use std::alloc::Global;
use tok_types::Ident;

impl<T: Shown> Shown for Vec<T> {
    ghost use Rattle.std.specs.Prelude.{map};
    ghost use Rattle.machine_value.specs.declared.value.Value.TheVariants as value;

    ghost shows = { λ it. value.List (map T.shows it.items) };

    fn to_value(&self, alloc: Global) -> Mem<Value> {
        list_value(alloc, self.as_slice())
    }
}

impl<T: Shown> Shown for Punctuated<T, Comma> {
    ghost use Rattle.std.specs.Prelude.{map};
    ghost use Rattle.machine_value.specs.declared.value.Value.TheVariants as value;

    ghost shows = { λ it. value.List (map T.shows it.items) };

    fn to_value(&self, alloc: Global) -> Mem<Value> {
        list_value(alloc, self.items.as_slice())
    }
}

impl Shown for PathList {
    ghost use Rattle.machine_cells.specs.Leaves.{plain};
    ghost use Rattle.machine_cells.specs.Values.{syntax_list};

    ghost shows = { λ it. syntax_list plain it.0 };

    fn to_value(&self, alloc: Global) -> Mem<Value> {
        list_value(alloc, self.0.as_slice())
    }
}

/// The parts, each as a value.
fn list_value<T: Shown>(alloc: Global, parts: &[T]) -> Mem<Value>
    ensures { IfOk result (λ it. it ≡ value.List (map T.shows parts.now)) }
{
    let mut values = Items::new(alloc);
    for part in parts {
        values.push(part.to_value(alloc)?)?;
    }
    Ok(Value::List(values))
}

/// What a `Vec` of integers of the width answers.
fn unsigned_list_cell(alloc: Global, width: Unsigned, call: Call<'_>) -> Result<Option<Value>>
    ensures { AnswersCell (λ it. it) result (cell_at (unsigned_list_cells width) call.entry) }
{
    match width {
        Unsigned::U8 => shown_cell::<Vec<u8>>(alloc, call),
        Unsigned::U16 => shown_cell::<Vec<u16>>(alloc, call),
        Unsigned::U32 => shown_cell::<Vec<u32>>(alloc, call),
        Unsigned::U64 => shown_cell::<Vec<u64>>(alloc, call),
        Unsigned::Usize => shown_cell::<Vec<usize>>(alloc, call),
    }
}

/// What a `Vec` that is read as a whole answers.
pub(crate) fn vec_cell(alloc: Global, item: VecItem, call: Call<'_>) -> Result<Option<Value>>
    ensures { AnswersCell (λ it. it) result (cell_at (vec_cells item) call.entry) }
{
    match item {
        VecItem::WherePredicate => shown_cell::<Vec<WherePredicate>>(alloc, call),
        VecItem::Lit(kind) => lit_list_cell(alloc, kind, call),
        VecItem::Unsigned(width) => unsigned_list_cell(alloc, width, call),
        VecItem::Ident => shown_cell::<Vec<Ident>>(alloc, call),
        VecItem::Path => shown_cell::<Vec<Path>>(alloc, call),
    }
}

/// What a `Punctuated` answers.
pub(crate) fn punctuated_cell(
    alloc: Global,
    item: PunctuatedItem,
    call: Call<'_>,
) -> Result<Option<Value>>
    ensures { AnswersCell (λ it. it) result (cell_at (punctuated_cells item) call.entry) }
{
    match item {
        PunctuatedItem::Expr => shown_cell::<Punctuated<Expr, Comma>>(alloc, call),
        PunctuatedItem::Ident => shown_cell::<Punctuated<Ident, Comma>>(alloc, call),
        PunctuatedItem::Path => shown_cell::<Punctuated<Path, Comma>>(alloc, call),
        PunctuatedItem::FnArg => shown_cell::<Punctuated<FnArg, Comma>>(alloc, call),
    }
}
