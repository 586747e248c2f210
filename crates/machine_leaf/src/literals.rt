//! Literals of one kind as values.

ghost use Rattle.machine_cells.specs.Cells.{AnswersCell, cell_at};
ghost use Rattle.machine_cells.specs.Leaves.{lit_kind_cells, lit_list_cells};

use crate::shown::{Syntax, shown_cell};
use error_core::Result;
use machine_cells::Call;
use machine_rows::LitKind;
use machine_value::Value;
use node_expr::{Lit, LitBool, LitByte, LitByteStr, LitChar, LitFloat, LitInt, LitStr};
use std::alloc::Global;

impl Syntax for Lit {}

impl Syntax for LitInt {}

impl Syntax for LitFloat {}

impl Syntax for LitStr {}

impl Syntax for LitByte {}

impl Syntax for LitByteStr {}

impl Syntax for LitChar {}

impl Syntax for LitBool {}

/// What a literal of the kind answers.
pub(crate) fn lit_cell(alloc: Global, kind: LitKind, call: Call<'_>) -> Result<Option<Value>>
    ensures { AnswersCell (λ it. it) result (cell_at (lit_kind_cells kind) call.entry) }
{
    match kind {
        LitKind::Int => shown_cell::<LitInt>(alloc, call),
        LitKind::Float => shown_cell::<LitFloat>(alloc, call),
        LitKind::Str => shown_cell::<LitStr>(alloc, call),
        LitKind::Byte => shown_cell::<LitByte>(alloc, call),
        LitKind::ByteStr => shown_cell::<LitByteStr>(alloc, call),
        LitKind::Char => shown_cell::<LitChar>(alloc, call),
        LitKind::Bool => shown_cell::<LitBool>(alloc, call),
    }
}

/// What a `Vec` of literals of the kind answers.
pub(crate) fn lit_list_cell(alloc: Global, kind: LitKind, call: Call<'_>) -> Result<Option<Value>>
    ensures { AnswersCell (λ it. it) result (cell_at (lit_list_cells kind) call.entry) }
{
    match kind {
        LitKind::Int => shown_cell::<Vec<LitInt>>(alloc, call),
        LitKind::Float => shown_cell::<Vec<LitFloat>>(alloc, call),
        LitKind::Str => shown_cell::<Vec<LitStr>>(alloc, call),
        LitKind::Byte => shown_cell::<Vec<LitByte>>(alloc, call),
        LitKind::ByteStr => shown_cell::<Vec<LitByteStr>>(alloc, call),
        LitKind::Char => shown_cell::<Vec<LitChar>>(alloc, call),
        LitKind::Bool => shown_cell::<Vec<LitBool>>(alloc, call),
    }
}
