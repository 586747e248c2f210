//! Rows: what each answers to a call itself, by the row inside.

ghost use Rattle.meta_nested.specs.Cells.{AnswersCell, cell_at};
ghost use Rattle.machine_read.specs.Scopes.{cells_of, under};

use crate::declared::Declared;
use crate::layer::{Layer, layer_of};
use crate::scope::Scope;
use crate::wrapped::wrapper_cell;
use error_core::{Fail, Result};
use machine_leaf::{Reader, leaf_cell, unit_cell};
use machine_rows::Row;
use machine_steps::{Asked, Host};
use machine_value::Value;
use meta_nested::Call;
use std::alloc::Global;

/// A row, as a type that is read.
#[derive(Drop)]
pub(crate) struct Inside<'a, 's, H, D, F> {
    pub(crate) scope: &'a Scope<'s, H, D>,
    /// How deep it may read.
    pub(crate) room: usize,
    pub(crate) row: &'a Row,
    pub(crate) cell: F,
}

impl<H: Host, D: Declared, F> Reader for Inside<'_, '_, H, D, F>
where
    F: Fn(&Scope<'_, H, D>, usize, &Row, Call<'_>) -> Result<Option<Value>>,
{
    ghost use Rattle.machine_value.specs.declared.value.Value.{Value as Datum};
    ghost use Rattle.machine_read.specs.Answers.{ReadsRow};
    ghost use Rattle.machine_read.specs.Scopes.{cells_of, under};

    type Value = Value;

    ghost Seen = { Datum };

    ghost seen = { λ it. it };

    ghost cells = { λ it. under H.says D.earlier it.scope.now cells_of it.row.now };

    ghost is_callable = { λ it. ReadsRow F.pre F.post it (under H.says D.earlier it.scope.now cells_of it.row.now) };

    fn cell(&self, _alloc: Global, call: Call<'_>) -> Result<Option<Value>> {
        (self.cell)(self.scope, self.room, self.row, call)
    }
}

/// What a row answers to a call itself, reading no deeper than `room` levels. What would be deeper is want of memory.
pub(crate) fn row_cell<H: Host, D: Declared>(
    scope: &Scope<'_, H, D>,
    room: usize,
    row: &Row,
    call: Call<'_>,
) -> Result<Option<Value>>
    requires { D.reads_within scope.now.declared.now room }
    ensures { AnswersCell (λ it. it) result (cell_at (under H.says D.earlier scope.now cells_of row.now) call.entry) }
{
    if room == 0 {
        return Err(Fail::NoMemory);
    }
    match layer_of(&*row) {
        Layer::Unit => unit_cell(scope.alloc, call),
        Layer::Leaf(leaf) => leaf_cell(scope.alloc, leaf, call),
        Layer::Around(wrapper, inner) => {
            let inside = Inside {
                scope: &*scope,
                room: room - 1,
                row: inner,
                cell: row_cell::<H, D>,
            };
            wrapper_cell(scope.alloc, wrapper, &inside, call)
        }
        Layer::Declared(number) => scope
            .declared
            .read(scope.alloc, room - 1, number, Asked::Cell(call)),
        Layer::Host(ty) => scope.setting.host_cell(scope.alloc, ty, call),
    }
}
