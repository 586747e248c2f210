//! The table: what each of its types answers.

ghost use Rattle.machine_cells.specs.Cells.{AnswersCell, cell_at};
ghost use Rattle.machine_cells.specs.Rows.{unit_cells};
ghost use Rattle.machine_cells.specs.Leaves.{leaf_cells};
ghost use Rattle.machine_cells.specs.Shown.{shown_cells};
ghost use Rattle.machine_cells.specs.Values.{unit};

use crate::lists::{punctuated_cell, vec_cell};
use crate::literals::lit_cell;
use crate::numbers::{integer_cell, non_zero_cell};
use crate::sets::set_cell;
use crate::shown::shown_cell;
use crate::syntax::parsed_cell;
use crate::words::{ignored_cell, text_cell};
use error_core::Result;
use machine_cells::{Call, Callable, Flag, IdentString, PathList, PreservedStrExpr};
use machine_rows::Leaf;
use machine_value::Value;
use node_core::Meta;
use node_expr::{Expr, ExprArray, ExprPath, ExprRange, Lit, Path, TypePath};
use std::alloc::Global;
use tok_types::Ident;

/// What a type of the table answers to a call itself, as a value. `None` where it has no cell for it.
pub fn leaf_cell(alloc: Global, leaf: &Leaf, call: Call<'_>) -> Result<Option<Value>>
    ensures { AnswersCell (λ it. it) result (cell_at (leaf_cells leaf.now) call.entry) }
{
    match leaf {
        Leaf::Bool => shown_cell::<bool>(alloc, call),
        Leaf::Char => shown_cell::<char>(alloc, call),
        Leaf::String => text_cell(alloc, call),
        Leaf::PathBuf => text_cell(alloc, call),
        Leaf::Integer(width) => integer_cell(alloc, *width, call),
        Leaf::NonZero(width) => non_zero_cell(alloc, *width, call),
        Leaf::Flag => shown_cell::<Flag>(alloc, call),
        Leaf::Ident => shown_cell::<Ident>(alloc, call),
        Leaf::IdentString => shown_cell::<IdentString>(alloc, call),
        Leaf::Path => shown_cell::<Path>(alloc, call),
        Leaf::Expr => shown_cell::<Expr>(alloc, call),
        Leaf::PreservedStrExpr => shown_cell::<PreservedStrExpr>(alloc, call),
        Leaf::ExprArray => shown_cell::<ExprArray>(alloc, call),
        Leaf::ExprPath => shown_cell::<ExprPath>(alloc, call),
        Leaf::ExprRange => shown_cell::<ExprRange>(alloc, call),
        Leaf::TypePath => shown_cell::<TypePath>(alloc, call),
        Leaf::Parsed(node) => parsed_cell(alloc, *node, call),
        Leaf::Vec(item) => vec_cell(alloc, *item, call),
        Leaf::Lit => shown_cell::<Lit>(alloc, call),
        Leaf::LitOf(kind) => lit_cell(alloc, *kind, call),
        Leaf::HashSet(item) => set_cell(alloc, *item, call),
        Leaf::PathList => shown_cell::<PathList>(alloc, call),
        Leaf::Punctuated(item) => punctuated_cell(alloc, *item, call),
        Leaf::Callable => shown_cell::<Callable>(alloc, call),
        Leaf::Meta => shown_cell::<Meta>(alloc, call),
        Leaf::Ignored => ignored_cell(alloc, call),
    }
}

/// What `()` answers to a call itself, as a value.
pub fn unit_cell(alloc: Global, call: Call<'_>) -> Result<Option<Value>>
    ensures { AnswersCell (λ it. it) result (cell_at (shown_cells unit unit_cells) call.entry) }
{
    shown_cell::<()>(alloc, call)
}
