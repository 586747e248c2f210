//! Readers of what an expression is.

ghost use Rattle.std.specs.Prelude.{◌≡◌, IfOk, option_map};
ghost use Rattle.std.specs.Option.{option_copied};
ghost use Rattle.node_expr.specs.declared.expr.Expr.{out-Expr};
ghost use Rattle.node_expr.specs.Kinds as kinds;
ghost use Rattle.error_fault.specs.Outcome.{Value};
ghost use Rattle.meta_nested.specs.Cells.{AnswersCell, cell_at};
ghost use Rattle.meta_reads.specs.Exprs as spec;

use crate::from_tokens::FromTokens;
use crate::parsed::parse_text;
use crate::syntax::read_lit;
use base_core::{Mem, TryClone};
use error_core::Result;
use meta_nested::{Call, without_groups};
use node_expr::{Expr, ExprArray, ExprPath, ExprRange, Lit, Path, TypePath};
use std::alloc::Global;
use tok_types::Ident;

/// A node that is one kind of expression.
pub trait OfExpr: FromTokens {
    ghost use Rattle.std.specs.Prelude.{◌≡◌, Option};
    ghost use Rattle.std.specs.Option.{option_copied};
    ghost use Rattle.node_expr.specs.Layers.{ExprLayer};
    ghost use Rattle.node_expr.specs.declared.expr.Expr.{out-Expr};

    ghost kind: { ExprLayer → Option Self };

    /// The expression of this kind that the expression is.
    fn of_expr(expr: &Expr) -> Option<&Self>
        ensures { option_copied result ≡ kind (out-Expr expr.now) };
}

impl OfExpr for ExprArray {
    ghost kind = { kinds.array_in };

    fn of_expr(expr: &Expr) -> Option<&ExprArray> {
        match expr {
            Expr::Array(it) => Some(it),
            _ => None,
        }
    }
}

impl OfExpr for ExprPath {
    ghost kind = { kinds.path_in };

    fn of_expr(expr: &Expr) -> Option<&ExprPath> {
        match expr {
            Expr::Path(it) => Some(it),
            _ => None,
        }
    }
}

impl OfExpr for ExprRange {
    ghost kind = { kinds.range_in };

    fn of_expr(expr: &Expr) -> Option<&ExprRange> {
        match expr {
            Expr::Range(it) => Some(it),
            _ => None,
        }
    }
}

/// An expression of one kind, or one in a string literal.
pub fn read_expr_kind<T: OfExpr + TryClone + Drop>(
    alloc: Global,
    call: Call<'_>,
) -> Result<Option<T>>
    ensures { AnswersCell (λ it. it) result (cell_at (spec.expr_kind_cells T.kind T.tree) call.entry) }
{
    match call {
        Call::Value(lit) => read_lit(alloc, lit),
        Call::Expr(expr) => copy_found(alloc, T::of_expr(without_groups(expr))),
        _ => Ok(None),
    }
}

/// An identifier, or one in a string.
pub fn read_ident(alloc: Global, call: Call<'_>) -> Result<Option<Ident>>
    ensures { AnswersCell (λ it. it) result (cell_at spec.ident_cells call.entry) }
{
    match call {
        Call::String(text, span) => Ok(Some(parse_text(alloc, text, span)?)),
        Call::Expr(expr) => copy_found(alloc, ident_in(without_groups(expr))),
        _ => Ok(None),
    }
}

/// A path, or one in a string. The type in front of a path is dropped.
pub fn read_path(alloc: Global, call: Call<'_>) -> Result<Option<Path>>
    ensures { AnswersCell (λ it. it) result (cell_at spec.path_cells call.entry) }
{
    match call {
        Call::String(text, span) => Ok(Some(parse_text(alloc, text, span)?)),
        Call::Expr(expr) => copy_found(alloc, path_in(without_groups(expr))),
        _ => Ok(None),
    }
}

/// Every expression, and one in a string in its place.
pub fn read_expr(alloc: Global, call: Call<'_>) -> Result<Option<Expr>>
    ensures { AnswersCell (λ it. it) result (cell_at spec.expr_cells call.entry) }
{
    match call {
        Call::String(text, span) => Ok(Some(parse_text(alloc, text, span)?)),
        Call::Expr(expr) => copy_found(alloc, unless_string(without_groups(expr))),
        _ => Ok(None),
    }
}

/// A path as a type, or one in a string.
pub fn read_type_path(alloc: Global, call: Call<'_>) -> Result<Option<TypePath>>
    ensures { AnswersCell (λ it. it) result (cell_at spec.type_path_cells call.entry) }
{
    match call {
        Call::String(text, span) => Ok(Some(parse_text(alloc, text, span)?)),
        Call::Expr(expr) => path_as_type_in(alloc, without_groups(expr)),
        _ => Ok(None),
    }
}

/// A copy of what is found.
fn copy_found<T: TryClone + Drop>(alloc: Global, found: Option<&T>) -> Result<Option<T>>
    ensures { AnswersCell (λ it. it) result (option_map Value (option_copied found.entry)) }
{
    match found {
        Some(it) => Ok(Some(it.try_clone(alloc)?)),
        None => Ok(None),
    }
}

fn path_in(expr: &Expr) -> Option<&Path>
    ensures { option_copied result ≡ spec.bare_path_in (out-Expr expr.now) }
{
    match expr {
        Expr::Path(it) => Some(&it.path),
        _ => None,
    }
}

fn ident_in(expr: &Expr) -> Option<&Ident>
    ensures { option_copied result ≡ spec.ident_in (out-Expr expr.now) }
{
    match expr {
        Expr::Path(it) => it.path.get_ident(),
        _ => None,
    }
}

fn unless_string(expr: &Expr) -> Option<&Expr>
    ensures { option_copied result ≡ spec.unless_string expr.now }
{
    match expr {
        Expr::Lit(Lit::Str(_)) => None,
        other => Some(other),
    }
}

fn path_as_type_in(alloc: Global, expr: &Expr) -> Result<Option<TypePath>>
    ensures { AnswersCell (λ it. it) result (option_map Value (spec.path_as_type_in (out-Expr expr.now))) }
{
    match expr {
        Expr::Path(it) => Ok(Some(as_type_path(alloc, it)?)),
        _ => Ok(None),
    }
}

fn as_type_path(alloc: Global, it: &ExprPath) -> Mem<TypePath>
    ensures { IfOk result (λ copy. copy ≡ spec.as_type_path it.now) }
{
    Ok(TypePath {
        qself: it.qself.try_clone(alloc)?,
        path: it.path.try_clone(alloc)?,
        span: it.span,
    })
}
