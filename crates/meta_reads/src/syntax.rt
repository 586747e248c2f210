//! Readers of what all of some tokens are.

ghost use Rattle.std.specs.Prelude.{◌≡◌, ◌++◌, codes, IfOk};
ghost use Rattle.error_core.specs.Answers.{Answers};
ghost use Rattle.meta_nested.specs.Cells.{AnswersCell, cell_at};
ghost use Rattle.meta_reads.specs.Syntax as spec;

use crate::from_tokens::FromTokens;
use crate::parsed::{parse_text, parse_tokens, printed};
use base_core::{Items, Mem, Text};
use error_core::Result;
use meta_nested::{Call, without_groups};
use node_core::{WhereClause, WherePredicate};
use node_expr::{Expr, Lit};
use std::alloc::Global;
use tok_types::Span;

/// A node in a string, of another expression's tokens, or of tokens that are no expression.
pub fn read_syntax<T: FromTokens + Drop>(alloc: Global, call: Call<'_>) -> Result<Option<T>>
    ensures { AnswersCell (λ it. it) result (cell_at (spec.syntax_cells T.expected T.tree) call.entry) }
{
    match call {
        Call::String(text, span) => Ok(Some(parse_text(alloc, text, span)?)),
        Call::Expr(expr) => read_printed(alloc, without_groups(expr)),
        Call::InvalidExpr(it) => Ok(Some(parse_tokens(alloc, &it.value)?)),
        _ => Ok(None),
    }
}

/// A node in a string literal alone.
pub fn read_quoted<T: FromTokens + Drop>(alloc: Global, call: Call<'_>) -> Result<Option<T>>
    ensures { AnswersCell (λ it. it) result (cell_at (spec.list_cells T.tree) call.entry) }
{
    match call {
        Call::Value(lit) => read_lit(alloc, lit),
        _ => Ok(None),
    }
}

/// The predicates that a string is behind `where`.
pub fn read_where_predicates(alloc: Global, call: Call<'_>) -> Result<Option<Items<WherePredicate>>>
    ensures { AnswersCell (λ it. it) result (cell_at spec.where_predicates_cells call.entry) }
{
    match call {
        Call::String(text, span) => Ok(Some(parse_predicates(alloc, text, span)?)),
        _ => Ok(None),
    }
}

/// A node in a literal that is a string.
pub(crate) fn read_lit<T: FromTokens + Drop>(alloc: Global, lit: &Lit) -> Result<Option<T>>
    ensures { AnswersCell (λ it. it) result (spec.parsed_lit T.tree lit.now) }
{
    match lit {
        Lit::Str(it) => Ok(Some(parse_text(alloc, it.value.as_str(), it.span)?)),
        _ => Ok(None),
    }
}

fn read_printed<T: FromTokens + Drop>(alloc: Global, expr: &Expr) -> Result<Option<T>>
    ensures { AnswersCell (λ it. it) result (spec.parsed_expr T.expected T.tree expr.now) }
{
    match expr {
        Expr::Lit(_) => Ok(None),
        other => {
            let tokens = printed(alloc, other)?;
            Ok(Some(parse_tokens(alloc, &tokens)?))
        }
    }
}

fn parse_predicates(alloc: Global, text: &str, span: Span) -> Result<Items<WherePredicate>>
    ensures { Answers (λ it. it) result (spec.parsed_predicates text.now span) }
{
    let text = behind_where(alloc, text)?;
    let mut clause: WhereClause = parse_text(alloc, text.as_str(), span)?;
    Ok(std::mem::replace(&mut clause.predicates, Items::new(alloc)))
}

fn behind_where(alloc: Global, text: &str) -> Mem<Text>
    ensures { IfOk result (λ whole. whole ≡ codes "where " ++ text.now) }
{
    let mut whole = Text::from_str(alloc, "where ")?;
    whole.push_str(text)?;
    Ok(whole)
}
