//! What an option may name to be called: a path, a closure, or a string that is a path.

ghost use Rattle.node_expr.specs.declared.expr.Expr.{out-Expr};
ghost use Rattle.error_core.specs.Answers.{Answers};
ghost use Rattle.meta_core.specs.Callable as spec;

use crate::FromMeta;
use base_core::{Mem, TryClone};
use codegen_program::Callable;
use error_core::{Error, Fail, Result};
use meta_nested::Call;
use meta_reads::tokens_of_text;
use node_expr::{Expr, Lit, LitStr, Path};
use std::alloc::Global;
use syn_core::{ParseFail, parse_path};
use tok_types::Span;

impl FromMeta for Callable {
    ghost use Rattle.node_expr.specs.declared.expr.Expr.{Expr};
    ghost use Rattle.meta_core.specs.Callable.{callable_cells};

    ghost Seen = { Expr };

    ghost seen = { λ it. it.call };

    ghost cells = { callable_cells };

    fn cell(alloc: Global, call: Call<'_>) -> Result<Option<Callable>> {
        match call {
            Call::Expr(expr) => {
                let call = call_of(alloc, expr)?;
                Ok(Some(Callable { call }))
            }
            _ => Ok(None),
        }
    }
}

fn call_of(alloc: Global, expr: &Expr) -> Result<Expr>
    ensures { Answers (λ it. it) result (spec.call_of expr.now (out-Expr expr.now)) }
{
    match expr {
        Expr::Path(_) | Expr::Closure(_) => Ok(expr.try_clone(alloc)?),
        Expr::Lit(Lit::Str(text)) => quoted_call(alloc, text),
        other => Err(Fail::Faults(Error::unexpected_expr_type(alloc, other)?)),
    }
}

fn quoted_call(alloc: Global, text: &LitStr) -> Result<Expr>
    ensures { Answers (λ it. it) result (spec.quoted_call text.now) }
{
    let Some(tokens) = tokens_of_text(alloc, text.value.as_str(), text.span)? else {
        return no_path(alloc, text.span);
    };
    match parse_path(alloc, &tokens) {
        Ok(path) => Ok(Callable::from_path(alloc, path)?.into_expr()),
        Err(ParseFail::Syn(_error)) => no_path(alloc, text.span),
        Err(ParseFail::NoMemory) => Err(Fail::NoMemory),
    }
}

fn no_path<T>(alloc: Global, span: Span) -> Result<T>
    ensures { Answers (λ it. it) result (spec.no_path span) }
{
    let text = "must be a path if it's a string: expected a path";
    Err(Fail::Faults(Error::custom(alloc, text)?.with_span_at(span)))
}
