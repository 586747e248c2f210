//! The value of a meta as an expression, for `with` of a field.

ghost use Rattle.error_core.specs.Answers.{Answers};
ghost use Rattle.util_core.specs.Exprs as spec;

use base_core::TryClone;
use error_core::{Error, Fail, Result};
use meta_core::FromMeta;
use node_core::Meta;
use node_expr::Expr;
use node_span::Spanned;
use std::alloc::Global;

/// The value as it stands; a string stays a string. A word and a list have none.
pub fn preserve_str_literal(alloc: Global, meta: &Meta) -> Result<Expr>
    ensures { Answers (λ it. it) result (spec.preserved meta.now) }
{
    match meta {
        Meta::NameValue(pair) => Ok(pair.value.try_clone(alloc)?),
        other => no_value(alloc, other),
    }
}

/// The value, in which a string is parsed, and another literal is refused. A word and a list have none.
pub fn parse_str_literal(alloc: Global, meta: &Meta) -> Result<Expr>
    ensures { Answers (λ it. it) result (spec.parsed meta.now) }
{
    match meta {
        Meta::NameValue(pair) => match &pair.value {
            Expr::Lit(lit) => Expr::from_value(alloc, lit),
            other => Ok(other.try_clone(alloc)?),
        },
        other => no_value(alloc, other),
    }
}

fn no_value(alloc: Global, meta: &Meta) -> Result<Expr>
    ensures { Answers (λ it. it) result (spec.no_value meta.now) }
{
    let format = match meta {
        Meta::Path(_) => "path",
        _ => "list",
    };
    let error = Error::unsupported_format(alloc, format)?;
    Err(Fail::Faults(error.with_span_at(meta.spanned())))
}
