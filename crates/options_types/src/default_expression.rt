//! What stands where no item gives a value, as an option says it.

use base_core::{Mem, TryClone};
use error_core::{Error, Fail, Result};
use node_core::Meta;
use node_expr::Expr;
use node_span::Spanned;
use std::alloc::Global;
use tok_types::Span;
use util_core::{Call, Callable, FromMeta};

/// The value of a field, or of a whole receiver, where no item gives one.
pub enum DefaultExpression {
    /// The member of the receiver's default. No option says so: a field inherits it.
    Inherit,
    /// `default = path::to::function`, `default = || value()`
    Explicit(Callable),
    /// The default of the type: `default` alone.
    Trait {
        /// The word that asks for it.
        span: Span,
    },
}

impl Drop for DefaultExpression {
    fn drop(self) {
        match self {
            DefaultExpression::Inherit => {}
            DefaultExpression::Explicit(_callable) => {}
            DefaultExpression::Trait { span: _ } => {}
        }
    }
}

impl TryClone for DefaultExpression {
    fn try_clone(&self, alloc: Global) -> Mem<DefaultExpression> {
        match self {
            DefaultExpression::Inherit => Ok(DefaultExpression::Inherit),
            DefaultExpression::Explicit(callable) => {
                Ok(DefaultExpression::Explicit(callable.try_clone(alloc)?))
            }
            DefaultExpression::Trait { span } => Ok(DefaultExpression::Trait { span: *span }),
        }
    }
}

/// A word, or what is called.
impl FromMeta for DefaultExpression {
    ghost use Rattle.options_types.specs.DefaultExpression.{default_cells};
    ghost use Rattle.options_types.specs.declared.default_expression.DefaultExpression.{DefaultExpression};

    ghost Seen = { DefaultExpression };

    ghost seen = { λ it. it };

    ghost cells = { default_cells };

    fn cell(alloc: Global, call: Call<'_>) -> Result<Option<DefaultExpression>> {
        let callable = match call {
            Call::Value(lit) => Callable::from_value(alloc, lit)?,
            Call::Expr(expr) => Callable::from_expr(alloc, expr)?,
            Call::Meta(Meta::Path(path)) => {
                let span = path.spanned();
                return Ok(Some(DefaultExpression::Trait { span }));
            }
            Call::Meta(Meta::List(_)) => {
                return Err(Fail::Faults(Error::unsupported_format(alloc, "list")?));
            }
            Call::Meta(Meta::NameValue(pair)) => Callable::from_expr(alloc, &pair.value)?,
            _ => return Ok(None),
        };
        Ok(Some(DefaultExpression::Explicit(callable)))
    }
}
