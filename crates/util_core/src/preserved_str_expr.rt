//! An expression in which a string is not parsed.

ghost use Rattle.std.specs.Prelude.{◌≡◌};
ghost use Rattle.print_core.specs.Nodes.{expr_tokens};

use base_core::{Items, Mem, TryClone};
use error_core::Result;
use meta_core::{Call, FromMeta};
use node_expr::Expr;
use print_core::ToTokens;
use std::alloc::Global;
use tok_types::TokenTree;

/// Any expression, as it stands: a string stays a string, and an invisible group stays around it.
#[derive(PartialEq, Eq, Hash)]
pub struct PreservedStrExpr(pub Expr);

impl Drop for PreservedStrExpr {
    fn drop(self) {
        let Self(_expr) = self;
    }
}

impl PreservedStrExpr {
    fn into_expr(self) -> Expr
        ensures { result ≡ self.0 }
    {
        let Self(expr) = self;
        expr
    }
}

impl From<Expr> for PreservedStrExpr {
    ghost use Rattle.std.specs.Prelude.{◌≡◌};

    ghost from_gives = { λ expr it. it.0 ≡ expr };

    fn from(expr: Expr) -> PreservedStrExpr {
        PreservedStrExpr(expr)
    }
}

impl From<PreservedStrExpr> for Expr {
    ghost use Rattle.std.specs.Prelude.{◌≡◌};

    ghost from_gives = { λ it expr. expr ≡ it.0 };

    fn from(it: PreservedStrExpr) -> Expr {
        it.into_expr()
    }
}

impl TryClone for PreservedStrExpr {
    fn try_clone(&self, alloc: Global) -> Mem<PreservedStrExpr> {
        let expr = self.0.try_clone(alloc)?;
        Ok(PreservedStrExpr(expr))
    }
}

impl ToTokens for PreservedStrExpr {
    ghost printing = { λ it. expr_tokens it.0 };

    fn print(&self, alloc: Global, trees: &mut Items<TokenTree>) -> Mem<()> {
        self.0.print(alloc, trees)
    }
}

impl FromMeta for PreservedStrExpr {
    ghost use Rattle.node_expr.specs.declared.expr.Expr.{Expr};
    ghost use Rattle.util_core.specs.Exprs.{preserved_cells};

    ghost Seen = { Expr };

    ghost seen = { λ it. it.0 };

    ghost cells = { preserved_cells };

    fn cell(alloc: Global, call: Call<'_>) -> Result<Option<PreservedStrExpr>> {
        match call {
            Call::Expr(expr) => {
                let expr = expr.try_clone(alloc)?;
                Ok(Some(PreservedStrExpr(expr)))
            }
            _ => Ok(None),
        }
    }
}
