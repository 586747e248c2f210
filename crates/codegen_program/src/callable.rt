//! What an option may name to be called.

ghost use Rattle.std.specs.Prelude.{◌≡◌, IfOk};
ghost use Rattle.print_core.specs.Nodes.{expr_tokens};
ghost use Rattle.codegen_program.specs.Callables as spec;

use base_core::{Items, Mem, TryClone};
use node_expr::{Expr, ExprClosure, ExprPath, Path};
use node_span::Spanned;
use print_core::ToTokens;
use std::alloc::Global;
use tok_types::TokenTree;

/// A path or a closure, as in `with = a::b` and `with = |item| item`; a string is a path.
#[derive_where(PartialEq, Eq, Hash)]
pub struct Callable {
    pub call: Expr,
}

impl Drop for Callable {
    fn drop(self) {
        let Self { call: _call } = self;
    }
}

impl Callable {
    /// What the path names.
    pub fn from_path(_alloc: Global, path: Path) -> Mem<Callable>
        ensures { IfOk result (λ it. it.call ≡ spec.path_call path) }
    {
        let call = path_call(path);
        Ok(Callable { call })
    }

    /// What is called.
    pub fn as_ref(&self) -> &Expr
        ensures { result.now ≡ self.now.call }
    {
        &self.call
    }

    /// What is called, alone.
    pub fn into_expr(self) -> Expr
        ensures { result ≡ self.call }
    {
        let Self { call } = self;
        call
    }
}

impl From<ExprPath> for Callable {
    ghost use Rattle.std.specs.Prelude.{◌≡◌};
    ghost use Rattle.node_expr.specs.declared.expr.Expr.TheVariants as expr;

    ghost from_gives = { λ path it. it.call ≡ expr.Path path };

    fn from(path: ExprPath) -> Callable {
        let call = Expr::Path(path);
        Callable { call }
    }
}

impl From<ExprClosure> for Callable {
    ghost use Rattle.std.specs.Prelude.{◌≡◌};
    ghost use Rattle.node_expr.specs.declared.expr.Expr.TheVariants as expr;

    ghost from_gives = { λ closure it. it.call ≡ expr.Closure closure };

    fn from(closure: ExprClosure) -> Callable {
        let call = Expr::Closure(closure);
        Callable { call }
    }
}

impl TryClone for Callable {
    fn try_clone(&self, alloc: Global) -> Mem<Callable> {
        let call = self.call.try_clone(alloc)?;
        Ok(Callable { call })
    }
}

fn path_call(path: Path) -> Expr
    ensures { result ≡ spec.path_call path }
{
    let span = path.spanned();
    let qself = None;
    Expr::Path(ExprPath { qself, path, span })
}

impl ToTokens for Callable {
    ghost printing = { λ it. expr_tokens it.call };

    fn print(&self, alloc: Global, trees: &mut Items<TokenTree>) -> Mem<()> {
        self.call.print(alloc, trees)
    }
}
