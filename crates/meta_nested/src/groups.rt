//! Invisible groups around an expression, which a macro's `$value:expr` leaves.

ghost use Rattle.std.specs.Prelude.{◌≡◌};
ghost use Rattle.meta_nested.specs.Groups.{without_groups};

use node_expr::Expr;

/// The expression without the invisible groups around it.
pub fn without_groups(expr: &Expr) -> &Expr
    ensures { result.now ≡ without_groups expr.now }
{
    match expr {
        Expr::Group { expr, .. } => without_groups(expr.get()),
        other => other,
    }
}
