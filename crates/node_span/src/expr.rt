//! The spans of expressions.

ghost use Rattle.node_span.specs.Spanned.{expr_path_span, expr_span, member_span};

use crate::spanned::Spanned;
use node_expr::{Expr, ExprArray, ExprClosure, ExprPath, ExprRange, Member};
use tok_types::Span;

impl Spanned for Expr {
    ghost span_of = { expr_span };

    fn spanned(&self) -> Span {
        match self {
            Expr::Lit(it) => it.spanned(),
            Expr::Path(it) => it.span,
            Expr::Array(it) => it.span,
            Expr::Range(it) => it.span,
            Expr::Closure(it) => it.span,
            Expr::Verbatim(tokens) => tokens.spanned(),
            Expr::Repeat { span, .. }
            | Expr::Tuple { span, .. }
            | Expr::Paren { span, .. }
            | Expr::Group { span, .. }
            | Expr::Unary { span, .. }
            | Expr::Reference { span, .. }
            | Expr::Binary { span, .. }
            | Expr::Call { span, .. }
            | Expr::MethodCall { span, .. }
            | Expr::Field { span, .. }
            | Expr::Index { span, .. }
            | Expr::Try { span, .. }
            | Expr::Block { span, .. }
            | Expr::Infer { span } => *span,
        }
    }
}

impl Spanned for ExprPath {
    ghost span_of = { expr_path_span };

    fn spanned(&self) -> Span {
        self.span
    }
}

impl<E> Spanned for ExprArray<E> {
    ghost span_of = { λ it. it.span };

    fn spanned(&self) -> Span {
        self.span
    }
}

impl<E> Spanned for ExprRange<E> {
    ghost span_of = { λ it. it.span };

    fn spanned(&self) -> Span {
        self.span
    }
}

impl<E> Spanned for ExprClosure<E> {
    ghost span_of = { λ it. it.span };

    fn spanned(&self) -> Span {
        self.span
    }
}

impl Spanned for Member {
    ghost span_of = { member_span };

    fn spanned(&self) -> Span {
        match self {
            Member::Named(it) => it.span,
            Member::Unnamed(it) => it.span,
        }
    }
}
