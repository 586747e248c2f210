//! The spans of paths and their arguments.

ghost use Rattle.node_span.specs.Spanned.{argument_span, arguments_span, path_span, segment_span};

use crate::spanned::Spanned;
use node_expr::{GenericArgument, Path, PathArguments, PathSegment, QSelf};
use tok_types::Span;

impl Spanned for Path {
    ghost span_of = { path_span };

    fn spanned(&self) -> Span {
        self.span
    }
}

impl Spanned for PathSegment {
    ghost span_of = { segment_span };

    fn spanned(&self) -> Span {
        self.span
    }
}

impl Spanned for PathArguments {
    ghost span_of = { arguments_span };

    fn spanned(&self) -> Span {
        match self {
            PathArguments::None => Span::CallSite,
            PathArguments::AngleBracketed(arguments) => arguments.spanned(),
            PathArguments::Parenthesized { span, .. } => *span,
        }
    }
}

impl Spanned for GenericArgument {
    ghost span_of = { argument_span };

    fn spanned(&self) -> Span {
        match self {
            GenericArgument::Lifetime(it) => it.spanned(),
            GenericArgument::Ty(it) => it.spanned(),
            GenericArgument::Const(it) => it.spanned(),
            GenericArgument::AssocType { span, .. }
            | GenericArgument::AssocConst { span, .. }
            | GenericArgument::Constraint { span, .. } => *span,
        }
    }
}

impl<T> Spanned for QSelf<T> {
    ghost span_of = { λ it. it.span };

    fn spanned(&self) -> Span {
        self.span
    }
}
