//! The spans of tokens.

ghost use Rattle.node_span.specs.Spanned.{group_span, lifetime_span, stream_span, tree_span};

use crate::spanned::Spanned;
use tok_types::{Group, Ident, Lifetime, Literal, Punct, Span, TokenStream, TokenTree};

impl Spanned for Ident {
    ghost span_of = { λ it. it.span };

    fn spanned(&self) -> Span {
        self.span
    }
}

impl Spanned for Lifetime {
    ghost span_of = { lifetime_span };

    fn spanned(&self) -> Span {
        self.ident.span
    }
}

impl Spanned for Punct {
    ghost span_of = { λ it. it.span };

    fn spanned(&self) -> Span {
        self.span
    }
}

impl Spanned for Literal {
    ghost span_of = { λ it. it.span };

    fn spanned(&self) -> Span {
        self.span
    }
}

impl Spanned for Group {
    ghost span_of = { group_span };

    fn spanned(&self) -> Span {
        self.span
    }
}

impl Spanned for TokenTree {
    ghost span_of = { tree_span };

    fn spanned(&self) -> Span {
        match self {
            TokenTree::Ident(it) => it.span,
            TokenTree::Lifetime(it) => it.ident.span,
            TokenTree::Punct(it) => it.span,
            TokenTree::Literal(it) => it.span,
            TokenTree::Group(it) => it.get().span,
        }
    }
}

impl Spanned for TokenStream {
    ghost span_of = { stream_span };

    fn spanned(&self) -> Span {
        self.trees.spanned()
    }
}
