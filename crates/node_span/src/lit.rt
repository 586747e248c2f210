//! The spans of literals.

ghost use Rattle.node_span.specs.Spanned.{lit_span};

use crate::spanned::Spanned;
use node_expr::{Lit, LitBool, LitByte, LitByteStr, LitChar, LitFloat, LitInt, LitStr};
use tok_types::Span;

impl Spanned for LitStr {
    ghost span_of = { λ it. it.span };

    fn spanned(&self) -> Span {
        self.span
    }
}

impl Spanned for LitByteStr {
    ghost span_of = { λ it. it.span };

    fn spanned(&self) -> Span {
        self.span
    }
}

impl Spanned for LitByte {
    ghost span_of = { λ it. it.span };

    fn spanned(&self) -> Span {
        self.span
    }
}

impl Spanned for LitChar {
    ghost span_of = { λ it. it.span };

    fn spanned(&self) -> Span {
        self.span
    }
}

impl Spanned for LitInt {
    ghost span_of = { λ it. it.span };

    fn spanned(&self) -> Span {
        self.span
    }
}

impl Spanned for LitFloat {
    ghost span_of = { λ it. it.span };

    fn spanned(&self) -> Span {
        self.span
    }
}

impl Spanned for LitBool {
    ghost span_of = { λ it. it.span };

    fn spanned(&self) -> Span {
        self.span
    }
}

impl Spanned for Lit {
    ghost span_of = { lit_span };

    fn spanned(&self) -> Span {
        match self {
            Lit::Str(it) => it.span,
            Lit::ByteStr(it) => it.span,
            Lit::Byte(it) => it.span,
            Lit::Char(it) => it.span,
            Lit::Int(it) => it.span,
            Lit::Float(it) => it.span,
            Lit::Bool(it) => it.span,
            Lit::Verbatim(it) => it.span,
        }
    }
}
