//! Literals by their kinds, with their values.

ghost use Rattle.std.specs.Prelude.{◌≡◌};
ghost use Rattle.node_expr.specs.Kinds.{string_in};

use base_core::{Items, Text};
use tok_types::{Literal, Span};

/// A literal: `"text"`, `b"bytes"`, `b'x'`, `'x'`, `1`, `-1.5`, `true`.
#[derive_where(PartialEq, Eq, Hash)]
pub enum Lit {
    Str(LitStr),
    ByteStr(LitByteStr),
    Byte(LitByte),
    Char(LitChar),
    Int(LitInt),
    Float(LitFloat),
    Bool(LitBool),
    /// A token of none of these kinds; never from text.
    Verbatim(Literal),
}

/// `"text"` or `r#"text"#`. The value has its escapes read.
#[derive_where(PartialEq, Eq, Hash)]
pub struct LitStr {
    pub value: Text,
    pub token: Literal,
    #[derive_where(skip(EqHashOrd))]
    pub span: Span,
}

/// `b"bytes"` or `br#"bytes"#`. The value has its escapes read.
#[derive_where(PartialEq, Eq, Hash)]
pub struct LitByteStr {
    pub value: Items<u8>,
    pub token: Literal,
    #[derive_where(skip(EqHashOrd))]
    pub span: Span,
}

/// `b'x'`
#[derive_where(PartialEq, Eq, Hash)]
pub struct LitByte {
    pub value: u8,
    pub token: Literal,
    #[derive_where(skip(EqHashOrd))]
    pub span: Span,
}

/// `'x'`
#[derive_where(PartialEq, Eq, Hash)]
pub struct LitChar {
    pub value: char,
    pub token: Literal,
    #[derive_where(skip(EqHashOrd))]
    pub span: Span,
}

/// `1`, `0xff_u8`, or with a minus `-1`. The token has the digits and the suffix, without the minus.
#[derive_where(PartialEq, Eq, Hash)]
pub struct LitInt {
    pub negative: bool,
    /// The number without its sign.
    pub digits: u128,
    pub token: Literal,
    #[derive_where(skip(EqHashOrd))]
    pub span: Span,
}

/// `1.5`, `1e3_f32`, or with a minus `-1.5`. The token is without the minus.
#[derive_where(PartialEq, Eq, Hash)]
pub struct LitFloat {
    pub negative: bool,
    pub token: Literal,
    #[derive_where(skip(EqHashOrd))]
    pub span: Span,
}

/// `true` or `false`
#[derive_where(PartialEq, Eq, Hash)]
pub struct LitBool {
    pub value: bool,
    #[derive_where(skip(EqHashOrd))]
    pub span: Span,
}

impl Lit {
    /// The string that the literal is.
    pub fn into_str(self) -> Option<LitStr>
        ensures { result ≡ string_in self }
    {
        match self {
            Lit::Str(text) => Some(text),
            _ => None,
        }
    }
}

impl Drop for Lit {
    fn drop(self) {
        match self {
            Lit::Str(_a) => {}
            Lit::ByteStr(_a) => {}
            Lit::Byte(_a) => {}
            Lit::Char(_a) => {}
            Lit::Int(_a) => {}
            Lit::Float(_a) => {}
            Lit::Bool(_a) => {}
            Lit::Verbatim(_a) => {}
        }
    }
}

impl Drop for LitStr {
    fn drop(self) {
        let Self {
            value: _value,
            token: _token,
            span: _,
        } = self;
    }
}

impl Drop for LitByteStr {
    fn drop(self) {
        let Self {
            value: _value,
            token: _token,
            span: _,
        } = self;
    }
}

impl Drop for LitByte {
    fn drop(self) {
        let Self {
            value: _,
            token: _token,
            span: _,
        } = self;
    }
}

impl Drop for LitChar {
    fn drop(self) {
        let Self {
            value: _,
            token: _token,
            span: _,
        } = self;
    }
}

impl Drop for LitInt {
    fn drop(self) {
        let Self {
            negative: _,
            digits: _digits,
            token: _token,
            span: _,
        } = self;
    }
}

impl Drop for LitFloat {
    fn drop(self) {
        let Self {
            negative: _,
            token: _token,
            span: _,
        } = self;
    }
}

impl Drop for LitBool {
    fn drop(self) {
        let Self { value: _, span: _ } = self;
    }
}
