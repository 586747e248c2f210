//! Tokens: marks, literals, groups and lists of them.

use crate::ident::{Ident, Lifetime};
use crate::span::Span;
use base_core::{Boxed, Items, Text};

/// What a group stands between; `None` for a group that no text shows.
#[derive(Clone, Copy, Debug, PartialEq, Eq, Hash)]
pub enum Delimiter {
    Parenthesis,
    Bracket,
    Brace,
    None,
}

/// A punctuation mark. It is joint where the next token is a mark that starts at its end.
#[derive_where(PartialEq, Eq, Hash)]
pub struct Punct {
    pub ch: char,
    pub joint: bool,
    #[derive_where(skip(EqHashOrd))]
    pub span: Span,
}

/// A literal as it is written.
#[derive_where(PartialEq, Eq, Hash)]
pub struct Literal {
    pub text: Text,
    #[derive_where(skip(EqHashOrd))]
    pub span: Span,
}

/// The tokens between two delimiters. The span is from the first delimiter to the last.
#[cycle(tokens)]
#[derive_where(PartialEq, Eq, Hash)]
pub struct Group {
    pub delimiter: Delimiter,
    pub stream: TokenStream,
    #[derive_where(skip(EqHashOrd))]
    pub span: Span,
}

#[cycle(tokens)]
#[derive_where(PartialEq, Eq, Hash)]
pub enum TokenTree {
    Ident(Ident),
    Lifetime(Lifetime),
    Punct(Punct),
    Literal(Literal),
    Group(Boxed<Group>),
}

#[cycle(tokens)]
#[derive_where(PartialEq, Eq, Hash)]
pub struct TokenStream {
    pub trees: Items<TokenTree>,
}

impl Drop for Punct {
    fn drop(self) {
        let Self {
            ch: _,
            joint: _,
            span: _,
        } = self;
    }
}

impl Drop for Literal {
    fn drop(self) {
        let Self {
            text: _text,
            span: _,
        } = self;
    }
}

impl Drop for Group {
    #[cycle(drops)]
    fn drop(self) {
        let Self {
            delimiter: _,
            stream: _stream,
            span: _,
        } = self;
    }
}

impl Drop for TokenTree {
    #[cycle(drops)]
    fn drop(self) {
        match self {
            TokenTree::Ident(_a) => {}
            TokenTree::Lifetime(_a) => {}
            TokenTree::Punct(_a) => {}
            TokenTree::Literal(_a) => {}
            TokenTree::Group(_a) => {}
        }
    }
}

impl Drop for TokenStream {
    #[cycle(drops)]
    fn drop(self) {
        let Self { trees: _trees } = self;
    }
}
