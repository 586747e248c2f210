//! Attributes and what they hold.

ghost use Rattle.std.specs.Prelude.{◌≡◌};
ghost use Rattle.node_core.specs.Meta.{path_of_meta};

use node_expr::{Expr, Path};
use tok_types::{Delimiter, Span, TokenStream};

/// `#[meta]`
#[derive_where(PartialEq, Eq, Hash)]
pub struct Attribute {
    pub meta: Meta,
    #[derive_where(skip(EqHashOrd))]
    pub span: Span,
}

/// What an attribute holds: `path`, `path(tokens)`, or `path = value`
#[derive_where(PartialEq, Eq, Hash)]
pub enum Meta {
    /// `path`
    Path(Path),
    /// `path(tokens)`
    List(MetaList),
    /// `path = value`
    NameValue(MetaNameValue),
}

/// `path(tokens)`, `path[tokens]`, or `path{tokens}`
#[derive_where(PartialEq, Eq, Hash)]
pub struct MetaList {
    pub path: Path,
    pub delimiter: Delimiter,
    pub tokens: TokenStream,
    #[derive_where(skip(EqHashOrd))]
    pub span: Span,
}

/// `path = value`
#[derive_where(PartialEq, Eq, Hash)]
pub struct MetaNameValue {
    pub path: Path,
    #[derive_where(skip(EqHashOrd))]
    pub eq_span: Span,
    pub value: Expr,
    #[derive_where(skip(EqHashOrd))]
    pub span: Span,
}

impl Meta {
    /// The path in front: the whole of a word, what stands before a list or before `=`.
    pub fn path(&self) -> &Path
        ensures { result.now ≡ path_of_meta self.now }
    {
        match self {
            Meta::Path(path) => path,
            Meta::List(list) => &list.path,
            Meta::NameValue(pair) => &pair.path,
        }
    }
}

impl Drop for Attribute {
    fn drop(self) {
        let Self {
            meta: _meta,
            span: _,
        } = self;
    }
}

impl Drop for Meta {
    fn drop(self) {
        match self {
            Meta::Path(_a) => {}
            Meta::List(_a) => {}
            Meta::NameValue(_a) => {}
        }
    }
}

impl Drop for MetaList {
    fn drop(self) {
        let Self {
            path: _path,
            delimiter: _,
            tokens: _tokens,
            span: _,
        } = self;
    }
}

impl Drop for MetaNameValue {
    fn drop(self) {
        let Self {
            path: _path,
            eq_span: _,
            value: _value,
            span: _,
        } = self;
    }
}
