//! A whole item: a struct, an enum or a union.

use crate::attr::Attribute;
use crate::data::{Data, Visibility};
use crate::generics::Generics;
use base_core::Items;
use tok_types::{Ident, Span};

/// An item that a derive reads: `#[attr] pub struct Name<T> { a: T }`, an `enum` or a `union`
#[derive_where(PartialEq, Eq, Hash)]
pub struct DeriveInput {
    pub attrs: Items<Attribute>,
    pub vis: Visibility,
    pub ident: Ident,
    pub generics: Generics,
    pub body: Data,
    #[derive_where(skip(EqHashOrd))]
    pub span: Span,
}

impl Drop for DeriveInput {
    fn drop(self) {
        let Self {
            attrs: _attrs,
            vis: _vis,
            ident: _ident,
            generics: _generics,
            body: _body,
            span: _,
        } = self;
    }
}
