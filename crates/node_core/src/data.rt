//! Visibilities, fields, variants and the bodies of items.

use crate::attr::Attribute;
use base_core::Items;
use node_expr::{Expr, Path, Type};
use tok_types::{Ident, Span};

/// Nothing, `pub`, `pub(crate)`, or `pub(in path)`
#[derive_where(PartialEq, Eq, Hash)]
pub enum Visibility {
    /// Nothing is written.
    Inherited,
    /// `pub`
    Public {
        #[derive_where(skip(EqHashOrd))]
        span: Span,
    },
    /// `pub(crate)`, `pub(self)`, `pub(super)`, or with `in` before the path `pub(in path)`
    Restricted {
        in_token: bool,
        path: Path,
        #[derive_where(skip(EqHashOrd))]
        span: Span,
    },
}

/// `pub name: T` in braces, `pub T` in parentheses
#[derive_where(PartialEq, Eq, Hash)]
pub struct Field {
    pub attrs: Items<Attribute>,
    pub vis: Visibility,
    pub ident: Option<Ident>,
    pub ty: Type,
    #[derive_where(skip(EqHashOrd))]
    pub span: Span,
}

/// `{ a: A, b: B }`, `(A, B)`, or nothing
#[derive_where(PartialEq, Eq, Hash)]
pub enum Fields {
    /// `{ a: A, b: B }`
    Named(FieldsNamed),
    /// `(A, B)`
    Unnamed(FieldsUnnamed),
    /// Nothing is written.
    Unit,
}

/// `{ a: A, b: B }`
#[derive_where(PartialEq, Eq, Hash)]
pub struct FieldsNamed {
    pub named: Items<Field>,
    #[derive_where(skip(EqHashOrd))]
    pub span: Span,
}

/// `(A, B)`
#[derive_where(PartialEq, Eq, Hash)]
pub struct FieldsUnnamed {
    pub unnamed: Items<Field>,
    #[derive_where(skip(EqHashOrd))]
    pub span: Span,
}

/// `Name`, `Name { a: A }`, `Name(A, B)`, or `Name = 1`
#[derive_where(PartialEq, Eq, Hash)]
pub struct Variant {
    pub attrs: Items<Attribute>,
    pub ident: Ident,
    pub fields: Fields,
    pub discriminant: Option<Expr>,
    #[derive_where(skip(EqHashOrd))]
    pub span: Span,
}

/// The body of a `struct`, an `enum` or a `union`
#[derive_where(PartialEq, Eq, Hash)]
pub enum Data {
    Struct(DataStruct),
    Enum(DataEnum),
    Union(DataUnion),
}

/// `{ a: A, b: B }`, `(A, B);`, or `;` after `struct Name`
#[derive_where(PartialEq, Eq, Hash)]
pub struct DataStruct {
    pub fields: Fields,
    #[derive_where(skip(EqHashOrd))]
    pub span: Span,
}

/// `{ A, B(T), C { c: T } }` after `enum Name`
#[derive_where(PartialEq, Eq, Hash)]
pub struct DataEnum {
    pub variants: Items<Variant>,
    #[derive_where(skip(EqHashOrd))]
    pub span: Span,
}

/// `{ a: A, b: B }` after `union Name`
#[derive_where(PartialEq, Eq, Hash)]
pub struct DataUnion {
    pub fields: FieldsNamed,
    #[derive_where(skip(EqHashOrd))]
    pub span: Span,
}

impl Drop for Visibility {
    fn drop(self) {
        match self {
            Visibility::Inherited => {}
            Visibility::Public { span: _ } => {}
            Visibility::Restricted {
                in_token: _,
                path: _path,
                span: _,
            } => {}
        }
    }
}

impl Drop for Field {
    fn drop(self) {
        let Self {
            attrs: _attrs,
            vis: _vis,
            ident: _ident,
            ty: _ty,
            span: _,
        } = self;
    }
}

impl Drop for Fields {
    fn drop(self) {
        match self {
            Fields::Named(_a) => {}
            Fields::Unnamed(_a) => {}
            Fields::Unit => {}
        }
    }
}

impl Drop for FieldsNamed {
    fn drop(self) {
        let Self {
            named: _named,
            span: _,
        } = self;
    }
}

impl Drop for FieldsUnnamed {
    fn drop(self) {
        let Self {
            unnamed: _unnamed,
            span: _,
        } = self;
    }
}

impl Drop for Variant {
    fn drop(self) {
        let Self {
            attrs: _attrs,
            ident: _ident,
            fields: _fields,
            discriminant: _discriminant,
            span: _,
        } = self;
    }
}

impl Drop for Data {
    fn drop(self) {
        match self {
            Data::Struct(_a) => {}
            Data::Enum(_a) => {}
            Data::Union(_a) => {}
        }
    }
}

impl Drop for DataStruct {
    fn drop(self) {
        let Self {
            fields: _fields,
            span: _,
        } = self;
    }
}

impl Drop for DataEnum {
    fn drop(self) {
        let Self {
            variants: _variants,
            span: _,
        } = self;
    }
}

impl Drop for DataUnion {
    fn drop(self) {
        let Self {
            fields: _fields,
            span: _,
        } = self;
    }
}
