//! Parameters of items and `where` clauses.

use crate::attr::Attribute;
use base_core::Items;
use node_expr::{Expr, Type, TypeParamBound};
use tok_types::{Ident, Lifetime, Span};

/// `<'a: 'b, T: Copy = u8, const N: usize = 8>`, with `where T: 'a` where it is written
#[derive_where(PartialEq, Eq, Hash)]
pub struct Generics {
    pub params: Items<GenericParam>,
    pub where_clause: Option<WhereClause>,
    #[derive_where(skip(EqHashOrd))]
    pub span: Span,
}

/// `'a: 'b`, `T: Copy = u8`, or `const N: usize = 8`
#[derive_where(PartialEq, Eq, Hash)]
pub enum GenericParam {
    /// `'a: 'b`
    Lifetime(LifetimeParam),
    /// `T: Copy = u8`
    Ty(TypeParam),
    /// `const N: usize = 8`
    Const(ConstParam),
}

/// `'a`, `'a: 'b + 'c`
#[derive_where(PartialEq, Eq, Hash)]
pub struct LifetimeParam {
    pub attrs: Items<Attribute>,
    pub lifetime: Lifetime,
    pub bounds: Items<Lifetime>,
    #[derive_where(skip(EqHashOrd))]
    pub span: Span,
}

/// `T`, `T: Copy + 'a`, `T = u8`
#[derive_where(PartialEq, Eq, Hash)]
pub struct TypeParam {
    pub attrs: Items<Attribute>,
    pub ident: Ident,
    pub bounds: Items<TypeParamBound>,
    pub default: Option<Type>,
    #[derive_where(skip(EqHashOrd))]
    pub span: Span,
}

/// `const N: usize`, `const N: usize = 8`
#[derive_where(PartialEq, Eq, Hash)]
pub struct ConstParam {
    pub attrs: Items<Attribute>,
    pub ident: Ident,
    pub ty: Type,
    pub default: Option<Expr>,
    #[derive_where(skip(EqHashOrd))]
    pub span: Span,
}

/// `where 'a: 'b, T: Copy`
#[derive_where(PartialEq, Eq, Hash)]
pub struct WhereClause {
    pub predicates: Items<WherePredicate>,
    #[derive_where(skip(EqHashOrd))]
    pub span: Span,
}

/// `'a: 'b`, or `for<'c> &'c T: Copy`
#[derive_where(PartialEq, Eq, Hash)]
pub enum WherePredicate {
    /// `'a: 'b + 'c`
    Lifetime {
        lifetime: Lifetime,
        bounds: Items<Lifetime>,
        #[derive_where(skip(EqHashOrd))]
        span: Span,
    },
    /// `for<'c> &'c T: Copy`
    Ty {
        lifetimes: Items<Lifetime>,
        bounded_ty: Type,
        bounds: Items<TypeParamBound>,
        #[derive_where(skip(EqHashOrd))]
        span: Span,
    },
}

impl Drop for Generics {
    fn drop(self) {
        let Self {
            params: _params,
            where_clause: _where_clause,
            span: _,
        } = self;
    }
}

impl Drop for GenericParam {
    fn drop(self) {
        match self {
            GenericParam::Lifetime(_a) => {}
            GenericParam::Ty(_a) => {}
            GenericParam::Const(_a) => {}
        }
    }
}

impl Drop for LifetimeParam {
    fn drop(self) {
        let Self {
            attrs: _attrs,
            lifetime: _lifetime,
            bounds: _bounds,
            span: _,
        } = self;
    }
}

impl Drop for TypeParam {
    fn drop(self) {
        let Self {
            attrs: _attrs,
            ident: _ident,
            bounds: _bounds,
            default: _default,
            span: _,
        } = self;
    }
}

impl Drop for ConstParam {
    fn drop(self) {
        let Self {
            attrs: _attrs,
            ident: _ident,
            ty: _ty,
            default: _default,
            span: _,
        } = self;
    }
}

impl Drop for WhereClause {
    fn drop(self) {
        let Self {
            predicates: _predicates,
            span: _,
        } = self;
    }
}

impl Drop for WherePredicate {
    fn drop(self) {
        match self {
            WherePredicate::Lifetime {
                lifetime: _lifetime,
                bounds: _bounds,
                span: _,
            } => {}
            WherePredicate::Ty {
                lifetimes: _lifetimes,
                bounded_ty: _bounded_ty,
                bounds: _bounds,
                span: _,
            } => {}
        }
    }
}
