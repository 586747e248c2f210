//! Paths and the arguments in them.

use crate::expr::Expr;
use crate::generics::TypeParamBound;
use crate::ty::{ReturnType, Type};
use base_core::{Boxed, Items};
use tok_types::{Ident, Lifetime, Span};

/// `std::vec::Vec<T>`, or with a leading colon `::std::vec::Vec<T>`
#[cycle(nodes)]
#[derive_where(PartialEq, Eq, Hash)]
pub struct Path {
    pub leading_colon: bool,
    pub segments: Items<PathSegment>,
    #[derive_where(skip(EqHashOrd))]
    pub span: Span,
}

/// One segment of a path: `Vec<T>` in `std::vec::Vec<T>`
#[cycle(nodes)]
#[derive_where(PartialEq, Eq, Hash)]
pub struct PathSegment {
    pub ident: Ident,
    pub arguments: PathArguments,
    #[derive_where(skip(EqHashOrd))]
    pub span: Span,
}

/// What follows the name of a segment: nothing, `<'a, T>`, or `(A, B) -> C`
#[cycle(nodes)]
#[derive_where(PartialEq, Eq, Hash)]
pub enum PathArguments {
    None,
    /// `<'a, T>`
    AngleBracketed(Items<GenericArgument>),
    /// `(A, B) -> C`
    Parenthesized {
        inputs: Items<Type>,
        output: ReturnType,
        #[derive_where(skip(EqHashOrd))]
        span: Span,
    },
}

/// One of the arguments in `<'a, T, 8, Item = u8, N = 8, I: Copy>`
#[cycle(nodes)]
#[derive_where(PartialEq, Eq, Hash)]
pub enum GenericArgument {
    /// `'a`
    Lifetime(Lifetime),
    /// `T`
    Ty(Type),
    /// A literal or a block: `8`, `{ N + 1 }`
    Const(Expr),
    /// `Item = u8`
    AssocType {
        ident: Ident,
        ty: Type,
        #[derive_where(skip(EqHashOrd))]
        span: Span,
    },
    /// `N = 8`
    AssocConst {
        ident: Ident,
        value: Expr,
        #[derive_where(skip(EqHashOrd))]
        span: Span,
    },
    /// `I: Copy`
    Constraint {
        ident: Ident,
        bounds: Items<TypeParamBound>,
        #[derive_where(skip(EqHashOrd))]
        span: Span,
    },
}

/// `<Vec<T> as a::b::Trait>` before `::Item`: the type, and how many segments of the whole path
/// `a::b::Trait::Item` stand after `as` (here 3).
///
/// Without `as`, as in `<Vec<T>>::Item`, the position is 0 and the path has a leading colon.
#[derive_where(PartialEq, Eq, Hash; T)]
pub struct QSelf<T = Type> {
    pub ty: Boxed<T>,
    pub position: usize,
    #[derive_where(skip(EqHashOrd))]
    pub span: Span,
}

impl Drop for Path {
    #[cycle(drops)]
    fn drop(self) {
        let Self {
            leading_colon: _,
            segments: _segments,
            span: _,
        } = self;
    }
}

impl Drop for PathSegment {
    #[cycle(drops)]
    fn drop(self) {
        let Self {
            ident: _ident,
            arguments: _arguments,
            span: _,
        } = self;
    }
}

impl Drop for PathArguments {
    #[cycle(drops)]
    fn drop(self) {
        match self {
            PathArguments::None => {}
            PathArguments::AngleBracketed(_a) => {}
            PathArguments::Parenthesized {
                inputs: _inputs,
                output: _output,
                span: _,
            } => {}
        }
    }
}

impl Drop for GenericArgument {
    #[cycle(drops)]
    fn drop(self) {
        match self {
            GenericArgument::Lifetime(_a) => {}
            GenericArgument::Ty(_a) => {}
            GenericArgument::Const(_a) => {}
            GenericArgument::AssocType {
                ident: _ident,
                ty: _ty,
                span: _,
            } => {}
            GenericArgument::AssocConst {
                ident: _ident,
                value: _value,
                span: _,
            } => {}
            GenericArgument::Constraint {
                ident: _ident,
                bounds: _bounds,
                span: _,
            } => {}
        }
    }
}

impl<T: Drop> Drop for QSelf<T> {
    fn drop(self) {
        let Self {
            ty: _ty,
            position: _,
            span: _,
        } = self;
    }
}
