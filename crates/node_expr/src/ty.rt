//! Types.

use crate::expr::Expr;
use crate::generics::TypeParamBound;
use crate::path::{Path, QSelf};
use base_core::{Boxed, Items};
use tok_types::{Ident, Lifetime, Span, TokenStream};

/// A type: `Vec<T>`, `&'a T`, `[T; 8]`, `(A, B)`, `fn(A) -> B`, `dyn Trait`
#[cycle(nodes)]
#[derive_where(PartialEq, Eq, Hash)]
pub enum Type {
    /// `Vec<T>`, `<T as Trait>::Item`
    Path(TypePath),
    /// `&'a mut T`
    Reference(TypeReference),
    /// `*const T`, `*mut T`
    Ptr(TypePtr),
    /// `[T]`
    Slice(TypeSlice),
    /// `[T; 8]`
    Array(TypeArray),
    /// `()`, `(A,)`, `(A, B)`
    Tuple(TypeTuple),
    /// `(T)`
    Paren(TypeParen),
    /// A type in a group without delimiters; never from text.
    Group(TypeGroup),
    /// `fn(A) -> B`
    FnPtr(TypeFnPtr),
    /// `dyn Trait + 'a`
    TraitObject(TypeTraitObject),
    /// `impl Trait + 'a`
    ImplTrait(TypeImplTrait),
    /// `!`
    Never(TypeNever),
    /// `_`
    Infer(TypeInfer),
}

/// `Vec<T>`, or with a type in front `<T as Trait>::Item`
#[cycle(nodes)]
#[derive_where(PartialEq, Eq, Hash)]
pub struct TypePath {
    pub qself: Option<QSelf>,
    pub path: Path,
    #[derive_where(skip(EqHashOrd))]
    pub span: Span,
}

/// `&T`, `&'a T`, `&mut T`
#[derive_where(PartialEq, Eq, Hash; T)]
pub struct TypeReference<T = Type> {
    pub lifetime: Option<Lifetime>,
    pub mutable: bool,
    pub elem: Boxed<T>,
    #[derive_where(skip(EqHashOrd))]
    pub span: Span,
}

/// `*const T`, or mutable `*mut T`
#[derive_where(PartialEq, Eq, Hash; T)]
pub struct TypePtr<T = Type> {
    pub mutable: bool,
    pub elem: Boxed<T>,
    #[derive_where(skip(EqHashOrd))]
    pub span: Span,
}

/// `[T]`
#[derive_where(PartialEq, Eq, Hash; T)]
pub struct TypeSlice<T = Type> {
    pub elem: Boxed<T>,
    #[derive_where(skip(EqHashOrd))]
    pub span: Span,
}

/// `[T; 8]`
#[cycle(nodes)]
#[derive_where(PartialEq, Eq, Hash)]
pub struct TypeArray {
    pub elem: Boxed<Type>,
    pub len: Expr,
    #[derive_where(skip(EqHashOrd))]
    pub span: Span,
}

/// `()`, `(A,)`, `(A, B)`
#[derive_where(PartialEq, Eq, Hash; T)]
pub struct TypeTuple<T = Type> {
    pub elems: Items<T>,
    #[derive_where(skip(EqHashOrd))]
    pub span: Span,
}

/// `(T)`
#[derive_where(PartialEq, Eq, Hash; T)]
pub struct TypeParen<T = Type> {
    pub elem: Boxed<T>,
    #[derive_where(skip(EqHashOrd))]
    pub span: Span,
}

/// A type in a group without delimiters; never from text.
#[derive_where(PartialEq, Eq, Hash; T)]
pub struct TypeGroup<T = Type> {
    pub elem: Boxed<T>,
    #[derive_where(skip(EqHashOrd))]
    pub span: Span,
}

/// `for<'a> fn(&'a A, name: B) -> C`
#[derive_where(PartialEq, Eq, Hash; T)]
pub struct TypeFnPtr<T = Type> {
    pub lifetimes: Items<Lifetime>,
    pub inputs: Items<NamedArg<T>>,
    pub output: ReturnType<T>,
    #[derive_where(skip(EqHashOrd))]
    pub span: Span,
}

/// `dyn Trait + 'a`
#[derive_where(PartialEq, Eq, Hash; B)]
pub struct TypeTraitObject<B = TypeParamBound> {
    pub bounds: Items<B>,
    #[derive_where(skip(EqHashOrd))]
    pub span: Span,
}

/// `impl Trait + 'a`
#[derive_where(PartialEq, Eq, Hash; B)]
pub struct TypeImplTrait<B = TypeParamBound> {
    pub bounds: Items<B>,
    #[derive_where(skip(EqHashOrd))]
    pub span: Span,
}

/// `!`
#[derive_where(PartialEq, Eq, Hash)]
pub struct TypeNever {
    #[derive_where(skip(EqHashOrd))]
    pub span: Span,
}

/// `_`
#[derive_where(PartialEq, Eq, Hash)]
pub struct TypeInfer {
    #[derive_where(skip(EqHashOrd))]
    pub span: Span,
}

/// What follows the inputs of a function: nothing, or `-> T`
#[derive_where(PartialEq, Eq, Hash; T)]
pub enum ReturnType<T = Type> {
    Default,
    /// `-> T`
    Ty(Boxed<T>),
}

/// One input of a function pointer: `T`, or `name: T`
#[derive_where(PartialEq, Eq, Hash; T)]
pub struct NamedArg<T = Type> {
    pub name: Option<Ident>,
    pub ty: T,
    #[derive_where(skip(EqHashOrd))]
    pub span: Span,
}

/// One argument of a function: `name: T`, `&(mut a, _): T`. The pattern is kept as tokens.
#[derive_where(PartialEq, Eq, Hash)]
pub struct FnArg {
    pub pat: TokenStream,
    pub ty: Type,
    #[derive_where(skip(EqHashOrd))]
    pub span: Span,
}

impl Drop for Type {
    #[cycle(drops)]
    fn drop(self) {
        match self {
            Type::Path(_a) => {}
            Type::Reference(_a) => {}
            Type::Ptr(_a) => {}
            Type::Slice(_a) => {}
            Type::Array(_a) => {}
            Type::Tuple(_a) => {}
            Type::Paren(_a) => {}
            Type::Group(_a) => {}
            Type::FnPtr(_a) => {}
            Type::TraitObject(_a) => {}
            Type::ImplTrait(_a) => {}
            Type::Never(_a) => {}
            Type::Infer(_a) => {}
        }
    }
}

impl Drop for TypePath {
    #[cycle(drops)]
    fn drop(self) {
        let Self {
            qself: _qself,
            path: _path,
            span: _,
        } = self;
    }
}

impl<T: Drop> Drop for TypeReference<T> {
    fn drop(self) {
        let Self {
            lifetime: _lifetime,
            mutable: _,
            elem: _elem,
            span: _,
        } = self;
    }
}

impl<T: Drop> Drop for TypePtr<T> {
    fn drop(self) {
        let Self {
            mutable: _,
            elem: _elem,
            span: _,
        } = self;
    }
}

impl<T: Drop> Drop for TypeSlice<T> {
    fn drop(self) {
        let Self {
            elem: _elem,
            span: _,
        } = self;
    }
}

impl Drop for TypeArray {
    #[cycle(drops)]
    fn drop(self) {
        let Self {
            elem: _elem,
            len: _len,
            span: _,
        } = self;
    }
}

impl<T: Drop> Drop for TypeTuple<T> {
    fn drop(self) {
        let Self {
            elems: _elems,
            span: _,
        } = self;
    }
}

impl<T: Drop> Drop for TypeParen<T> {
    fn drop(self) {
        let Self {
            elem: _elem,
            span: _,
        } = self;
    }
}

impl<T: Drop> Drop for TypeGroup<T> {
    fn drop(self) {
        let Self {
            elem: _elem,
            span: _,
        } = self;
    }
}

impl<T: Drop> Drop for TypeFnPtr<T> {
    fn drop(self) {
        let Self {
            lifetimes: _lifetimes,
            inputs: _inputs,
            output: _output,
            span: _,
        } = self;
    }
}

impl<B: Drop> Drop for TypeTraitObject<B> {
    fn drop(self) {
        let Self {
            bounds: _bounds,
            span: _,
        } = self;
    }
}

impl<B: Drop> Drop for TypeImplTrait<B> {
    fn drop(self) {
        let Self {
            bounds: _bounds,
            span: _,
        } = self;
    }
}

impl Drop for TypeNever {
    fn drop(self) {
        let Self { span: _ } = self;
    }
}

impl Drop for TypeInfer {
    fn drop(self) {
        let Self { span: _ } = self;
    }
}

impl<T: Drop> Drop for ReturnType<T> {
    fn drop(self) {
        match self {
            ReturnType::Default => {}
            ReturnType::Ty(_a) => {}
        }
    }
}

impl<T: Drop> Drop for NamedArg<T> {
    fn drop(self) {
        let Self {
            name: _name,
            ty: _ty,
            span: _,
        } = self;
    }
}

impl Drop for FnArg {
    fn drop(self) {
        let Self {
            pat: _pat,
            ty: _ty,
            span: _,
        } = self;
    }
}
