//! The spans of types.

ghost use Rattle.node_span.specs.Spanned.{return_span, type_array_span, type_path_span, type_span};

use crate::spanned::Spanned;
use node_expr::{
    FnArg, NamedArg, ReturnType, Type, TypeArray, TypeFnPtr, TypeGroup, TypeImplTrait, TypeInfer,
    TypeNever, TypeParen, TypePath, TypePtr, TypeReference, TypeSlice, TypeTraitObject, TypeTuple,
};
use tok_types::Span;

impl Spanned for Type {
    ghost span_of = { type_span };

    fn spanned(&self) -> Span {
        match self {
            Type::Path(it) => it.span,
            Type::Reference(it) => it.span,
            Type::Ptr(it) => it.span,
            Type::Slice(it) => it.span,
            Type::Array(it) => it.span,
            Type::Tuple(it) => it.span,
            Type::Paren(it) => it.span,
            Type::Group(it) => it.span,
            Type::FnPtr(it) => it.span,
            Type::TraitObject(it) => it.span,
            Type::ImplTrait(it) => it.span,
            Type::Never(it) => it.span,
            Type::Infer(it) => it.span,
        }
    }
}

impl Spanned for TypePath {
    ghost span_of = { type_path_span };

    fn spanned(&self) -> Span {
        self.span
    }
}

impl<T> Spanned for TypeReference<T> {
    ghost span_of = { λ it. it.span };

    fn spanned(&self) -> Span {
        self.span
    }
}

impl<T> Spanned for TypePtr<T> {
    ghost span_of = { λ it. it.span };

    fn spanned(&self) -> Span {
        self.span
    }
}

impl<T> Spanned for TypeSlice<T> {
    ghost span_of = { λ it. it.span };

    fn spanned(&self) -> Span {
        self.span
    }
}

impl Spanned for TypeArray {
    ghost span_of = { type_array_span };

    fn spanned(&self) -> Span {
        self.span
    }
}

impl<T> Spanned for TypeTuple<T> {
    ghost span_of = { λ it. it.span };

    fn spanned(&self) -> Span {
        self.span
    }
}

impl<T> Spanned for TypeParen<T> {
    ghost span_of = { λ it. it.span };

    fn spanned(&self) -> Span {
        self.span
    }
}

impl<T> Spanned for TypeGroup<T> {
    ghost span_of = { λ it. it.span };

    fn spanned(&self) -> Span {
        self.span
    }
}

impl<T> Spanned for TypeFnPtr<T> {
    ghost span_of = { λ it. it.span };

    fn spanned(&self) -> Span {
        self.span
    }
}

impl<B> Spanned for TypeTraitObject<B> {
    ghost span_of = { λ it. it.span };

    fn spanned(&self) -> Span {
        self.span
    }
}

impl<B> Spanned for TypeImplTrait<B> {
    ghost span_of = { λ it. it.span };

    fn spanned(&self) -> Span {
        self.span
    }
}

impl Spanned for TypeNever {
    ghost span_of = { λ it. it.span };

    fn spanned(&self) -> Span {
        self.span
    }
}

impl Spanned for TypeInfer {
    ghost span_of = { λ it. it.span };

    fn spanned(&self) -> Span {
        self.span
    }
}

impl<T: Spanned> Spanned for ReturnType<T> {
    ghost span_of = { return_span T.span_of };

    fn spanned(&self) -> Span {
        match self {
            ReturnType::Default => Span::CallSite,
            ReturnType::Ty(it) => it.spanned(),
        }
    }
}

impl<T> Spanned for NamedArg<T> {
    ghost span_of = { λ it. it.span };

    fn spanned(&self) -> Span {
        self.span
    }
}

impl Spanned for FnArg {
    ghost span_of = { λ it. it.span };

    fn spanned(&self) -> Span {
        self.span
    }
}
