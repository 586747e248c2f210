//! The spans of parameters and `where` clauses.

ghost use Rattle.node_span.specs.Spanned.{bound_span, generics_span, param_span, predicate_span, trait_bound_span};

use crate::spanned::Spanned;
use node_core::{
    ConstParam, GenericParam, Generics, LifetimeParam, TypeParam, WhereClause, WherePredicate,
};
use node_expr::{TraitBound, TypeParamBound};
use tok_types::Span;

impl Spanned for Generics {
    ghost span_of = { generics_span };

    fn spanned(&self) -> Span {
        if self.params.is_empty() {
            return Span::CallSite;
        }
        self.span
    }
}

impl Spanned for GenericParam {
    ghost span_of = { param_span };

    fn spanned(&self) -> Span {
        match self {
            GenericParam::Lifetime(it) => it.span,
            GenericParam::Ty(it) => it.span,
            GenericParam::Const(it) => it.span,
        }
    }
}

impl Spanned for LifetimeParam {
    ghost span_of = { λ it. it.span };

    fn spanned(&self) -> Span {
        self.span
    }
}

impl Spanned for TypeParam {
    ghost span_of = { λ it. it.span };

    fn spanned(&self) -> Span {
        self.span
    }
}

impl Spanned for ConstParam {
    ghost span_of = { λ it. it.span };

    fn spanned(&self) -> Span {
        self.span
    }
}

impl Spanned for TypeParamBound {
    ghost span_of = { bound_span };

    fn spanned(&self) -> Span {
        match self {
            TypeParamBound::Trait(it) => it.span,
            TypeParamBound::Lifetime(it) => it.spanned(),
        }
    }
}

impl Spanned for TraitBound {
    ghost span_of = { trait_bound_span };

    fn spanned(&self) -> Span {
        self.span
    }
}

impl Spanned for WhereClause {
    ghost span_of = { λ it. it.span };

    fn spanned(&self) -> Span {
        self.span
    }
}

impl Spanned for WherePredicate {
    ghost span_of = { predicate_span };

    fn spanned(&self) -> Span {
        match self {
            WherePredicate::Lifetime { span, .. } | WherePredicate::Ty { span, .. } => *span,
        }
    }
}
