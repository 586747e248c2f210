//! Clones of parameters and `where` clauses.

use crate::generics::{
    ConstParam, GenericParam, Generics, LifetimeParam, TypeParam, WhereClause, WherePredicate,
};
use base_core::{Mem, TryClone};
use std::alloc::Global;

impl TryClone for Generics {
    fn try_clone(&self, alloc: Global) -> Mem<Generics> {
        Ok(Generics {
            params: self.params.try_clone(alloc)?,
            where_clause: self.where_clause.try_clone(alloc)?,
            span: self.span,
        })
    }
}

impl TryClone for GenericParam {
    fn try_clone(&self, alloc: Global) -> Mem<GenericParam> {
        match self {
            GenericParam::Lifetime(param) => Ok(GenericParam::Lifetime(param.try_clone(alloc)?)),
            GenericParam::Ty(param) => Ok(GenericParam::Ty(param.try_clone(alloc)?)),
            GenericParam::Const(param) => Ok(GenericParam::Const(param.try_clone(alloc)?)),
        }
    }
}

impl TryClone for LifetimeParam {
    fn try_clone(&self, alloc: Global) -> Mem<LifetimeParam> {
        Ok(LifetimeParam {
            attrs: self.attrs.try_clone(alloc)?,
            lifetime: self.lifetime.try_clone(alloc)?,
            bounds: self.bounds.try_clone(alloc)?,
            span: self.span,
        })
    }
}

impl TryClone for TypeParam {
    fn try_clone(&self, alloc: Global) -> Mem<TypeParam> {
        Ok(TypeParam {
            attrs: self.attrs.try_clone(alloc)?,
            ident: self.ident.try_clone(alloc)?,
            bounds: self.bounds.try_clone(alloc)?,
            default: self.default.try_clone(alloc)?,
            span: self.span,
        })
    }
}

impl TryClone for ConstParam {
    fn try_clone(&self, alloc: Global) -> Mem<ConstParam> {
        Ok(ConstParam {
            attrs: self.attrs.try_clone(alloc)?,
            ident: self.ident.try_clone(alloc)?,
            ty: self.ty.try_clone(alloc)?,
            default: self.default.try_clone(alloc)?,
            span: self.span,
        })
    }
}

impl TryClone for WhereClause {
    fn try_clone(&self, alloc: Global) -> Mem<WhereClause> {
        Ok(WhereClause {
            predicates: self.predicates.try_clone(alloc)?,
            span: self.span,
        })
    }
}

impl TryClone for WherePredicate {
    fn try_clone(&self, alloc: Global) -> Mem<WherePredicate> {
        match self {
            WherePredicate::Lifetime {
                lifetime,
                bounds,
                span,
            } => Ok(WherePredicate::Lifetime {
                lifetime: lifetime.try_clone(alloc)?,
                bounds: bounds.try_clone(alloc)?,
                span: *span,
            }),
            WherePredicate::Ty {
                lifetimes,
                bounded_ty,
                bounds,
                span,
            } => Ok(WherePredicate::Ty {
                lifetimes: lifetimes.try_clone(alloc)?,
                bounded_ty: bounded_ty.try_clone(alloc)?,
                bounds: bounds.try_clone(alloc)?,
                span: *span,
            }),
        }
    }
}
