//! What parameters and predicates mention.

ghost use Rattle.body_usage.specs.Items.{const_param_mentions, lifetime_param_mentions, param_mentions, predicate_mentions, type_param_mentions};

use crate::bound::push_bounds;
use crate::list::push_all;
use crate::mentions::Mentions;
use crate::searched::Searched;
use base_core::Mem;
use node_core::{ConstParam, GenericParam, LifetimeParam, TypeParam, WherePredicate};

impl Searched for GenericParam {
    ghost mentions = { param_mentions };

    fn push_mentions<'n>(&'n self, in_qself: bool, found: &mut Mentions<'n>) -> Mem<()> {
        match self {
            GenericParam::Lifetime(it) => it.push_mentions(in_qself, found),
            GenericParam::Ty(it) => it.push_mentions(in_qself, found),
            GenericParam::Const(it) => it.push_mentions(in_qself, found),
        }
    }
}

impl Searched for LifetimeParam {
    ghost mentions = { lifetime_param_mentions };

    fn push_mentions<'n>(&'n self, in_qself: bool, found: &mut Mentions<'n>) -> Mem<()> {
        found.push_lifetime(&self.lifetime, in_qself)?;
        push_all(self.bounds.as_slice(), in_qself, found)
    }
}

impl Searched for TypeParam {
    ghost mentions = { type_param_mentions };

    fn push_mentions<'n>(&'n self, in_qself: bool, found: &mut Mentions<'n>) -> Mem<()> {
        push_bounds(self.bounds.as_slice(), in_qself, found)
    }
}

impl Searched for ConstParam {
    ghost mentions = { const_param_mentions };

    fn push_mentions<'n>(&'n self, in_qself: bool, found: &mut Mentions<'n>) -> Mem<()> {
        self.ty.push_mentions(in_qself, found)
    }
}

impl Searched for WherePredicate {
    ghost mentions = { predicate_mentions };

    fn push_mentions<'n>(&'n self, in_qself: bool, found: &mut Mentions<'n>) -> Mem<()> {
        match self {
            WherePredicate::Lifetime {
                lifetime,
                bounds,
                ..
            } => {
                found.push_lifetime(lifetime, in_qself)?;
                push_all(bounds.as_slice(), in_qself, found)
            }
            WherePredicate::Ty {
                lifetimes,
                bounded_ty,
                bounds,
                ..
            } => {
                push_all(lifetimes.as_slice(), in_qself, found)?;
                bounded_ty.push_mentions(in_qself, found)?;
                push_bounds(bounds.as_slice(), in_qself, found)
            }
        }
    }
}
