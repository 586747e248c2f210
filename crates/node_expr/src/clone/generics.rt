//! Clones of bounds.

ghost use Rattle.std.specs.Prelude.{◌≡◌, IfOk};

use crate::generics::{TraitBound, TypeParamBound};
use base_core::{Items, Mem, TryClone};
use std::alloc::Global;

impl TryClone for TypeParamBound {
    #[cycle(clone)]
    fn try_clone(&self, alloc: Global) -> Mem<TypeParamBound> {
        match self {
            TypeParamBound::Trait(bound) => Ok(TypeParamBound::Trait(bound.try_clone(alloc)?)),
            TypeParamBound::Lifetime(it) => Ok(TypeParamBound::Lifetime(it.try_clone(alloc)?)),
        }
    }
}

impl TryClone for TraitBound {
    #[cycle(clone)]
    fn try_clone(&self, alloc: Global) -> Mem<TraitBound> {
        Ok(TraitBound {
            maybe: self.maybe,
            lifetimes: self.lifetimes.try_clone(alloc)?,
            path: self.path.try_clone(alloc)?,
            span: self.span,
        })
    }
}

#[cycle(clone)]
pub(super) fn clone_bounds(
    alloc: Global,
    bounds: &Items<TypeParamBound>,
) -> Mem<Items<TypeParamBound>>
    ensures { IfOk result (λ copies. copies ≡ bounds.now) }
{
    let mut copies = Items::new(alloc);
    for bound in bounds.as_slice() {
        let copy = bound.try_clone(alloc)?;
        copies.push(copy)?;
    }
    Ok(copies)
}
