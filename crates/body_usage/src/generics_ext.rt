//! What an item declares.

ghost use Rattle.std.specs.Prelude.{◌++◌, OnOk};
ghost use Rattle.tok_types.specs.declared.ident.Ident.{Ident};
ghost use Rattle.tok_types.specs.declared.ident.Lifetime.{Lifetime};
ghost use Rattle.body_usage.specs.Parameters.{declared_ident, declared_lifetime, lifetimes_of, type_params_of};
ghost use Rattle.body_usage.specs.Selected.{IsSetOf};

use crate::sets::{IdentSet, LifetimeSet, add_copy};
use base_core::Mem;
use node_core::{GenericParam, Generics};
use std::alloc::Global;
use std::collections::HashSet;
use tok_types::{Ident, Lifetime};

/// The parameters that a list of them declares. Their use is another matter: see
/// [`UsesTypeParams`](crate::UsesTypeParams) and [`UsesLifetimes`](crate::UsesLifetimes).
pub trait GenericsExt {
    ghost use Rattle.std.specs.Prelude.{List, IfOk};
    ghost use Rattle.tok_types.specs.declared.ident.Ident.{Ident};
    ghost use Rattle.tok_types.specs.declared.ident.Lifetime.{Lifetime};
    ghost use Rattle.body_usage.specs.Selected.{IsSetOf};

    ghost type_params: { Self → List Ident };

    ghost lifetimes: { Self → List Lifetime };

    /// The lifetimes that are declared.
    fn declared_lifetimes(&self, alloc: Global) -> Mem<LifetimeSet>
        ensures { IfOk result (λ declared. IsSetOf ⟦<Lifetime as PartialEq>⟧.eq (lifetimes self.now) declared.keys) };

    /// The type parameters that are declared.
    fn declared_type_params(&self, alloc: Global) -> Mem<IdentSet>
        ensures { IfOk result (λ declared. IsSetOf ⟦<Ident as PartialEq>⟧.eq (type_params self.now) declared.keys) };
}

impl GenericsExt for Generics {
    ghost type_params = { type_params_of };

    ghost lifetimes = { lifetimes_of };

    fn declared_lifetimes(&self, alloc: Global) -> Mem<LifetimeSet> {
        let mut declared = HashSet::new(alloc);
        for param in self.params.as_slice() {
            declare_lifetime(alloc, param, &mut declared)?;
        }
        Ok(declared)
    }

    fn declared_type_params(&self, alloc: Global) -> Mem<IdentSet> {
        let mut declared = HashSet::new(alloc);
        for param in self.params.as_slice() {
            declare_type_param(alloc, param, &mut declared)?;
        }
        Ok(declared)
    }
}

fn declare_lifetime(alloc: Global, param: &GenericParam, declared: &mut LifetimeSet) -> Mem<()>
    ensures { OnOk result (IsSetOf ⟦<Lifetime as PartialEq>⟧.eq (declared.old.keys ++ declared_lifetime param.now) declared.new.keys) }
{
    match param {
        GenericParam::Lifetime(it) => add_copy(alloc, &it.lifetime, declared),
        GenericParam::Ty(_) => Ok(()),
        GenericParam::Const(_) => Ok(()),
    }
}

fn declare_type_param(alloc: Global, param: &GenericParam, declared: &mut IdentSet) -> Mem<()>
    ensures { OnOk result (IsSetOf ⟦<Ident as PartialEq>⟧.eq (declared.old.keys ++ declared_ident param.now) declared.new.keys) }
{
    match param {
        GenericParam::Ty(it) => add_copy(alloc, &it.ident, declared),
        GenericParam::Lifetime(_) => Ok(()),
        GenericParam::Const(_) => Ok(()),
    }
}
