//! Generics that are read from a node.

ghost use Rattle.std.specs.Prelude.{map};
ghost use Rattle.error_core.specs.Answers.{Answers};
ghost use Rattle.error_core.specs.Each.{each};
ghost use Rattle.body_core.specs.Generics as spec;

use crate::ast::generics::{GenericParam, Generics};
use crate::from_generic_param::FromGenericParam;
use crate::from_generics::FromGenerics;
use crate::from_type_param::FromTypeParam;
use base_core::{Items, TryClone};
use error_core::Result;
use node_core::TypeParam;
use std::alloc::Global;

impl<T: FromTypeParam> FromTypeParam for GenericParam<T> {
    ghost use Rattle.error_fault.specs.Outcome.{on_value};
    ghost use Rattle.node_core.specs.declared.generics.ConstParam.{ConstParam};
    ghost use Rattle.node_core.specs.declared.generics.LifetimeParam.{LifetimeParam};
    ghost use Rattle.body_core.specs.declared.ast.generics.GenericParam.{GenericParam};
    ghost use Rattle.body_core.specs.declared.ast.generics.GenericParam.TheVariants.{Ty};
    ghost use Rattle.body_core.specs.Generics.{seen_param};

    ghost Seen = { GenericParam T.Seen LifetimeParam ConstParam };

    ghost seen = { seen_param T.seen };

    ghost meaning = { λ it. on_value Ty (T.meaning it) };

    fn from_type_param(alloc: Global, type_param: &TypeParam) -> Result<GenericParam<T>> {
        Ok(GenericParam::Ty(T::from_type_param(alloc, type_param)?))
    }
}

impl<T: FromTypeParam> FromGenericParam for GenericParam<T> {
    ghost use Rattle.node_core.specs.declared.generics.ConstParam.{ConstParam};
    ghost use Rattle.node_core.specs.declared.generics.LifetimeParam.{LifetimeParam};
    ghost use Rattle.body_core.specs.declared.ast.generics.GenericParam.{GenericParam};
    ghost use Rattle.body_core.specs.Generics.{seen_param, param_meaning};

    ghost Seen = { GenericParam T.Seen LifetimeParam ConstParam };

    ghost seen = { seen_param T.seen };

    ghost meaning = { param_meaning T.meaning };

    fn from_generic_param(
        alloc: Global,
        param: &node_core::GenericParam,
    ) -> Result<GenericParam<T>> {
        match param {
            node_core::GenericParam::Ty(it) => {
                Ok(GenericParam::Ty(T::from_type_param(alloc, it)?))
            }
            node_core::GenericParam::Lifetime(it) => {
                Ok(GenericParam::Lifetime(it.try_clone(alloc)?))
            }
            node_core::GenericParam::Const(it) => Ok(GenericParam::Const(it.try_clone(alloc)?)),
        }
    }
}

/// The parameters, which end at the first that has faults, and the where clause.
impl<P: FromGenericParam + Drop> FromGenerics for Generics<P> {
    ghost use Rattle.node_core.specs.declared.generics.WhereClause.{WhereClause};
    ghost use Rattle.body_core.specs.declared.ast.generics.Generics.{Generics};
    ghost use Rattle.body_core.specs.Generics.{seen_generics, generics_meaning};

    ghost Seen = { Generics P.Seen WhereClause };

    ghost seen = { seen_generics P.seen };

    ghost meaning = { generics_meaning P.meaning };

    fn from_generics(alloc: Global, generics: &node_core::Generics) -> Result<Generics<P>> {
        let params = read_params(alloc, generics.params.as_slice())?;
        let where_clause = generics.where_clause.try_clone(alloc)?;
        Ok(Generics {
            params,
            where_clause,
        })
    }
}

fn read_params<P: FromGenericParam + Drop>(
    alloc: Global,
    params: &[node_core::GenericParam],
) -> Result<Items<P>>
    ensures { Answers (map P.seen) result (each P.meaning params.now) }
{
    let mut read = Items::new(alloc);
    for param in params {
        read.push(P::from_generic_param(alloc, param)?)?;
    }
    Ok(read)
}
