//! Generics whose parameters are of any type.

ghost use Rattle.std.specs.Prelude.{◌≡◌};
ghost use Rattle.std.specs.List.{filter_map};
ghost use Rattle.body_core.specs.Generics as spec;
ghost use Rattle.body_core.specs.TypeParams.{types_left};

use base_core::{Items, Mem, TryClone};
use node_core::{ConstParam, LifetimeParam, TypeParam, WhereClause};
use std::alloc::Global;
use std::iter::FusedIterator;
use std::slice;

/// A generic parameter, asked for its kind.
pub trait GenericParamExt {
    ghost use Rattle.std.specs.Prelude.{◌≡◌, Option};
    ghost use Rattle.std.specs.Option.{option_copied};

    type TypeParam;

    type LifetimeParam;

    type ConstParam;

    ghost type_param: { Self → Option Self.TypeParam };

    ghost lifetime_param: { Self → Option Self.LifetimeParam };

    ghost const_param: { Self → Option Self.ConstParam };

    /// The type parameter that this is.
    fn as_type_param(&self) -> Option<&Self::TypeParam>
        ensures { option_copied result ≡ type_param self.now };

    /// The lifetime parameter that this is.
    fn as_lifetime_param(&self) -> Option<&Self::LifetimeParam>
        ensures { option_copied result ≡ lifetime_param self.now };

    /// The const parameter that this is.
    fn as_const_param(&self) -> Option<&Self::ConstParam>
        ensures { option_copied result ≡ const_param self.now };
}

impl GenericParamExt for node_core::GenericParam {
    type TypeParam = TypeParam;

    type LifetimeParam = LifetimeParam;

    type ConstParam = ConstParam;

    ghost type_param = { spec.node_type };

    ghost lifetime_param = { spec.node_lifetime };

    ghost const_param = { spec.node_const };

    fn as_type_param(&self) -> Option<&TypeParam> {
        match self {
            node_core::GenericParam::Ty(it) => Some(it),
            _ => None,
        }
    }

    fn as_lifetime_param(&self) -> Option<&LifetimeParam> {
        match self {
            node_core::GenericParam::Lifetime(it) => Some(it),
            _ => None,
        }
    }

    fn as_const_param(&self) -> Option<&ConstParam> {
        match self {
            node_core::GenericParam::Const(it) => Some(it),
            _ => None,
        }
    }
}

/// A type parameter alone.
impl GenericParamExt for TypeParam {
    ghost use Rattle.std.specs.Prelude.{Some, None};

    type TypeParam = TypeParam;

    type LifetimeParam = ();

    type ConstParam = ();

    ghost type_param = { Some };

    ghost lifetime_param = { λ _. None };

    ghost const_param = { λ _. None };

    fn as_type_param(&self) -> Option<&TypeParam> {
        Some(self)
    }

    fn as_lifetime_param(&self) -> Option<&()> {
        None
    }

    fn as_const_param(&self) -> Option<&()> {
        None
    }
}

/// A generic parameter, each kind of any type.
#[derive(Drop)]
#[derive_where(PartialEq, Eq; T, L, C)]
pub enum GenericParam<T = TypeParam, L = LifetimeParam, C = ConstParam> {
    Ty(T),
    Lifetime(L),
    Const(C),
}

impl<T, L, C> GenericParamExt for GenericParam<T, L, C> {
    ghost use Rattle.body_core.specs.Generics.{type_of, lifetime_of, const_of};

    type TypeParam = T;

    type LifetimeParam = L;

    type ConstParam = C;

    ghost type_param = { type_of };

    ghost lifetime_param = { lifetime_of };

    ghost const_param = { const_of };

    fn as_type_param(&self) -> Option<&T> {
        match self {
            GenericParam::Ty(it) => Some(it),
            _ => None,
        }
    }

    fn as_lifetime_param(&self) -> Option<&L> {
        match self {
            GenericParam::Lifetime(it) => Some(it),
            _ => None,
        }
    }

    fn as_const_param(&self) -> Option<&C> {
        match self {
            GenericParam::Const(it) => Some(it),
            _ => None,
        }
    }
}

impl<T: TryClone, L: TryClone, C: TryClone> TryClone for GenericParam<T, L, C> {
    fn try_clone(&self, alloc: Global) -> Mem<GenericParam<T, L, C>> {
        match self {
            GenericParam::Ty(it) => Ok(GenericParam::Ty(it.try_clone(alloc)?)),
            GenericParam::Lifetime(it) => Ok(GenericParam::Lifetime(it.try_clone(alloc)?)),
            GenericParam::Const(it) => Ok(GenericParam::Const(it.try_clone(alloc)?)),
        }
    }
}

/// Parameters of any type, and a where clause.
#[derive(Drop)]
#[derive_where(PartialEq, Eq; P, W)]
pub struct Generics<P, W = WhereClause> {
    pub params: Items<P>,
    pub where_clause: Option<W>,
}

impl<P: GenericParamExt, W> Generics<P, W> {
    /// The type parameters in order.
    pub fn type_params(&self) -> TypeParams<'_, P>
        ensures { types_left P.type_param result ≡ filter_map P.type_param self.now.params }
    {
        TypeParams {
            params: self.params.as_slice().iter(),
        }
    }
}

impl<P: TryClone + Drop, W: TryClone + Drop> TryClone for Generics<P, W> {
    fn try_clone(&self, alloc: Global) -> Mem<Generics<P, W>> {
        let params = self.params.try_clone(alloc)?;
        let where_clause = self.where_clause.try_clone(alloc)?;
        Ok(Generics {
            params,
            where_clause,
        })
    }
}

/// The type parameters among generic parameters, in order.
#[derive(Drop)]
pub struct TypeParams<'a, P> {
    params: slice::Iter<'a, P>,
}

impl<'a, T: 'a, P: GenericParamExt<TypeParam = T>> Iterator for TypeParams<'a, P> {
    ghost use Rattle.std.specs.Iterator.{YieldsFirstRef, item_count};
    ghost use Rattle.body_core.specs.TypeParams.{types_left};

    type Item = &'a T;

    ghost next_gives = { YieldsFirstRef (types_left P.type_param) };

    ghost remaining = { item_count (types_left P.type_param) };

    fn next(&mut self) -> Option<&'a T> {
        while let Some(param) = self.params.next() {
            if let Some(it) = param.as_type_param() {
                return Some(it);
            }
        }
        None
    }
}

impl<'a, T: 'a, P: GenericParamExt<TypeParam = T>> FusedIterator for TypeParams<'a, P> {}
