//! The body of a struct or of an enum.

ghost use Rattle.std.specs.Prelude.{◌≡◌, IfOk, is_some, option_map};
ghost use Rattle.std.specs.Option.{option_copied};
ghost use Rattle.error_fault.specs.Outcome.{Value};
ghost use Rattle.error_core.specs.Answers.{Answers};
ghost use Rattle.error_core.specs.Changes.{leaf};
ghost use Rattle.body_core.specs.Data as spec;

use crate::ast::fields::Fields;
use crate::ast::members::{map_members, references};
use base_core::{Items, Mem, TryClone};
use error_core::{Error, Fail, Result};
use std::alloc::Global;

/// The body of an enum, whose variants are read as `V`, or of a struct, whose members are read as `F`.
#[derive(Drop)]
#[derive_where(PartialEq, Eq; V, F)]
pub enum Data<V, F> {
    Enum(Items<V>),
    Struct(Fields<F>),
}

impl<V, F> Data<V, F> {
    /// No variants, or no members in the node's style.
    pub fn empty_from(alloc: Global, src: &node_core::Data) -> Data<V, F>
        requires { ¬ spec.IsUnion src.now }
        ensures { spec.empty_data src.now ≡ Value result }
    {
        match src {
            node_core::Data::Struct(it) => Data::Struct(Fields::empty_from(alloc, &it.fields)),
            node_core::Data::Enum(_) => Data::Enum(Items::new(alloc)),
            node_core::Data::Union(_) => unreachable!(),
        }
    }

    /// References to the variants or to the members.
    pub fn as_ref(&self, alloc: Global) -> Mem<Data<&V, &F>>
        ensures { IfOk result (λ it. spec.seen_data (λ variant. variant.now) (λ member. member.now) it ≡ self.now) }
    {
        match self {
            Data::Enum(variants) => Ok(Data::Enum(references(alloc, variants.as_slice())?)),
            Data::Struct(fields) => Ok(Data::Struct(fields.as_ref(alloc)?)),
        }
    }

    /// A struct's members, as the function makes them.
    pub fn map_struct<U, T: FnMut(Fields<F>) -> Fields<U>>(self, mut map: T) -> Data<V, U>
        requires { T.IsAlwaysCallable map }
        ensures { spec.MapsStruct (T.post map) self result }
    {
        match self {
            Data::Enum(variants) => Data::Enum(variants),
            Data::Struct(fields) => Data::Struct(map(fields)),
        }
    }

    /// The members of a struct.
    pub fn as_struct(&self) -> Option<&Fields<F>>
        ensures { option_copied result ≡ spec.struct_of self.now }
    {
        match self {
            Data::Enum(_) => None,
            Data::Struct(fields) => Some(fields),
        }
    }

    /// The variants of an enum.
    pub fn as_enum(&self) -> Option<&[V]>
        ensures { option_copied result ≡ spec.enum_of self.now }
    {
        match self {
            Data::Enum(variants) => Some(variants.as_slice()),
            Data::Struct(_) => None,
        }
    }

    pub fn is_enum(&self) -> bool
        ensures { result ≡ is_some (spec.enum_of self.now) }
    {
        match self {
            Data::Enum(_) => true,
            Data::Struct(_) => false,
        }
    }

    pub fn is_struct(&self) -> bool
        ensures { result ≡ is_some (spec.struct_of self.now) }
    {
        !self.is_enum()
    }
}

impl<V: Drop, F: Drop> Data<V, F> {
    /// No variants, or no members in the node's style. Fails at a union.
    pub fn try_empty_from(alloc: Global, src: &node_core::Data) -> Result<Data<V, F>>
        ensures { Answers (λ it. it) result (spec.empty_data src.now) }
    {
        match src {
            node_core::Data::Union(_) => Err(Fail::Faults(union_error(alloc)?)),
            other => Ok(Data::empty_from(alloc, other)),
        }
    }

    /// What the function answers at each variant of an enum. A struct stays.
    pub fn map_enum_variants<U: Drop, T: FnMut(V) -> U>(
        self,
        alloc: Global,
        map: T,
    ) -> Mem<Data<U, F>>
        requires { T.IsAlwaysCallable map }
        ensures { IfOk result (λ it. spec.MapsVariants T.step map self it) }
    {
        match self {
            Data::Enum(variants) => Ok(Data::Enum(map_members(alloc, variants, map)?)),
            Data::Struct(fields) => Ok(Data::Struct(fields)),
        }
    }

    /// What the function answers at each member of a struct, in its style and at its place. An enum stays.
    pub fn map_struct_fields<U: Drop, T: FnMut(F) -> U>(
        self,
        alloc: Global,
        map: T,
    ) -> Mem<Data<V, U>>
        requires { T.IsAlwaysCallable map }
        ensures { IfOk result (λ it. spec.MapsFields T.step map self it) }
    {
        match self {
            Data::Enum(variants) => Ok(Data::Enum(variants)),
            Data::Struct(fields) => Ok(Data::Struct(fields.map(alloc, map)?)),
        }
    }

    /// The members of a struct, by value.
    pub fn take_struct(self) -> Option<Fields<F>>
        ensures { result ≡ spec.struct_of self }
    {
        match self {
            Data::Enum(_) => None,
            Data::Struct(fields) => Some(fields),
        }
    }

    /// The variants of an enum, by value.
    pub fn take_enum(self) -> Option<Vec<V>>
        ensures { option_map (λ variants. variants.items) result ≡ spec.enum_of self }
    {
        match self {
            Data::Enum(variants) => Some(variants.into_vec()),
            Data::Struct(_) => None,
        }
    }
}

/// The fault of a union. It has no place, since it concerns the derive as a whole.
pub(crate) fn union_error(alloc: Global) -> Mem<Error>
    ensures { IfOk result (λ error. error ≡ leaf spec.no_unions) }
{
    Error::custom(alloc, "Unions are not supported")
}

impl<V: TryClone + Drop, F: TryClone + Drop> TryClone for Data<V, F> {
    fn try_clone(&self, alloc: Global) -> Mem<Data<V, F>> {
        match self {
            Data::Enum(variants) => Ok(Data::Enum(variants.try_clone(alloc)?)),
            Data::Struct(fields) => Ok(Data::Struct(fields.try_clone(alloc)?)),
        }
    }
}
