//! The trait of types that are read from a type parameter.

use base_core::TryClone;
use error_core::Result;
use node_core::{Attribute, TypeParam};
use std::alloc::Global;
use tok_types::Ident;

/// A type that is read from a type parameter.
pub trait FromTypeParam: Sized {
    ghost use Rattle.error_fault.specs.Outcome.{Outcome};
    ghost use Rattle.error_core.specs.Answers.{Answers};
    ghost use Rattle.node_core.specs.declared.generics.TypeParam.{TypeParam};

    /// What contracts see of a value.
    ghost Seen: { Type 0 };

    ghost seen: { Self → Seen };

    /// What a type parameter is to the type: a value as it is seen, or the faults.
    ghost meaning: { TypeParam → Outcome Seen };

    fn from_type_param(alloc: Global, type_param: &TypeParam) -> Result<Self>
        ensures { Answers seen result (meaning type_param.now) };
}

/// Nothing is read.
impl FromTypeParam for () {
    ghost use Rattle.error_fault.specs.Outcome.{Value};

    ghost Seen = { Unit {0} };

    ghost seen = { λ it. it };

    ghost meaning = { λ _. Value tt };

    fn from_type_param(_alloc: Global, _type_param: &TypeParam) -> Result<()> {
        Ok(())
    }
}

/// The whole of it.
impl FromTypeParam for TypeParam {
    ghost use Rattle.error_fault.specs.Outcome.{Value};
    ghost use Rattle.node_core.specs.declared.generics.TypeParam.{TypeParam};

    ghost Seen = { TypeParam };

    ghost seen = { λ it. it };

    ghost meaning = { Value };

    fn from_type_param(alloc: Global, type_param: &TypeParam) -> Result<TypeParam> {
        Ok(type_param.try_clone(alloc)?)
    }
}

/// The name.
impl FromTypeParam for Ident {
    ghost use Rattle.error_fault.specs.Outcome.{Value};
    ghost use Rattle.tok_types.specs.declared.ident.Ident.{Ident};

    ghost Seen = { Ident };

    ghost seen = { λ it. it };

    ghost meaning = { λ it. Value it.ident };

    fn from_type_param(alloc: Global, type_param: &TypeParam) -> Result<Ident> {
        Ok(type_param.ident.try_clone(alloc)?)
    }
}

/// The attributes.
impl FromTypeParam for Vec<Attribute> {
    ghost use Rattle.error_fault.specs.Outcome.{Value};
    ghost use Rattle.std.specs.Prelude.{List};
    ghost use Rattle.node_core.specs.declared.attr.Attribute.{Attribute};

    ghost Seen = { List Attribute };

    ghost seen = { λ it. it.items };

    ghost meaning = { λ it. Value it.attrs };

    fn from_type_param(alloc: Global, type_param: &TypeParam) -> Result<Vec<Attribute>> {
        Ok(type_param.attrs.try_clone(alloc)?.into_vec())
    }
}
