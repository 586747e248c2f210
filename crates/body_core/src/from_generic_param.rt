//! The trait of types that are read from a generic parameter.

use base_core::TryClone;
use error_core::Result;
use node_core::GenericParam;
use std::alloc::Global;

/// A type that is read from a generic parameter.
pub trait FromGenericParam: Sized {
    ghost use Rattle.error_fault.specs.Outcome.{Outcome};
    ghost use Rattle.error_core.specs.Answers.{Answers};
    ghost use Rattle.node_core.specs.declared.generics.GenericParam.{GenericParam};

    /// What contracts see of a value.
    ghost Seen: { Type 0 };

    ghost seen: { Self → Seen };

    /// What a generic parameter is to the type: a value as it is seen, or the faults.
    ghost meaning: { GenericParam → Outcome Seen };

    fn from_generic_param(alloc: Global, param: &GenericParam) -> Result<Self>
        ensures { Answers seen result (meaning param.now) };
}

/// Nothing is read.
impl FromGenericParam for () {
    ghost use Rattle.error_fault.specs.Outcome.{Value};

    ghost Seen = { Unit {0} };

    ghost seen = { λ it. it };

    ghost meaning = { λ _. Value tt };

    fn from_generic_param(_alloc: Global, _param: &GenericParam) -> Result<()> {
        Ok(())
    }
}

/// The whole of it.
impl FromGenericParam for GenericParam {
    ghost use Rattle.error_fault.specs.Outcome.{Value};
    ghost use Rattle.node_core.specs.declared.generics.GenericParam.{GenericParam};

    ghost Seen = { GenericParam };

    ghost seen = { λ it. it };

    ghost meaning = { Value };

    fn from_generic_param(alloc: Global, param: &GenericParam) -> Result<GenericParam> {
        Ok(param.try_clone(alloc)?)
    }
}
