//! What is read and not kept.

use base_core::{Mem, TryClone};
use body_core::{
    FromDeriveInput, FromField, FromGenericParam, FromGenerics, FromTypeParam, FromVariant,
};
use body_usage::{Mentions, Searched};
use error_core::Result;
use node_core::{DeriveInput, Field, GenericParam, Generics, TypeParam, Variant};
use std::alloc::Global;
use util_core::{Call, FromMeta};

/// Any meta, and any item or part of one, of which nothing is kept.
#[derive(Clone, Copy, PartialEq, Eq, Hash)]
pub struct Ignored;

impl Default for Ignored {
    fn default() -> Ignored {
        Ignored
    }
}

impl TryClone for Ignored {
    fn try_clone(&self, _alloc: Global) -> Mem<Ignored> {
        Ok(*self)
    }
}

/// No name is used, as nothing is kept.
impl Searched for Ignored {
    ghost use Rattle.std.specs.Prelude.{[]};

    ghost mentions = { λ _ _. [] };

    fn push_mentions<'n>(&'n self, _in_qself: bool, _found: &mut Mentions<'n>) -> Mem<()> {
        Ok(())
    }
}

/// Every meta. The tokens of a list are not looked at.
impl FromMeta for Ignored {
    ghost use Rattle.util_core.specs.Ignored.{ignored_cells};

    ghost Seen = { Unit {0} };

    ghost seen = { λ _. tt };

    ghost cells = { ignored_cells };

    fn cell(_alloc: Global, call: Call<'_>) -> Result<Option<Ignored>> {
        match call {
            Call::Meta(_) => Ok(Some(Ignored)),
            _ => Ok(None),
        }
    }
}

impl FromDeriveInput for Ignored {
    ghost use Rattle.error_fault.specs.Outcome.{Value};

    ghost Seen = { Unit {0} };

    ghost seen = { λ _. tt };

    ghost meaning = { λ _. Value tt };

    fn from_derive_input(_alloc: Global, _input: &DeriveInput) -> Result<Ignored> {
        Ok(Ignored)
    }
}

impl FromField for Ignored {
    ghost use Rattle.error_fault.specs.Outcome.{Value};

    ghost Seen = { Unit {0} };

    ghost seen = { λ _. tt };

    ghost meaning = { λ _. Value tt };

    fn from_field(_alloc: Global, _field: &Field) -> Result<Ignored> {
        Ok(Ignored)
    }
}

impl FromVariant for Ignored {
    ghost use Rattle.error_fault.specs.Outcome.{Value};

    ghost Seen = { Unit {0} };

    ghost seen = { λ _. tt };

    ghost meaning = { λ _. Value tt };

    fn from_variant(_alloc: Global, _variant: &Variant) -> Result<Ignored> {
        Ok(Ignored)
    }
}

impl FromTypeParam for Ignored {
    ghost use Rattle.error_fault.specs.Outcome.{Value};

    ghost Seen = { Unit {0} };

    ghost seen = { λ _. tt };

    ghost meaning = { λ _. Value tt };

    fn from_type_param(_alloc: Global, _type_param: &TypeParam) -> Result<Ignored> {
        Ok(Ignored)
    }
}

impl FromGenericParam for Ignored {
    ghost use Rattle.error_fault.specs.Outcome.{Value};

    ghost Seen = { Unit {0} };

    ghost seen = { λ _. tt };

    ghost meaning = { λ _. Value tt };

    fn from_generic_param(_alloc: Global, _param: &GenericParam) -> Result<Ignored> {
        Ok(Ignored)
    }
}

impl FromGenerics for Ignored {
    ghost use Rattle.error_fault.specs.Outcome.{Value};

    ghost Seen = { Unit {0} };

    ghost seen = { λ _. tt };

    ghost meaning = { λ _. Value tt };

    fn from_generics(_alloc: Global, _generics: &Generics) -> Result<Ignored> {
        Ok(Ignored)
    }
}
