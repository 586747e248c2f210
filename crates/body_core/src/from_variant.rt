//! The trait of types that are read from a variant.

use base_core::TryClone;
use error_core::Result;
use node_core::{Attribute, Variant};
use std::alloc::Global;
use tok_types::Ident;

/// A type that is read from a variant.
pub trait FromVariant: Sized {
    ghost use Rattle.error_fault.specs.Outcome.{Outcome};
    ghost use Rattle.error_core.specs.Answers.{Answers};
    ghost use Rattle.node_core.specs.declared.data.Variant.{Variant};

    /// What contracts see of a value.
    ghost Seen: { Type 0 };

    ghost seen: { Self → Seen };

    /// What a variant is to the type: a value as it is seen, or the faults.
    ghost meaning: { Variant → Outcome Seen };

    fn from_variant(alloc: Global, variant: &Variant) -> Result<Self>
        ensures { Answers seen result (meaning variant.now) };
}

/// Nothing is read.
impl FromVariant for () {
    ghost use Rattle.error_fault.specs.Outcome.{Value};

    ghost Seen = { Unit {0} };

    ghost seen = { λ it. it };

    ghost meaning = { λ _. Value tt };

    fn from_variant(_alloc: Global, _variant: &Variant) -> Result<()> {
        Ok(())
    }
}

/// The whole of it.
impl FromVariant for Variant {
    ghost use Rattle.error_fault.specs.Outcome.{Value};
    ghost use Rattle.node_core.specs.declared.data.Variant.{Variant};

    ghost Seen = { Variant };

    ghost seen = { λ it. it };

    ghost meaning = { Value };

    fn from_variant(alloc: Global, variant: &Variant) -> Result<Variant> {
        Ok(variant.try_clone(alloc)?)
    }
}

/// The name.
impl FromVariant for Ident {
    ghost use Rattle.error_fault.specs.Outcome.{Value};
    ghost use Rattle.tok_types.specs.declared.ident.Ident.{Ident};

    ghost Seen = { Ident };

    ghost seen = { λ it. it };

    ghost meaning = { λ it. Value it.ident };

    fn from_variant(alloc: Global, variant: &Variant) -> Result<Ident> {
        Ok(variant.ident.try_clone(alloc)?)
    }
}

/// The attributes.
impl FromVariant for Vec<Attribute> {
    ghost use Rattle.error_fault.specs.Outcome.{Value};
    ghost use Rattle.std.specs.Prelude.{List};
    ghost use Rattle.node_core.specs.declared.attr.Attribute.{Attribute};

    ghost Seen = { List Attribute };

    ghost seen = { λ it. it.items };

    ghost meaning = { λ it. Value it.attrs };

    fn from_variant(alloc: Global, variant: &Variant) -> Result<Vec<Attribute>> {
        Ok(variant.attrs.try_clone(alloc)?.into_vec())
    }
}
