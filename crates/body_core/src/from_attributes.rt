//! The trait of types that are read from attributes.

use base_core::Items;
use error_core::Result;
use node_core::Attribute;
use std::alloc::Global;

/// A type that is read from the attributes of an item or of a part of one.
pub trait FromAttributes: Sized {
    ghost use Rattle.std.specs.Prelude.{List};
    ghost use Rattle.error_fault.specs.Outcome.{Outcome};
    ghost use Rattle.error_core.specs.Answers.{Answers};
    ghost use Rattle.node_core.specs.declared.attr.Attribute.{Attribute};

    /// What contracts see of a value.
    ghost Seen: { Type 0 };

    ghost seen: { Self → Seen };

    /// What attributes are to the type: a value as it is seen, or the faults.
    ghost meaning: { List Attribute → Outcome Seen };

    fn from_attributes(alloc: Global, attrs: &[Attribute]) -> Result<Self>
        ensures { Answers seen result (meaning attrs.now) };
}

/// Nothing is read.
impl FromAttributes for () {
    ghost use Rattle.error_fault.specs.Outcome.{Value};

    ghost Seen = { Unit {0} };

    ghost seen = { λ it. it };

    ghost meaning = { λ _. Value tt };

    fn from_attributes(_alloc: Global, _attrs: &[Attribute]) -> Result<()> {
        Ok(())
    }
}

/// All attributes.
impl FromAttributes for Vec<Attribute> {
    ghost use Rattle.std.specs.Prelude.{List};
    ghost use Rattle.error_fault.specs.Outcome.{Value};
    ghost use Rattle.node_core.specs.declared.attr.Attribute.{Attribute};

    ghost Seen = { List Attribute };

    ghost seen = { λ it. it.items };

    ghost meaning = { Value };

    fn from_attributes(alloc: Global, attrs: &[Attribute]) -> Result<Vec<Attribute>> {
        Ok(Items::from_slice(alloc, attrs)?.into_vec())
    }
}
