//! The trait of types that are read from a field.

use base_core::TryClone;
use error_core::Result;
use node_core::{Attribute, Field, Visibility};
use node_expr::Type;
use std::alloc::Global;

/// A type that is read from a field.
pub trait FromField: Sized {
    ghost use Rattle.error_fault.specs.Outcome.{Outcome};
    ghost use Rattle.error_core.specs.Answers.{Answers};
    ghost use Rattle.node_core.specs.declared.data.Field.{Field};

    /// What contracts see of a value.
    ghost Seen: { Type 0 };

    ghost seen: { Self → Seen };

    /// What a field is to the type: a value as it is seen, or the faults.
    ghost meaning: { Field → Outcome Seen };

    fn from_field(alloc: Global, field: &Field) -> Result<Self>
        ensures { Answers seen result (meaning field.now) };
}

/// Nothing is read.
impl FromField for () {
    ghost use Rattle.error_fault.specs.Outcome.{Value};

    ghost Seen = { Unit {0} };

    ghost seen = { λ it. it };

    ghost meaning = { λ _. Value tt };

    fn from_field(_alloc: Global, _field: &Field) -> Result<()> {
        Ok(())
    }
}

/// The whole of it.
impl FromField for Field {
    ghost use Rattle.error_fault.specs.Outcome.{Value};
    ghost use Rattle.node_core.specs.declared.data.Field.{Field};

    ghost Seen = { Field };

    ghost seen = { λ it. it };

    ghost meaning = { Value };

    fn from_field(alloc: Global, field: &Field) -> Result<Field> {
        Ok(field.try_clone(alloc)?)
    }
}

/// The type.
impl FromField for Type {
    ghost use Rattle.error_fault.specs.Outcome.{Value};
    ghost use Rattle.node_expr.specs.declared.ty.«Type».{«Type» as Ty};

    ghost Seen = { Ty };

    ghost seen = { λ it. it };

    ghost meaning = { λ it. Value it.ty };

    fn from_field(alloc: Global, field: &Field) -> Result<Type> {
        Ok(field.ty.try_clone(alloc)?)
    }
}

/// The visibility.
impl FromField for Visibility {
    ghost use Rattle.error_fault.specs.Outcome.{Value};
    ghost use Rattle.node_core.specs.declared.data.Visibility.{Visibility};

    ghost Seen = { Visibility };

    ghost seen = { λ it. it };

    ghost meaning = { λ it. Value it.vis };

    fn from_field(alloc: Global, field: &Field) -> Result<Visibility> {
        Ok(field.vis.try_clone(alloc)?)
    }
}

/// The attributes.
impl FromField for Vec<Attribute> {
    ghost use Rattle.error_fault.specs.Outcome.{Value};
    ghost use Rattle.std.specs.Prelude.{List};
    ghost use Rattle.node_core.specs.declared.attr.Attribute.{Attribute};

    ghost Seen = { List Attribute };

    ghost seen = { λ it. it.items };

    ghost meaning = { λ it. Value it.attrs };

    fn from_field(alloc: Global, field: &Field) -> Result<Vec<Attribute>> {
        Ok(field.attrs.try_clone(alloc)?.into_vec())
    }
}
