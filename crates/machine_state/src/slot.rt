//! Slots: what items have given a field.

ghost use Rattle.std.specs.Prelude.{◌≡◌};
ghost use Rattle.machine_read.specs.Slots.{slot_type};
ghost use Rattle.machine_state.specs.Seen.{slot_by, slot_of};

use base_core::Items;
use machine_value::Value;
use node_expr::Type;
use std::result::Result;

/// What items have given a field, and the field's type.
pub enum Slot<'p> {
    /// A place for one value: whether an item has named it, and its value where there is one.
    One(&'p Type, bool, Option<Value>),
    /// A place for a list of values.
    Several(&'p Type, Items<Value>),
}

impl<'p> Slot<'p> {
    /// The field's type.
    pub fn ty(&self) -> &'p Type
        ensures { result.now ≡ slot_type (slot_of self.now) }
    {
        match self {
            Slot::One(ty, _, _) => ty,
            Slot::Several(ty, _) => ty,
        }
    }

    /// The place for one value, or the place for a list.
    pub fn into_parts(self) -> Result<(&'p Type, bool, Option<Value>), (&'p Type, Items<Value>)>
        ensures { self.entry ≡ slot_by result }
    {
        match self {
            Slot::One(ty, seen, value) => Ok((ty, seen, value)),
            Slot::Several(ty, values) => Err((ty, values)),
        }
    }
}

impl Drop for Slot<'_> {
    fn drop(self) {
        match self {
            Slot::One(_, _, _value) => {}
            Slot::Several(_, _values) => {}
        }
    }
}
