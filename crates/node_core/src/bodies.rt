//! The fields of a body, as `syn` gives them.

ghost use Rattle.std.specs.Prelude.{◌≡◌, ◌↔◌, IsTrue, [], length};
ghost use Rattle.std.specs.Slice.Iter.{iter_rest};
ghost use Rattle.node_core.specs.Bodies as spec;

use crate::data::{Data, Field, Fields};
use std::slice;

impl Fields {
    /// The fields in order, with names or without; a unit has none.
    pub fn as_slice(&self) -> &[Field]
        ensures { result.now ≡ spec.field_list self.now }
    {
        match self {
            Fields::Named(it) => it.named.as_slice(),
            Fields::Unnamed(it) => it.unnamed.as_slice(),
            Fields::Unit => &[],
        }
    }

    /// The fields in order: `for field in item_fields.iter()`.
    pub fn iter(&self) -> slice::Iter<'_, Field>
        ensures { iter_rest result ≡ spec.field_list self.now }
    {
        self.as_slice().iter()
    }

    /// How many fields there are.
    pub fn len(&self) -> usize
        ensures { result ≡ length (spec.field_list self.now) }
    {
        self.as_slice().len()
    }

    /// Whether there is no field, in `S {}` and `S()` too.
    pub fn is_empty(&self) -> bool
        ensures { IsTrue result ↔ (spec.field_list self.now ≡ []) }
    {
        self.as_slice().is_empty()
    }
}

impl Data {
    /// The fields of a struct or of a union in order; those of an enum stand in its variants.
    pub fn fields(&self) -> &[Field]
        ensures { result.now ≡ spec.fields_in self.now }
    {
        match self {
            Data::Struct(it) => it.fields.as_slice(),
            Data::Enum(_) => &[],
            Data::Union(it) => it.fields.named.as_slice(),
        }
    }

    pub fn is_struct(&self) -> bool
        ensures { result ≡ spec.is_struct self.now }
    {
        matches!(self, Data::Struct(_))
    }

    pub fn is_enum(&self) -> bool
        ensures { result ≡ spec.is_enum self.now }
    {
        matches!(self, Data::Enum(_))
    }

    pub fn is_union(&self) -> bool
        ensures { result ≡ spec.is_union self.now }
    {
        matches!(self, Data::Union(_))
    }
}
