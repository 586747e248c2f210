//! Where a function that an option names is asked.

use base_core::{Mem, TryClone};
use node_expr::Type;
use std::alloc::Global;

/// What a function is asked for.
#[derive(Clone, Copy, Debug, PartialEq, Eq)]
pub enum Use {
    /// A field's `with`: it reads a meta.
    With,
    /// `map`: it makes a value of another.
    Map,
    /// `and_then`: it makes a value of another, or faults.
    AndThen,
    /// A `default`.
    Default,
    /// A container's `from_word`.
    FromWord,
    /// A container's `from_none`.
    FromNone,
    /// A container's `from_expr`.
    FromExpr,
    /// The `with` of a field for the attributes that are handed on.
    Attrs,
    /// The `with` of a field for the identifier.
    Ident,
    /// The `with` of a field for the identifier that a field may have.
    OptionalIdent,
    /// The `with` of a field for the body of an item.
    Body,
    /// The `with` of a field for the fields of a variant.
    Fields,
    /// The `with` of a field for the generics.
    Generics,
    /// A container's `from_ident`: no function is named.
    FromIdent,
}

/// What a function is asked for, and the type that it gives.
#[derive_where(PartialEq, Eq)]
pub struct Place {
    pub at: Use,
    pub ty: Type,
}

impl TryClone for Place {
    fn try_clone(&self, alloc: Global) -> Mem<Place> {
        let at = self.at;
        let ty = self.ty.try_clone(alloc)?;
        Ok(Place { at, ty })
    }
}

impl Drop for Place {
    fn drop(self) {
        let Self { at: _, ty: _ty } = self;
    }
}
