//! How the members of a body are written, as `darling_core::ast::Style`.

ghost use Rattle.std.specs.Prelude.{◌≡◌, ◌↔◌, IsTrue};
ghost use Rattle.node_core.specs.Style as spec;

use crate::data::Fields;
use base_core::{Mem, TryClone};
use std::alloc::Global;

/// How the members of a body are written.
#[derive(Clone, Copy, Debug, PartialEq, Eq, Hash)]
pub enum Style {
    /// `(A, B)`
    Tuple,
    /// `{ a: A, b: B }`
    Struct,
    /// Nothing is written.
    Unit,
}

impl Style {
    pub fn is_unit(&self) -> bool
        ensures { IsTrue result ↔ (self.now ≡ Style.Unit) }
    {
        *self == Style::Unit
    }

    pub fn is_tuple(&self) -> bool
        ensures { IsTrue result ↔ (self.now ≡ Style.Tuple) }
    {
        *self == Style::Tuple
    }

    pub fn is_struct(&self) -> bool
        ensures { IsTrue result ↔ (self.now ≡ Style.Struct) }
    {
        *self == Style::Struct
    }

    /// The style of a node's fields.
    pub fn of(fields: &Fields) -> Style
        ensures { result ≡ spec.style_of fields.now }
    {
        match fields {
            Fields::Named(_) => Style::Struct,
            Fields::Unnamed(_) => Style::Tuple,
            Fields::Unit => Style::Unit,
        }
    }
}

impl TryClone for Style {
    fn try_clone(&self, _alloc: Global) -> Mem<Style> {
        Ok(*self)
    }
}
