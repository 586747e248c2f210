//! Shapes of bodies.

use base_core::{Mem, TryClone};
use std::alloc::Global;

/// The shapes of structs, or of an enum's variants, that a receiver takes.
#[derive(Clone, Copy, Default, PartialEq, Eq)]
pub struct DataShape {
    pub newtype: bool,
    pub named: bool,
    pub tuple: bool,
    pub unit: bool,
    /// Every shape.
    pub any: bool,
}

impl TryClone for DataShape {
    fn try_clone(&self, _alloc: Global) -> Mem<DataShape> {
        Ok(*self)
    }
}

/// The shapes that a statement looks for. A shape in it is not `any`: where options say so, its four shapes are all set.
#[derive(Clone, Copy, PartialEq, Eq)]
pub enum ShapeSpec {
    /// Every element is taken.
    Any,
    /// An item of a text, by what it is.
    Body {
        structs: DataShape,
        enums: DataShape,
    },
    /// The fields of a variant.
    Fields(DataShape),
}

impl TryClone for ShapeSpec {
    fn try_clone(&self, _alloc: Global) -> Mem<ShapeSpec> {
        Ok(*self)
    }
}
