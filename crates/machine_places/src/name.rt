//! The names of the table of outer types.

use crate::part::Part;

/// A name of the table.
#[derive(Clone, Copy, PartialEq, Eq)]
pub enum OuterName {
    /// The type that takes this as it stands.
    Part(Part),
    Attribute,
    TypeParamBound,
    Data,
    Fields,
    Generics,
    GenericParam,
}
