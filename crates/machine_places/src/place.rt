//! Where a type reads an element, or a part of one.

use crate::part::Part;

/// What a type is read from: an element, or a part that a field takes by its name.
#[derive(Clone, Copy, Debug, PartialEq, Eq)]
pub enum OuterPlace {
    /// An item of a text.
    Input,
    Field,
    Variant,
    TypeParam,
    GenericParam,
    Generics,
    /// All attributes of an element.
    Attributes,
    /// The body of an item, in the field `data`.
    Body,
    /// The fields of a variant, in the field `fields`.
    Fields,
    /// A part that its field takes as it stands.
    Part(Part),
}
