//! What a unit is run on.

use codegen_program::Derive;
use meta_nested::NestedMeta;
use node_core::{Attribute, DeriveInput, Field, TypeParam, Variant};

/// What a unit is run on: an element of its derive's kind.
#[derive(Clone, Copy)]
pub enum Element<'e> {
    /// An item of a list, for `FromMeta`.
    Nested(&'e NestedMeta),
    /// An item of a text, for `FromDeriveInput`.
    Input(&'e DeriveInput),
    /// A field of a body, for `FromField`.
    Field(&'e Field),
    /// A variant of an enum, for `FromVariant`.
    Variant(&'e Variant),
    /// A type parameter, for `FromTypeParam`.
    TypeParam(&'e TypeParam),
    /// The attributes of anything, for `FromAttributes`.
    Attributes(&'e [Attribute]),
}

impl<'e> Element<'e> {
    ghost use Rattle.std.specs.Prelude.{◌≡◌};
    ghost use Rattle.machine_steps.specs.Elements as spec;

    /// The derive that reads it.
    pub fn derive(self) -> Derive
        ensures { result ≡ spec.derive_of (spec.element_of self.entry) }
    {
        match self {
            Element::Nested(_) => Derive::FromMeta,
            Element::Input(_) => Derive::FromDeriveInput,
            Element::Field(_) => Derive::FromField,
            Element::Variant(_) => Derive::FromVariant,
            Element::TypeParam(_) => Derive::FromTypeParam,
            Element::Attributes(_) => Derive::FromAttributes,
        }
    }

    /// The attributes that stand on it; an item of a list has none.
    pub fn attributes(self) -> &'e [Attribute]
        ensures { result.now ≡ spec.attributes_of (spec.element_of self.entry) }
    {
        match self {
            Element::Nested(_) => &[],
            Element::Input(it) => it.attrs.as_slice(),
            Element::Field(it) => it.attrs.as_slice(),
            Element::Variant(it) => it.attrs.as_slice(),
            Element::TypeParam(it) => it.attrs.as_slice(),
            Element::Attributes(attrs) => attrs,
        }
    }
}
