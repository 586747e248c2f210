//! What a declaration is asked.

ghost use Rattle.std.specs.Prelude.{◌≡◌};
ghost use Rattle.machine_steps.specs.Asked as spec;

use crate::element::Element;
use meta_nested::{Call, NestedMeta};
use node_core::Attribute;

/// What a declaration is asked, and a function of a unit is run on.
#[derive(Clone, Copy)]
pub enum Asked<'a> {
    /// A call of `FromMeta`.
    Cell(Call<'a>),
    /// An element, under the derive of its kind.
    Element(Element<'a>),
}

impl<'a> Asked<'a> {
    /// The items of a list; nothing else has any.
    pub fn items(self) -> &'a [NestedMeta]
        ensures { result.now ≡ spec.items_asked (spec.asked_of self.entry) }
    {
        match self {
            Asked::Cell(Call::List(items)) => items,
            Asked::Cell(_) | Asked::Element(_) => &[],
        }
    }

    /// The attributes of an element; nothing else has any.
    pub fn attributes(self) -> &'a [Attribute]
        ensures { result.now ≡ spec.attributes_asked (spec.asked_of self.entry) }
    {
        match self {
            Asked::Cell(_) => &[],
            Asked::Element(element) => element.attributes(),
        }
    }
}
