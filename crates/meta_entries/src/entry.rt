//! What stands in an attribute.

use error_fault::Fault;
use meta_nested::NestedMeta;

/// An entry of an attribute.
pub enum Entry {
    /// An item of the list that the attribute holds.
    Item(NestedMeta),
    /// A fault in the place of items: the attribute is no list, or its tokens are no items.
    Fault(Fault),
}

impl Drop for Entry {
    fn drop(self) {
        match self {
            Entry::Item(_item) => {}
            Entry::Fault(_fault) => {}
        }
    }
}
