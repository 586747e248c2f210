//! The walk over attributes: the items that the lists of some attributes hold, and the faults in the place of items.
//!
//! [`entries`] reads the attributes of one [`AttributeKind`]; [`Named`] are those of some names, as `#[my(a = 1, b)]`.
#![tactic(auto)]

mod attribute;
mod entry;
mod named;
mod walk;

pub use attribute::AttributeKind;
pub use entry::Entry;
pub use named::{Named, attribute_items, is_named};
pub use walk::entries;
