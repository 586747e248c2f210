//! Where a unit reads the fields of a declaration: to slots, as the receiver itself, or as parts of the element.
//!
//! [`readings_of`] is what units ask of fields, and [`slot_fields`] the fields that have slots.
#![tactic(auto)]

mod fields;
mod members;
mod parts;
mod reading;
mod slots;

pub use fields::{FieldsAt, place_at, slot_fields, variants_of};
pub use members::MemberAt;
pub use parts::declared_type;
pub use reading::{Reading, readings_of};
pub use slots::Slots;
