//! What is printed of items is read back, as the same item but for places.
#![tactic(auto)]

mod laws;

pub use laws::items_are_read_back;
