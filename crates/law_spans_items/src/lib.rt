//! Items without their places, and that reading them does not see places.
#![tactic(auto)]

mod laws;

pub use laws::items_see_no_spans;
