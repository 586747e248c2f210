//! Nodes without their places, and that reading does not see places.
#![tactic(auto)]

mod laws;

pub use laws::{depth_sees_no_spans, reading_sees_no_spans, trees_see_no_spans};
