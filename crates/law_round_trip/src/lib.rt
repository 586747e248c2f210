//! What is printed is read back, as the same tree but for places.
#![tactic(auto)]

mod laws;

pub use laws::{prefixes_are_read_back, trees_are_read_back};
