//! What a limit on depth changes, and what it leaves as it is.
#![tactic(auto)]

mod laws;

pub use laws::{a_larger_limit_reads_as_much, what_is_read_is_within_its_limit};
