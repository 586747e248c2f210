//! The prefix property: the prefix that a rule of the grammar reads, it reads again, whatever follows.
#![tactic(auto)]

mod laws;

pub use laws::prefixes_are_read_again;
