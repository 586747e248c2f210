//! What declarations mean, by filters over the entries of attributes.
//!
//! `specs/` has the meaning: the entries of a subject's attributes, the owner of each item, the faults
//! of each entry, the value of each field; and of an element the parts that fields take by their names. Nothing in it follows a
//! program's loops. That the machine's state behind any entries is these filters is a law.
#![tactic(auto)]

mod laws;

pub use laws::{items_are_all, walk_is_filters};
