//! The function by which a variant stands for its enum's word.
#![tactic(auto)]

mod closure;

pub use closure::word_closure;
