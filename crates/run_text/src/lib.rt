//! The texts of values, as the tool writes them.
#![tactic(auto)]

mod leaves;
mod quoted;
mod values;

pub use leaves::push_fault_lines;
pub use values::{push_value, value_text};
