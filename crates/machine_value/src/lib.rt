//! The values that a run makes: what an item means under a declaration, as data.
#![tactic(auto)]

mod clone;
mod value;

pub use value::Value;
