//! The rules of the grammar of paths, bounds and types: each reads exactly what its definition reads,
//! and how deep it is. They stand over any readers of their parts.
#![tactic(auto)]

mod paths;
mod readers;
mod rules;
mod types;

pub use paths::binder;
pub use readers::LifetimeReader;
pub use rules::{ANY_LEVEL, CONSTANT_LEVEL, MAX_DEPTH, ReadParts, Rules};
