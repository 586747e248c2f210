//! The functions that a program asks of its host, and the host doesn't offer.
//!
//! [`Callables::unknown_callables`] answers their places, in the order in which the program prints.
#![tactic(auto)]

mod callables;

pub use callables::Callables;
