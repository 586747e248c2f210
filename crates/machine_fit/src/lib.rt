//! Whether a program can be run with a host.
//!
//! [`fit`] answers `Ok` where it can, and else the first place that stands against it: names that stand twice, forms that no
//! run supports, types that don't fit their places, functions that the host doesn't offer, and the want of a receiver,
//! in this order. Within one of them places stand in the order in which the program prints: each declaration, and then
//! what its units ask. [`refusals`] answers all of these places.
#![tactic(auto)]

mod checker;
mod fits;
mod fitting;
mod readers;
mod types;

pub use fitting::{fit, refusals};
pub use machine_forms::{Form, Refusals, Unfit, Unsupported};
