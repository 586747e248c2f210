//! The machine: runs the programs that receivers' declarations compile to.
//!
//! [`execute`] runs a unit of a program on an element and answers its [`Outcome`], which is what `machine` of
//! `machine_steps` says of it: a value, or all its faults with their places. Who reads many elements keeps the program [`Prepared`].
#![tactic(auto)]

mod context;
mod machine;
mod order;
mod outcome;
mod prepared;
mod unit;
mod units;

pub use machine::{MAX_READING, execute, try_execute};
pub use machine_read::{
    Arg, Callable, Element, Host, HostItem, NestedMeta, Place, RefusingHost, Said, Use,
    what_fits_a_type,
};
pub use outcome::Outcome;
pub use prepared::Prepared;
