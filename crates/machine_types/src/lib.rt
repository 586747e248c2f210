//! Which types a place takes that is read from an element, or from a part of one.
//!
//! [`part_place`] is the place of a field that takes a part of the element by its name, and [`fits_outer`] tells whether a place
//! takes the types of a row. Nothing of it takes memory.
#![tactic(auto)]

mod fits;
mod place;
mod readers;

pub use fits::fits_outer;
pub use place::part_place;
pub use readers::Readers;
