//! Names looked up by their order: an index of a list's names, made once, and a count of the comparisons.
//!
//! A [`NameOf`] tells the names of what is looked up; the index holds places alone and is asked together with the list that it
//! was made of.
#![tactic(auto)]

mod index;
mod make;
mod name_of;
mod tally;

pub use index::NameIndex;
pub use name_of::NameOf;
pub use tally::Tally;
