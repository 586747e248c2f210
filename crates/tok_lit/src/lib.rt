//! The values for which literals stand, from their texts.
//!
//! A literal is cut out of a text by `tok_scan`, whose definitions say what escapes, digits and
//! suffixes are. [`value_of`] says what they stand for: exactly the texts that are one whole
//! literal have a value, and they have one.
#![tactic(auto)]

mod laws;
mod number;
mod quoted;
mod value;

pub use laws::{literal_has_one_value, literals_have_values};
pub use value::{Value, value_of};
