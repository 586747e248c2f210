//! Cuts a text, as a list of characters, into its pieces: tokens, and the gaps between them.
#![tactic(auto)]

mod class;
mod comments;
mod delimiter;
mod ends;
mod kind;
mod names;
mod numbers;
mod place;
mod quotes;
mod scan;
mod text;

pub use class::base_of;
pub use delimiter::{closing, opening};
pub use ends::{Closing, behind, closings};
pub use kind::{Found, Kind};
pub use numbers::{digits_value, exponent_length, fraction_length};
pub use place::{at, digits_length, hash_length, hex_length, rest};
pub use quotes::item_length;
pub use scan::{piece, piece_with};
pub use text::{byte_length, characters, text_of};
