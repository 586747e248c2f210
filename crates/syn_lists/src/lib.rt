//! What reads tokens without the rules of types and expressions: lists of anything, and patterns,
//! which are kept as tokens.
#![tactic(auto)]

mod list;
mod patterns;
mod whole;

pub use list::{Deepest, Joint, Parsed, ReadDeepItem, ReadItem, items_after, joined_by, until};
pub use patterns::{MAX_PATTERN, pattern};
pub use whole::all_of;
