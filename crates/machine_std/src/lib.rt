//! The host of the program: the type `Tag`, the defaults of declarations, and the functions that options name.
//!
//! [`StdHost`] is the host. What it answers to each call stands in one record, `std_says`, of which the table of
//! functions is a part. A host of one's own asks [`is_function`] and [`leaf_of`] what it is handed.
#![tactic(auto)]

mod asked;
mod defaulted;
mod function;
mod has_default;
mod make_default;
mod marks;
mod path_text;
mod std_host;
mod tag;
mod texts;

pub use asked::{is_function, leaf_of};
pub use std_host::StdHost;
