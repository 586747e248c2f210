//! The types of fields that read an element, or a part of one, as rows of a table of their own: what such a type names is found
//! as the type of an item's field is.
//!
//! [`outer_row_among`] resolves a type, and [`outer_head_of`] its outermost name, which takes no memory. A type that reads no
//! element is [`OuterRow::Other`].
#![tactic(auto)]

mod head;
mod name;
mod part;
mod place;
mod resolve;
mod row;
mod table;

pub use head::{OuterHead, outer_head_of};
pub use part::Part;
pub use place::OuterPlace;
pub use resolve::{outer_row_among, outer_row_of};
pub use row::OuterRow;
