//! The types of fields as rows of the table of conversions: what a type names is found once, with the
//! declarations of the text, and not again for each item that is read at it.
//!
//! [`row_of`] resolves a type, and [`head_of`] its outermost name, which takes no memory. A name that is
//! neither a declaration's nor of the table is the host's.
#![tactic(auto)]

mod arguments;
mod head;
mod items;
mod leaf;
mod name;
mod names;
mod path;
mod resolve;
mod row;
mod table;
mod wrapper;

pub use arguments::{Arguments, last_arguments};
pub use head::{Head, head_of};
pub use leaf::{Integer, Leaf, LitKind, Parsed, PunctuatedItem, SetItem, Unsigned, VecItem};
pub use name::{Home, Name};
pub use names::Names;
pub use path::{Meant, is_named, meant_by, segments_in, stands_after};
pub use resolve::{element_among, element_of, row_among, row_of};
pub use row::Row;
pub use wrapper::{HashKey, TreeKey, Wrapper};
