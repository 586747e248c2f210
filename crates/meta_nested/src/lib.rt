//! Nested items: what stands between the parentheses of an attribute, as in `#[my(a = 1, b(c), "d")]`.
//!
//! [`NestedMeta::parse_meta_list`] reads a list of them. A value that is no expression is kept with
//! its fault, so that whoever asked for it may read its tokens in another way.
#![tactic(auto)]

mod angles;
mod answer;
mod call;
mod groups;
mod item;
mod nested;
mod nodes;
mod value;

pub use answer::{items_of, spanned};
pub use call::Call;
pub use groups::without_groups;
pub use item::{Found, ItemStart};
pub use nested::{MetaNameValueInvalidExpr, NestedMeta};
pub use value::Value;
