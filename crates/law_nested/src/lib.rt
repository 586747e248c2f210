//! Laws of nested items: reading them ignores places, what is printed is read back as the same, tokens have one
//! tree, each item stands where its tokens do, and equal ones differ in places and in errors alone.
#![tactic(auto)]

mod equality;
mod laws;
mod places;

pub use equality::equal_nested_items_differ_in_spans_and_errors_alone;
pub use laws::{nested_items_are_read_back, nested_items_have_one_tree, nested_items_see_no_spans};
pub use places::nested_items_stand_where_their_tokens_do;
