//! Where a node stands that is read from tokens: from the start of the first to the end of the last.
#![tactic(auto)]

mod laws;

pub use laws::{
    lists_stand_where_their_tokens_do, prefixes_stand_where_they_are_read,
    trees_stand_where_their_tokens_do,
};
