//! Where an item and its parts stand that are read from tokens: from the start of the first to the end
//! of the last.
#![tactic(auto)]

mod laws;

pub use laws::{
    attributes_stand_where_they_are_read, items_stand_where_their_tokens_do,
    items_stand_where_they_are_read,
};
