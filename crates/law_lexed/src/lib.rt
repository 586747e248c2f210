//! The tokens of a text, computed: the law that they are what the text spells.
#![tactic(auto)]

mod laws;

pub use laws::text_is_lexed;
