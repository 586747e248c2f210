//! Nodes of their parts, and the text of a path.
#![tactic(auto)]

pub mod make;
mod path_text;

pub use path_text::{path_to_string, push_full_path};
