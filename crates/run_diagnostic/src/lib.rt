//! What a person is told of a refused input: the line and the column, the source line with a caret line under it, and a
//! sentence that says what would do.
//!
//! The line of a refusal has bytes of a part, for programs. A diagnostic is for who wrote the input.
#![tactic(auto)]

mod forms;
mod functions;
mod input;
mod keep;
mod options;
mod place;
mod renames;
mod similar;
mod syntax;
mod types;

pub use forms::{push_duplicate, push_form, push_no_receiver, push_unbuilt};
pub use functions::push_unknown_function;
pub use input::{push_bad_row, push_no_parts, push_not_text};
pub use keep::KeepingSource;
pub use options::push_rejected;
pub use syntax::{push_syntax, push_too_deep};
pub use types::push_unknown_type;
