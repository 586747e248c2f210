//! Forms that options show and that have no program: what attributes name, by option; what stands at the identifier; then
//! members in order; and then the fields that take a part of an element.
//!
//! Options without faults are asked for them before anything is compiled.
#![tactic(auto)]

mod declaration;
mod elements;
mod forms;
mod members;
mod paths;

pub use codegen_core::{Form, Unsupported};
pub use forms::Forms;
