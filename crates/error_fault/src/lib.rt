//! Faults: what is wrong with an input, in which field and at which place of the text.
//!
//! `specs/` has what every crate above says of them: outcomes, the operations on lists of faults,
//! and the text of each fault.
#![tactic(auto)]

mod alts;
mod clone;
mod fault;
mod kind;
mod names;
mod shared;
mod text;

pub use alts::Alts;
pub use fault::Fault;
pub use kind::FaultKind;
pub use names::name_set;
pub use shared::Shared;
pub use text::{
    escaped, fault_line, fault_text, kind_text, path_text, push_escaped, push_escaped_char,
    push_fault_line, push_span, span_text,
};
