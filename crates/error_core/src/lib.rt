//! Errors: one fault or many, collected while a whole input is read.
//!
//! An [`Error`] is a tree that is never empty, and contracts see its faults from left to right. An
//! [`Accumulator`] collects errors and must be spent. [`Fail`] is why a call gives no value: faults,
//! or want of memory, which is never collected as a fault.
#![tactic(auto)]

mod accumulator;
mod clone;
mod compile_errors;
mod create;
mod error;
mod fail;
mod flatten;
mod iter;
mod laws;
mod nodes;
mod roots;
mod siblings;
mod syn;
mod text;

pub use accumulator::Accumulator;
pub use base_core::{Items, Mem, Text, TryClone};
pub use compile_errors::into_compile_error;
pub use error::Error;
pub use error_fault::{Alts, Fault, FaultKind, Shared};
pub use fail::{Fail, Result};
pub use iter::IntoIter;
pub use laws::flat_stays_flat;
pub use node_core::SynError;
pub use node_expr::{Expr, Lit, LitStr, Path};
pub use node_span::Spanned;
pub use tok_types::{Span, TokenStream};
