//! Proved callers of the libraries: one function for one need, each with its clause.
#![tactic(auto)]

mod attribute;
mod fail;
mod faults;
mod fields;
mod lint;
mod texts;
mod verbosity;

pub use attribute::{doc_of, printed_as, rename};
pub use fail::TextFail;
pub use faults::named_fields;
pub use fields::{fields_of, names_of};
pub use lint::{Lint, lint_of, lint_of_attributes};
pub use texts::{item_of, nested_items_of, type_of};
pub use verbosity::{Verbosity, verbosity_of};
