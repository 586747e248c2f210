//! Two texts, run: declarations, and items that are read as the last of them.
//!
//! [`run_source`] answers a [`Report`], or why there is none. The laws of `laws` say what a program means that is compiled from
//! accepted declarations.
#![tactic(auto)]

mod laws;
mod part;
mod report;
mod run;
mod source;
mod units;

pub use law_options::{Form, Host, RefusingHost, RenameTable, TableFail, earliest};
pub use laws::{an_accepted_program_fits, an_accepted_program_is_meant};
pub use machine_execute::Outcome;
pub use report::Report;
pub use run::run_program;
pub use run_accepted::{Rejected, RunError, accepted, unbuilt};
pub use source::run_source;
pub use units::receiver;
