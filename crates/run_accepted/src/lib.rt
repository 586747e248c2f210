//! Declarations of a text: the derives that their attributes name, the program that they compile to, and which of them can
//! be run with a host, or why they can't, at the first place in the text.
#![tactic(auto)]

mod acceptance;
mod attributes;
mod declaration;
mod derive_options;
mod derives;
mod error;
mod fields;
mod forms;
mod names;
mod options;
mod program;
mod rejected;
mod repeated;
mod unit;

pub use acceptance::{accepted, program_of};
pub use attributes::without_attributes;
pub use declaration::unbuilt;
pub use derives::{Derived, derives_of};
pub use error::RunError;
pub use machine_forms::{Form, earliest};
pub use machine_host::{Host, RefusingHost};
pub use options_rows::{RenameTable, TableFail};
pub use program::compile;
pub use rejected::{CompileFail, Rejected};
pub use repeated::repeated_derives;
