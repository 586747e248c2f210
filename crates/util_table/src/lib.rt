//! A table by which the derives of a tool rename fields and variants.
//!
//! The table is a text of lines. A line that is not empty has four words, each with a character at
//! least, and one space between each two: a rule, `field` or `variant`, an identifier, and the name
//! that the rule gives it. The first row for a rule, a kind and an identifier stands, and an
//! identifier without a row keeps its name.
//!
//! A line feed ends a line. A carriage return in front of it belongs to the line's last word.
#![tactic(auto)]

mod asked;
mod fail;
mod places;
mod reading;
mod row;
mod rule;
mod table;

pub use fail::TableFail;
pub use row::{RenameKind, Row};
pub use rule::RenameRule;
pub use table::RenameTable;
