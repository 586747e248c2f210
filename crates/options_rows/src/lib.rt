//! How options are read from attributes: an option's item, a table's row, the walk over attributes and bodies.
#![tactic(auto)]

mod entries;
mod forwarded;
mod option_value;
mod parse_attribute;
mod parse_data;
mod steps;

pub use entries::darling_entries;
pub use forwarded::{ForwardedName, forwarded_field};
pub use option_value::{OptionValue, word_of};
pub use options_types::{
    Callable, DataShape, DefaultExpression, DeriveInputShapeSet, Flag, ForwardAttrsFilter,
    ForwardedField, Ignored, PathList, SpannedValue, WithOriginal,
};
pub use parse_attribute::ParseAttribute;
pub use parse_data::ParseData;
pub use steps::{last, last_given, last_rule, once, once_at_path, once_transform, unknown};
pub use util_table::{RenameRule, RenameTable, TableFail};
