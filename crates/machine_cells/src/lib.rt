//! What a run reads at a type: each row of the table as cells of values, and its default. Definitions and a law.
#![tactic(auto)]

mod laws;

pub use laws::shown_values_are_read_alike;
pub use util_core::{
    Call, Callable, Flag, FromMeta, IdentString, KeyFromPath, Override, PathList, PreservedStrExpr,
    Reader, box_cell, entries_cell, option_cell, override_cell, read_non_zero_signed,
    read_non_zero_unsigned, read_signed, read_unsigned, result_cell, result_meta_cell,
    value_and_meta_cell, value_and_span_cell,
};
