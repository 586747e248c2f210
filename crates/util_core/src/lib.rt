//! Types for the fields of a receiver, as `darling_core::util`.
#![tactic(auto)]

mod callable;
pub mod extract_option;
mod flag;
mod ident_string;
mod laws;
mod over_ride;
mod pairs;
mod parse_attribute;
pub mod parse_expr;
mod preserved_str_expr;

pub use callable::parse_callable;
pub use codegen_program::Callable;
pub use flag::Flag;
pub use ident_string::IdentString;
pub use laws::equal_ident_strings_are_alike;
pub use meta_core::{
    ByType, Call, FromMeta, KeyFromPath, MetaNameValueInvalidExpr, NestedMeta, PathList, Reader,
    box_cell, entries_cell, items_of, option_cell, read_non_zero_signed, read_non_zero_unsigned,
    read_signed, read_unsigned, result_cell, result_meta_cell, spanned,
};
pub use over_ride::{Override, override_cell};
pub use pairs::{value_and_meta_cell, value_and_span_cell};
pub use parse_attribute::parse_attribute_to_meta_list;
pub use preserved_str_expr::PreservedStrExpr;
