//! The types that are read: one implementation a row of the conversions.

mod callables;
mod literals;
mod maps;
mod name_lists;
mod name_sets;
mod non_zero_signed;
mod non_zero_unsigned;
mod signed;
mod syntax;
mod types;
mod unsigned;
mod vectors;
mod words;
mod wrappers;
