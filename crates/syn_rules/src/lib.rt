//! The rules of the grammar of expressions: each reads exactly what its definition reads, and how deep
//! it is. Three readers, of types, of expressions and of bounds, tie these rules and those of paths and
//! types together one level down.
#![tactic(auto)]

mod atoms;
mod closures;
mod operators;
mod postfixes;
mod recursion;
mod rules;

pub use recursion::{read_bounds, read_expr, read_path, read_type};
