//! Bodies, generics and shapes, as `darling_core::ast` and `darling_core::util`, and the traits of types that are read
//! from an item or from a part of one.
//!
//! A type that is read from a field says what each field means to it: a value, or the faults. Containers over such
//! types are read here member by member.
#![tactic(auto)]

pub mod ast;
mod from_attributes;
mod from_derive_input;
mod from_field;
mod from_generic_param;
mod from_generics;
mod from_type_param;
mod from_variant;
mod laws;
mod shape;

pub use error_core::{Error, Fail, Result};
pub use from_attributes::FromAttributes;
pub use from_derive_input::FromDeriveInput;
pub use from_field::FromField;
pub use from_generic_param::FromGenericParam;
pub use from_generics::FromGenerics;
pub use from_type_param::FromTypeParam;
pub use from_variant::FromVariant;
pub use laws::{equality_ignores_places, tuples_contain_newtypes};
pub use shape::{AsShape, Shape, ShapeSet};
