//! Bodies and generics whose parts are of any type.

mod data;
mod data_from;
mod fields;
mod fields_from;
mod fields_tokens;
mod generics;
mod generics_from;
mod members;

pub use data::Data;
pub use fields::Fields;
pub use generics::{GenericParam, GenericParamExt, Generics, TypeParams};
pub use node_core::Style;
