//! Options of containers and of their members: what the `darling` attributes of a field, of a variant, and of a declaration
//! of any derive say.
#![tactic(auto)]

mod checks;
mod clone;
mod container;
mod input_field;
mod input_variant;
mod names;
mod views;

pub use checks::{Checks, validate};
pub use container::Core;
pub use input_field::InputField;
pub use input_variant::InputVariant;
pub use names::{CoreName, FieldName, VariantName};
pub use options_rows::{
    DataShape, DefaultExpression, DeriveInputShapeSet, ForwardAttrsFilter, Ignored, ParseAttribute,
    ParseData, SpannedValue, WithOriginal,
};
