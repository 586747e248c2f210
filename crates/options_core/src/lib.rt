//! Options: what the `darling` attributes of a declaration say, as `darling_core::options`.
//!
//! A kind of options reads a declaration by stages: its own attributes, then its fields, then checks. All faults of a
//! stage are told; a later stage is read only where the earlier has none. Fields that take a part of the element by their
//! names are kept beside those that are read from items.
#![tactic(auto)]

mod clone;
mod from_attributes;
mod from_derive;
mod from_field;
mod from_type_param;
mod from_variant;
mod names;
mod outer_from;
mod views;

pub use from_attributes::FromAttributesOptions;
pub use from_derive::FdiOptions;
pub use from_field::FromFieldOptions;
pub use from_type_param::FromTypeParamOptions;
pub use from_variant::FromVariantOptions;
pub use names::{FdiName, FromVariantName, OuterName};
pub use options_members::{
    Core, CoreName, DataShape, DefaultExpression, DeriveInputShapeSet, FieldName,
    ForwardAttrsFilter, Ignored, InputField, InputVariant, ParseAttribute, ParseData, SpannedValue,
    VariantName, WithOriginal,
};
pub use options_meta::{FromMetaOptions, MetaName};
pub use options_rows::ForwardedField;
pub use outer_from::OuterFrom;
