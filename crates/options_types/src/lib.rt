//! Types that options are read as, as `darling_core::options` and the rest of `darling_core::util`: values with their
//! places, values with what they were read from, what is read and not kept, and what single options hold.
#![tactic(auto)]

mod default_expression;
mod forward_attrs;
mod forwarded_field;
mod ignored;
mod shapes;
mod spanned_read;
mod spanned_value;
mod variant_shapes;
mod with_original;

pub use codegen_program::DataShape;
pub use default_expression::DefaultExpression;
pub use forward_attrs::ForwardAttrsFilter;
pub use forwarded_field::ForwardedField;
pub use ignored::Ignored;
pub use shapes::DeriveInputShapeSet;
pub use spanned_value::SpannedValue;
pub use util_core::{Callable, Flag, FromMeta, NestedMeta, PathList, items_of};
pub use variant_shapes::VariantShapes;
pub use with_original::WithOriginal;
