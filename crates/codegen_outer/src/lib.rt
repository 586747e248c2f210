//! What the derives of outer elements compile to, as `darling_core::codegen`: of attributes, of an item, of a field, of a type
//! parameter, and of a variant.
//!
//! Each compiles to one function. It goes over the attributes, looks at the shape of the element, reads parts of it, and builds
//! the receiver from the parts and from the items. One definition says so for all five.
#![tactic(auto)]

mod attrs_field;
mod from_attributes_impl;
mod from_derive_impl;
mod from_field;
mod from_type_param;
mod from_variant_impl;
mod outer_from_impl;
mod outer_impl;
mod parts;
mod shapes;

pub use attrs_field::ForwardAttrs;
pub use codegen_core::{Field, TraitImpl, Variant};
pub use from_attributes_impl::FromAttributesImpl;
pub use from_derive_impl::FromDeriveInputImpl;
pub use from_field::FromFieldImpl;
pub use from_type_param::FromTypeParamImpl;
pub use from_variant_impl::FromVariantImpl;
pub use options_types::{DeriveInputShapeSet, ForwardAttrsFilter, ForwardedField};
pub use outer_from_impl::OuterFromImpl;
pub use outer_impl::OuterImpl;
