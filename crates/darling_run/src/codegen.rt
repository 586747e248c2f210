//! What declarations compile to, as `darling_core::codegen`.

pub use codegen_core::{
    DefaultExpression, Field, FieldsGen, FromMetaImpl, OverrideableCallable, TraitImpl, Variant,
};
pub use codegen_outer::{
    ForwardAttrs, FromAttributesImpl, FromDeriveInputImpl, FromFieldImpl, FromTypeParamImpl,
    FromVariantImpl, OuterFromImpl, OuterImpl,
};
