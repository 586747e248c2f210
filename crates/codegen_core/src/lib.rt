//! What options leave of a declaration, and the program that it compiles to, as `darling_core::codegen`.
//!
//! The types borrow their parts from the options. What the derives of outer elements compile to is in `codegen_outer`.
#![tactic(auto)]

mod default_expression;
mod field;
mod fields;
mod form;
mod from_meta_impl;
mod generated;
mod overrideable_callable;
mod trait_impl;
mod transparent;
mod variant;
mod variants;

pub use default_expression::DefaultExpression;
pub use field::Field;
pub use fields::FieldsGen;
pub use form::{Form, Unsupported};
pub use from_meta_impl::FromMetaImpl;
pub use generated::{is_generic, push_form_if, push_generated_call, push_generated_path};
pub use overrideable_callable::OverrideableCallable;
pub use trait_impl::TraitImpl;
pub use transparent::extract_transparent;
pub use variant::Variant;
