//! What is compiled from options: each borrows its parts from them.

ghost use Rattle.std.specs.Prelude.{◌≡◌, IfOk};
ghost use Rattle.std.specs.List.{AllZip};
ghost use Rattle.codegen_core.specs.Defaults.{custom};
ghost use Rattle.options_members.specs.Views as spec;

use crate::container::Core;
use crate::input_field::InputField;
use crate::input_variant::InputVariant;
use base_core::{Items, Mem};
use body_core::ast::{Data, Fields};
use codegen_core::{DefaultExpression, Field, OverrideableCallable, TraitImpl, Variant};
use node_expr::Type;
use node_span::Spanned;
use options_rows::Callable;
use std::alloc::Global;
use tok_types::Ident;

impl InputField {
    /// What is compiled from it.
    pub fn as_codegen_field(&self) -> Field<'_>
        ensures { spec.IsField result self.now }
    {
        Field {
            ident: &self.ident,
            name_in_attr: self.name.as_str(),
            skip: self.is_skipped(),
            flatten: self.flatten.is_present(),
            multiple: self.multiple.unwrap_or(false),
            ty: &self.ty,
            with_callable: converter(&self.with, &self.ty),
            post_transform: self.post_transform.as_ref(),
            default_expression: shown_default(&self.ident, &self.default),
        }
    }
}

impl InputVariant {
    /// What is compiled from it. The identifier is that of its enum.
    pub fn as_codegen_variant<'a>(&'a self, alloc: Global, ty_ident: &'a Ident) -> Mem<Variant<'a>>
        ensures { IfOk result (λ it. spec.IsVariant ty_ident.now it self.now) }
    {
        let fields = as_codegen_fields(alloc, self.body.fields.as_slice())?;
        Ok(Variant {
            name_in_attr: self.name.as_str(),
            variant_ident: &self.ident,
            ty_ident,
            body: Fields::new(self.body.style, fields),
            skip: self.is_skipped(),
            allow_unknown_fields: self.allow_unknown_fields.unwrap_or(false),
            transparent: self.transparent.is_present(),
        })
    }

    /// Whether a word alone stands for it.
    pub fn has_word(&self) -> bool
        ensures { result ≡ spec.has_word self.now }
    {
        match &self.word {
            Some(word) => **word,
            None => false,
        }
    }
}

impl Core {
    /// What is compiled from it, whatever it derives.
    pub fn as_trait_impl(&self, alloc: Global) -> Mem<TraitImpl<'_>>
        ensures { IfOk result (λ it. spec.IsImpl it self.now) }
    {
        let body = self.as_codegen_body(alloc)?;
        Ok(TraitImpl {
            ident: &self.ident,
            generics: &self.generics,
            body,
            default: shown_default(&self.ident, &self.default),
            post_transform: self.post_transform.as_ref(),
            allow_unknown_fields: self.allow_unknown_fields.unwrap_or(false),
            transparent: self.transparent.is_present(),
            krate: self.krate.as_ref(),
        })
    }

    fn as_codegen_body(&self, alloc: Global) -> Mem<Data<Variant<'_>, Field<'_>>>
        ensures members { IfOk result (λ body. spec.IsBody self.now.ident body self.now.body) }
        ensures unplaced { IfOk result spec.IsUnplaced }
    {
        match &self.body {
            Data::Struct(it) => {
                let fields = as_codegen_fields(alloc, it.fields.as_slice())?;
                Ok(Data::Struct(Fields::new(it.style, fields)))
            }
            Data::Enum(it) => {
                let variants = as_codegen_variants(alloc, it.as_slice(), &self.ident)?;
                Ok(Data::Enum(Items::from_vec(variants)))
            }
        }
    }
}

/// What is compiled from each variant, in their order.
#[tactic(auto, using(crate::proofs::ViewLemmas::zip_next))]
fn as_codegen_variants<'a>(
    alloc: Global,
    variants: &'a [InputVariant],
    ty_ident: &'a Ident,
) -> Mem<Vec<Variant<'a>>>
    ensures { IfOk result (λ it. AllZip (spec.IsVariant ty_ident.now) it.items variants.now) }
{
    let mut shown = Vec::new(alloc);
    for variant in variants {
        let it = variant.as_codegen_variant(alloc, ty_ident)?;
        shown.push(it)?;
    }
    Ok(shown)
}

/// What is compiled from each field, in their order.
#[tactic(auto, using(crate::proofs::ViewLemmas::zip_next))]
fn as_codegen_fields<'a>(alloc: Global, fields: &'a [InputField]) -> Mem<Vec<Field<'a>>>
    ensures { IfOk result (λ it. AllZip spec.IsField it.items fields.now) }
{
    let mut shown = Vec::new(alloc);
    for field in fields {
        shown.push(field.as_codegen_field())?;
    }
    Ok(shown)
}

/// What converts an item: what `with` names, else the type.
fn converter<'a>(with: &'a Option<Callable>, ty: &Type) -> OverrideableCallable<'a>
    ensures with { custom result ≡ with.now }
    ensures at { spec.StandsAt ty.now result }
{
    match with {
        Some(callable) => OverrideableCallable::Custom(callable),
        None => OverrideableCallable::Default(ty.spanned()),
    }
}

fn shown_default<'a>(
    ident: &'a Ident,
    default: &'a Option<options_rows::DefaultExpression>,
) -> Option<DefaultExpression<'a>>
    ensures { spec.AreDefaults ident.now result default.now }
{
    match default {
        Some(options_rows::DefaultExpression::Inherit) => Some(DefaultExpression::Inherit(ident)),
        Some(options_rows::DefaultExpression::Explicit(callable)) => {
            Some(DefaultExpression::Explicit(callable))
        }
        Some(options_rows::DefaultExpression::Trait { span }) => {
            Some(DefaultExpression::Trait { span: *span })
        }
        None => None,
    }
}
