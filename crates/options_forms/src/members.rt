//! Forms of fields and of variants.

ghost use Rattle.std.specs.Prelude.{◌≡◌, ◌++◌, flat_map, OnOk};
ghost use Rattle.options_forms.specs.Forms as spec;

use crate::paths::{push_call, push_default, push_post};
use base_core::{Items, Mem};
use codegen_core::{Form, Unsupported, push_form_if};
use node_core::Style;
use options_core::{DefaultExpression, InputField, InputVariant};

/// Adds the forms of the fields of a struct.
pub(crate) fn push_fields(fields: &[InputField], places: &mut Items<Unsupported>) -> Mem<()>
    ensures { OnOk result (places.new ≡ places.old ++ flat_map spec.field_forms fields.now) }
{
    for field in fields {
        push_field(field, places)?;
    }
    Ok(())
}

/// Adds the paths that the options of a field name.
fn push_field(field: &InputField, places: &mut Items<Unsupported>) -> Mem<()>
    ensures { OnOk result (places.new ≡ places.old ++ spec.field_forms field.now) }
{
    push_default(&field.default, places)?;
    push_call(&field.with, places)?;
    push_post(&field.post_transform, places)
}

/// Adds the forms of variants.
pub(crate) fn push_variants(variants: &[InputVariant], places: &mut Items<Unsupported>) -> Mem<()>
    ensures { OnOk result (places.new ≡ places.old ++ flat_map spec.variant_forms variants.now) }
{
    for variant in variants {
        push_variant(variant, places)?;
    }
    Ok(())
}

fn push_variant(variant: &InputVariant, places: &mut Items<Unsupported>) -> Mem<()>
    ensures { OnOk result (places.new ≡ places.old ++ spec.variant_forms variant.now) }
{
    push_form_if(is_read_tuple(variant), Form::Tuple, &variant.ident, places)?;
    push_variant_fields(
        is_read_by_fields(variant),
        variant.body.fields.as_slice(),
        places,
    )
}

fn push_variant_fields(
    read: bool,
    fields: &[InputField],
    places: &mut Items<Unsupported>,
) -> Mem<()>
    ensures { OnOk result (places.new ≡ places.old ++ flat_map (spec.variant_field_forms read) fields.now) }
{
    for field in fields {
        push_variant_field(read, field, places)?;
    }
    Ok(())
}

fn push_variant_field(read: bool, field: &InputField, places: &mut Items<Unsupported>) -> Mem<()>
    ensures { OnOk result (places.new ≡ places.old ++ spec.variant_field_forms read field.now) }
{
    push_field(field, places)?;
    let inherits = read && is_inherited(&field.default);
    push_form_if(inherits, Form::InheritedDefault, &field.ident, places)
}

fn is_inherited(default: &Option<DefaultExpression>) -> bool
    ensures { result ≡ spec.is_inherited default.now }
{
    match default {
        Some(DefaultExpression::Inherit) => true,
        Some(DefaultExpression::Explicit(_)) => false,
        Some(DefaultExpression::Trait { span: _ }) => false,
        None => false,
    }
}

/// Whether the variant is read, and is a tuple that is not read as its one field is.
fn is_read_tuple(variant: &InputVariant) -> bool
    ensures { result ≡ spec.is_read_tuple variant.now }
{
    !variant.is_skipped() && is_bare_tuple(variant.body.style, variant.body.len())
}

/// Whether a tuple has not just one member, as which it would be read.
pub(crate) fn is_bare_tuple(style: Style, count: usize) -> bool
    ensures { result ≡ spec.is_bare_tuple style count }
{
    match style {
        Style::Tuple => count != 1,
        Style::Struct => false,
        Style::Unit => false,
    }
}

/// Whether the variant is read, and is read field by field.
fn is_read_by_fields(variant: &InputVariant) -> bool
    ensures { result ≡ spec.is_read_by_fields variant.now }
{
    !variant.is_skipped() && has_fields(variant)
}

fn has_fields(variant: &InputVariant) -> bool
    ensures { result ≡ spec.has_fields variant.now }
{
    match variant.body.style {
        Style::Tuple => false,
        Style::Struct => !(variant.transparent.is_present() && variant.body.len() == 1),
        Style::Unit => false,
    }
}
