//! Forms of declarations that are read from elements: from an item, from a part of one, or from attributes.

ghost use Rattle.std.specs.Prelude.{◌≡◌, ◌++◌, OnOk};
ghost use Rattle.options_forms.specs.Forms as spec;

use crate::declaration::{push_container, push_generic, push_members};
use crate::forms::Forms;
use crate::paths::push_call;
use base_core::{Items, Mem};
use body_core::ast::Data;
use codegen_core::{Form, Unsupported, push_form_if};
use node_core::Style;
use options_core::{
    Core, FdiOptions, ForwardedField, FromAttributesOptions, FromFieldOptions,
    FromTypeParamOptions, FromVariantOptions, OuterFrom,
};
use tok_types::Ident;

impl Forms for FromAttributesOptions {
    ghost use Rattle.options_forms.specs.Forms.{attributes_forms};

    ghost forms = { attributes_forms };

    fn push_forms(&self, places: &mut Items<Unsupported>) -> Mem<()> {
        let core = &self.base.container;
        push_outer(true, core, places)?;
        push_ident(&self.base.ident, places)?;
        push_taken(is_whole(core), &self.base.attrs, places)
    }
}

impl Forms for FdiOptions {
    ghost use Rattle.options_forms.specs.Forms.{input_forms};

    ghost forms = { input_forms };

    fn push_forms(&self, places: &mut Items<Unsupported>) -> Mem<()> {
        push_outer(true, &self.base.container, places)?;
        push_shared(&self.base, places)?;
        push_input(is_whole(&self.base.container), self, places)
    }
}

/// Adds what the fields show that take a part of any element.
fn push_shared(base: &OuterFrom, places: &mut Items<Unsupported>) -> Mem<()>
    ensures { OnOk result (places.new ≡ places.old ++ spec.shared_forms base.now) }
{
    let whole = is_whole(&base.container);
    push_taken(whole, &base.ident, places)?;
    push_taken(whole, &base.attrs, places)
}

/// Adds what the fields show that take a part of an item alone.
fn push_input(whole: bool, options: &FdiOptions, places: &mut Items<Unsupported>) -> Mem<()>
    ensures { OnOk result (places.new ≡ places.old ++ spec.own_forms whole options.now) }
{
    push_beside(whole, &options.vis, places)?;
    push_taken(whole, &options.generics, places)?;
    push_taken(whole, &options.body, places)
}

impl Forms for FromFieldOptions {
    ghost use Rattle.options_forms.specs.Forms.{from_field_forms};

    ghost forms = { from_field_forms };

    fn push_forms(&self, places: &mut Items<Unsupported>) -> Mem<()> {
        push_outer(false, &self.base.container, places)?;
        push_part(&self.base.ident, places)?;
        push_part(&self.base.attrs, places)
    }
}

impl Forms for FromTypeParamOptions {
    ghost use Rattle.options_forms.specs.Forms.{type_param_forms};

    ghost forms = { type_param_forms };

    fn push_forms(&self, places: &mut Items<Unsupported>) -> Mem<()> {
        push_outer(false, &self.base.container, places)?;
        push_part(&self.base.ident, places)?;
        push_part(&self.base.attrs, places)
    }
}

impl Forms for FromVariantOptions {
    ghost use Rattle.options_forms.specs.Forms.{from_variant_forms};

    ghost forms = { from_variant_forms };

    fn push_forms(&self, places: &mut Items<Unsupported>) -> Mem<()> {
        push_outer(false, &self.base.container, places)?;
        push_part(&self.base.ident, places)?;
        push_part(&self.base.attrs, places)?;
        push_part(&self.fields, places)
    }
}

/// Adds what the options of each of these derives show, but for the fields that take a part of the element.
fn push_outer(has_whole: bool, core: &Core, places: &mut Items<Unsupported>) -> Mem<()>
    ensures { OnOk result (places.new ≡ places.old ++ spec.outer_forms has_whole core.now) }
{
    push_container(core, places)?;
    push_shape(has_whole, core, places)?;
    push_generic(core, places)?;
    push_members(&core.body, places)
}

/// Adds a body that has no program: an enum without variants, or a tuple that is not read as its one field is.
fn push_shape(has_whole: bool, core: &Core, places: &mut Items<Unsupported>) -> Mem<()>
    ensures { OnOk result (places.new ≡ places.old ++ spec.shape_forms has_whole core.now core.now.body) }
{
    match &core.body {
        Data::Enum(variants) => {
            push_form_if(variants.len() == 0, Form::EmptyEnum, &core.ident, places)
        }
        Data::Struct(fields) => {
            let is_tuple = is_own_tuple(has_whole, fields.style, fields.len());
            push_form_if(is_tuple, Form::Tuple, &core.ident, places)
        }
    }
}

/// Whether a tuple is not read as its one field is.
fn is_own_tuple(has_whole: bool, style: Style, count: usize) -> bool
    ensures { result ≡ spec.is_own_tuple has_whole style count }
{
    match style {
        Style::Tuple => !(has_whole && count == 1),
        Style::Struct => false,
        Style::Unit => false,
    }
}

/// Whether a struct is read as its one field is, where the derive may do so.
fn is_whole(core: &Core) -> bool
    ensures { result ≡ spec.is_core_whole core.now }
{
    match &core.body {
        Data::Struct(fields) => core.is_delegated(fields),
        Data::Enum(_) => false,
    }
}

/// Adds the path that converts a part of the element.
fn push_part(part: &Option<ForwardedField>, places: &mut Items<Unsupported>) -> Mem<()>
    ensures { OnOk result (places.new ≡ places.old ++ spec.part_forms part.now) }
{
    match part {
        Some(part) => push_call(&part.with, places),
        None => Ok(()),
    }
}

/// The same, and the field where a struct is read as its one field is.
fn push_taken(
    is_whole: bool,
    part: &Option<ForwardedField>,
    places: &mut Items<Unsupported>,
) -> Mem<()>
    ensures { OnOk result (places.new ≡ places.old ++ spec.taken_forms is_whole part.now) }
{
    match part {
        Some(part) => {
            push_call(&part.with, places)?;
            push_form_if(is_whole, Form::MagicBesideTransparent, &part.ident, places)
        }
        None => Ok(()),
    }
}

/// Adds the field that takes a part, where a struct is read as its one field is.
fn push_beside(is_whole: bool, ident: &Option<Ident>, places: &mut Items<Unsupported>) -> Mem<()>
    ensures { OnOk result (places.new ≡ places.old ++ spec.beside_forms is_whole ident.now) }
{
    match ident {
        Some(ident) => push_form_if(is_whole, Form::MagicBesideTransparent, ident, places),
        None => Ok(()),
    }
}

/// Adds the field that takes the identifier of an element, where attributes alone are read.
fn push_ident(part: &Option<ForwardedField>, places: &mut Items<Unsupported>) -> Mem<()>
    ensures { OnOk result (places.new ≡ places.old ++ spec.ident_forms part.now) }
{
    match part {
        Some(part) => {
            push_call(&part.with, places)?;
            push_form_if(true, Form::IdentUnderAttributes, &part.ident, places)
        }
        None => Ok(()),
    }
}
