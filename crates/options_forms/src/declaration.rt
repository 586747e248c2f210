//! Forms of declarations that are read from items, and what all declarations share.

ghost use Rattle.std.specs.Prelude.{◌≡◌, ◌++◌, OnOk};
ghost use Rattle.options_core.specs.Body as body;
ghost use Rattle.options_forms.specs.Forms as spec;

use crate::forms::Forms;
use crate::members::{is_bare_tuple, push_fields, push_variants};
use crate::paths::{push_call, push_default, push_post};
use base_core::{Items, Mem};
use body_core::ast::{Data, Fields};
use codegen_core::{Form, Unsupported, is_generic, push_form_if};
use node_core::Style;
use options_core::{Core, FromMetaOptions, InputField, InputVariant};

impl Forms for FromMetaOptions {
    ghost use Rattle.options_forms.specs.Forms.{meta_forms};

    ghost forms = { meta_forms };

    fn push_forms(&self, places: &mut Items<Unsupported>) -> Mem<()> {
        push_container(&self.base, places)?;
        push_call(&self.from_word, places)?;
        push_call(&self.from_none, places)?;
        push_call(&self.from_expr, places)?;
        push_meta_body(self, places)
    }
}

/// Adds the paths that the options of every container name.
pub(crate) fn push_container(core: &Core, places: &mut Items<Unsupported>) -> Mem<()>
    ensures { OnOk result (places.new ≡ places.old ++ spec.container_forms core.now) }
{
    push_default(&core.default, places)?;
    push_post(&core.post_transform, places)
}

/// Adds the identifier, where there are parameters or a `where` clause.
pub(crate) fn push_generic(core: &Core, places: &mut Items<Unsupported>) -> Mem<()>
    ensures { OnOk result (places.new ≡ places.old ++ spec.generic_forms core.now) }
{
    push_form_if(
        is_generic(&core.generics),
        Form::Generics,
        &core.ident,
        places,
    )
}

/// Adds the forms of the members of a struct.
pub(crate) fn push_members(
    it: &Data<InputVariant, InputField>,
    places: &mut Items<Unsupported>,
) -> Mem<()>
    ensures { OnOk result (places.new ≡ places.old ++ spec.member_forms it.now) }
{
    match it {
        Data::Struct(fields) => push_fields(fields.fields.as_slice(), places),
        Data::Enum(_) => Ok(()),
    }
}

fn push_meta_body(options: &FromMetaOptions, places: &mut Items<Unsupported>) -> Mem<()>
    ensures { OnOk result (places.new ≡ places.old ++ spec.body_forms options.now options.now.base.body) }
{
    match &options.base.body {
        Data::Struct(fields) => push_struct(options, fields, places),
        Data::Enum(variants) => push_enum(options, variants.as_slice(), places),
    }
}

fn push_struct(
    options: &FromMetaOptions,
    fields: &Fields<InputField>,
    places: &mut Items<Unsupported>,
) -> Mem<()>
    ensures { OnOk result (places.new ≡ places.old ++ spec.struct_forms options.now fields.now) }
{
    let ident = &options.base.ident;
    let unit = is_unit(fields.style);
    let whole = unit || options.base.is_delegated(fields);
    push_form_if(
        is_bare_tuple(fields.style, fields.len()),
        Form::Tuple,
        ident,
        places,
    )?;
    push_generic(&options.base, places)?;
    push_form_if(
        whole && options.base.post_transform.is_some(),
        Form::Transform,
        ident,
        places,
    )?;
    push_form_if(
        whole && options.from_none.is_some(),
        Form::FromNone,
        ident,
        places,
    )?;
    push_form_if(
        unit && options.from_expr.is_some(),
        Form::FromExpr,
        ident,
        places,
    )?;
    push_fields(fields.fields.as_slice(), places)
}

fn push_enum(
    options: &FromMetaOptions,
    variants: &[InputVariant],
    places: &mut Items<Unsupported>,
) -> Mem<()>
    ensures { OnOk result (places.new ≡ places.old ++ spec.enum_forms options.now variants.now) }
{
    push_generic(&options.base, places)?;
    let transformed = options.base.post_transform.is_some();
    push_form_if(transformed, Form::Transform, &options.base.ident, places)?;
    push_variants(variants, places)
}

fn is_unit(style: Style) -> bool
    ensures { result ≡ body.is_unit style }
{
    match style {
        Style::Unit => true,
        Style::Tuple => false,
        Style::Struct => false,
    }
}
