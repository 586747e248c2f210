//! Forms that no run supports.

ghost use Rattle.std.specs.Prelude.{◌≡◌, ◌++◌, IfOk, OnOk, flat_map, length, map};
ghost use Rattle.std.specs.Option.{option_copied};
ghost use Rattle.std.specs.List.{list_any};
ghost use Rattle.std.specs.Str.{bytes_eq};
ghost use Rattle.machine_forms.specs.Asks.{seen};
ghost use Rattle.machine_forms.specs.Forms as spec;
ghost use Rattle.machine_forms.specs.Units.{AreGroups};

use crate::ask::Ask;
use crate::units::asks_of;
use base_core::{Items, Mem};
use codegen_core::{
    Form, Unsupported, is_generic, push_form_if, push_generated_call, push_generated_path,
};
use codegen_program::{DefaultSource, Fallback, PostfixTransform, Program, Unit};
use machine_steps::Callable;
use node_core::{Data, DeriveInput, Field, Variant};
use std::alloc::Global;

/// The names that generated code has for itself.
const GENERATED: [&str; 26] = [
    "__errors",
    "__items",
    "__item",
    "__flatten",
    "__fwd_attrs",
    "__attr",
    "__default",
    "__di",
    "__field",
    "__variant",
    "__type_param",
    "__data",
    "__err",
    "__path",
    "__name",
    "__other",
    "__inner",
    "__len",
    "__val",
    "__value",
    "__type_fallback",
    "__outer",
    "__nested",
    "__validate_body",
    "__body",
    "_darling",
];

/// The forms that no run supports.
pub fn unsupported_forms(
    alloc: Global,
    program: &Program,
    groups: &[Items<&Unit>],
) -> Mem<Items<Unsupported>>
    requires { AreGroups program.now.units (length program.now.decls) groups.now }
    ensures { IfOk result (λ places. places ≡ spec.unsupported program.now) }
{
    let mut places = Items::new(alloc);
    let decls = program.decls.as_slice();
    for number in 0..decls.len() {
        push_decl(
            alloc,
            &mut places,
            groups[number].as_slice(),
            &decls[number],
        )?;
    }
    Ok(places)
}

fn push_decl(
    alloc: Global,
    places: &mut Items<Unsupported>,
    units: &[&Unit],
    decl: &DeriveInput,
) -> Mem<()>
    ensures { OnOk result (places.new ≡ places.old ++ spec.unsupported_in (map (λ unit. unit.now) units.now) decl.now) }
{
    push_declared_forms(places, decl)?;
    let asks = asks_of(alloc, units)?;
    push_asks(places, asks.as_slice())
}

/// Adds the forms that a declaration shows itself: parameters, and names that generated code has for itself.
pub fn push_declared_forms(places: &mut Items<Unsupported>, decl: &DeriveInput) -> Mem<()>
    ensures { OnOk result (places.new ≡ places.old ++ spec.declared_forms decl.now) }
{
    push_form_if(
        is_generic(&decl.generics),
        Form::Generics,
        &decl.ident,
        places,
    )?;
    push_members(places, &decl.body)
}

fn push_members(places: &mut Items<Unsupported>, body: &Data) -> Mem<()>
    ensures { OnOk result (places.new ≡ places.old ++ spec.generated_members body.now) }
{
    match body {
        Data::Struct(it) => push_fields(places, it.fields.as_slice()),
        Data::Enum(it) => push_variants(places, it.variants.as_slice()),
        Data::Union(it) => push_fields(places, it.fields.named.as_slice()),
    }
}

fn push_variants(places: &mut Items<Unsupported>, variants: &[Variant]) -> Mem<()>
    ensures { OnOk result (places.new ≡ places.old ++ flat_map spec.generated_variant variants.now) }
{
    for variant in variants {
        push_fields(places, variant.fields.as_slice())?;
    }
    Ok(())
}

fn push_fields(places: &mut Items<Unsupported>, fields: &[Field]) -> Mem<()>
    ensures { OnOk result (places.new ≡ places.old ++ flat_map spec.generated_field fields.now) }
{
    for field in fields {
        push_field(places, field)?;
    }
    Ok(())
}

fn push_field(places: &mut Items<Unsupported>, field: &Field) -> Mem<()>
    ensures { OnOk result (places.new ≡ places.old ++ spec.generated_field field.now) }
{
    match &field.ident {
        Some(ident) => {
            let test = is_generated(ident.text.as_str());
            push_form_if(test, Form::GeneratedName, ident, places)
        }
        None => Ok(()),
    }
}

fn is_generated(text: &str) -> bool
    ensures { result ≡ spec.is_generated text.now }
{
    is_among(&GENERATED, text)
}

fn is_among(names: &[&str], text: &str) -> bool
    ensures { result ≡ list_any (λ name. bytes_eq name text.now) (map (λ name. name.now) names.now) }
{
    for name in names {
        if is_text(name, text) {
            return true;
        }
    }
    false
}

fn is_text(one: &str, other: &str) -> bool
    ensures { result ≡ bytes_eq one.now other.now }
{
    one == other
}

fn push_asks(places: &mut Items<Unsupported>, asks: &[Ask<'_>]) -> Mem<()>
    ensures { OnOk result (places.new ≡ places.old ++ flat_map spec.generated_ask (map seen asks.now)) }
{
    for ask in asks {
        push_ask(places, *ask)?;
    }
    Ok(())
}

fn push_ask(places: &mut Items<Unsupported>, ask: Ask<'_>) -> Mem<()>
    ensures { OnOk result (places.new ≡ places.old ++ spec.generated_ask (seen ask.entry)) }
{
    match ask {
        Ask::Read(arm) => {
            push_call(places, arm.with.as_ref())?;
            push_post(places, arm.post.as_ref())
        }
        Ask::Whole(DefaultSource::Explicit(callable)) => push_call(places, Some(callable)),
        Ask::Part(it) => push_call(places, it.with.as_ref()),
        Ask::Member(init) => push_call(places, fallback_call(&init.fallback)),
        Ask::Transform(post) => push_generated_path(&post.function, places),
        Ask::Called(callable, _) => push_call(places, Some(callable)),
        _ => Ok(()),
    }
}

/// The function of a fallback.
pub fn fallback_call(fallback: &Option<Fallback>) -> Option<&Callable>
    ensures { option_copied result ≡ spec.fallback_call fallback.now }
{
    match fallback {
        Some(Fallback::Explicit(callable)) => Some(callable),
        _ => None,
    }
}

fn push_call(places: &mut Items<Unsupported>, callable: Option<&Callable>) -> Mem<()>
    ensures { OnOk result (places.new ≡ places.old ++ spec.generated_callable (option_copied callable.entry)) }
{
    match callable {
        Some(callable) => push_generated_call(&callable.call, places),
        None => Ok(()),
    }
}

fn push_post(places: &mut Items<Unsupported>, post: Option<&PostfixTransform>) -> Mem<()>
    ensures { OnOk result (places.new ≡ places.old ++ spec.generated_post (option_copied post.entry)) }
{
    match post {
        Some(post) => push_generated_path(&post.function, places),
        None => Ok(()),
    }
}
