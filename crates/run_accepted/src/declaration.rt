//! Declarations whose form no run reads yet.

ghost use Rattle.std.specs.Prelude.{◌≡◌, ◌++◌, [], flat_map, IfOk, OnOk};
ghost use Rattle.std.specs.List.{All};
ghost use Rattle.run_accepted.specs.Unbuilt as spec;

use crate::fields::push_parts;
use crate::options::push_options;
use crate::{Derived, derives_of};
use base_core::{Items, Mem};
use codegen_program::Derive;
use node_core::{Data, DeriveInput, Fields};
use std::alloc::Global;
use tok_types::Span;

/// Where the declarations have forms that no run reads yet.
///
/// Of each declaration these are, in this order: each derive but `FromMeta` and `FromDeriveInput`; and under
/// `FromDeriveInput` its name, where it is no struct with braces, each item of its own options `transparent`, `supports` and
/// `from_ident`, and each field that takes the body or the generics of the item.
pub fn unbuilt(alloc: Global, decls: &[DeriveInput]) -> Mem<Items<Span>>
    ensures places { IfOk result (λ it. it ≡ spec.unbuilt decls.now) }
    ensures none { IfOk result (λ it. it ≡ [] → All spec.IsBuilt decls.now) }
{
    let mut spans = Items::new(alloc);
    push_all(alloc, decls, &mut spans)?;
    Ok(spans)
}

/// Adds the places of all declarations.
fn push_all(alloc: Global, decls: &[DeriveInput], spans: &mut Items<Span>) -> Mem<()>
    ensures { OnOk result (spans.new ≡ spans.old ++ spec.unbuilt decls.now) }
{
    for decl in decls {
        push_unbuilt(alloc, decl, spans)?;
    }
    Ok(())
}

/// Adds the places of one declaration.
fn push_unbuilt(alloc: Global, decl: &DeriveInput, spans: &mut Items<Span>) -> Mem<()>
    ensures { OnOk result (spans.new ≡ spans.old ++ spec.unbuilt_in decl.now) }
{
    let derives = derives_of(alloc, decl.attrs.as_slice())?;
    push_derives(derives.as_slice(), spans)?;
    if derives_input(derives.as_slice()) {
        return push_input(alloc, decl, spans);
    }
    Ok(())
}

fn derives_input(derives: &[Derived]) -> bool
    ensures { result ≡ spec.derives_input derives.now }
{
    derives
        .iter()
        .any(|it| it.derive == Derive::FromDeriveInput)
}

/// Adds the places where items of a text can't be read as the declaration.
fn push_input(alloc: Global, decl: &DeriveInput, spans: &mut Items<Span>) -> Mem<()>
    ensures { OnOk result (spans.new ≡ spans.old ++ spec.input_places decl.now) }
{
    push_body(decl, spans)?;
    push_options(alloc, decl.attrs.as_slice(), spans)?;
    push_parts(&decl.body, spans)
}

/// Adds the place of the name, where the body is no struct with braces.
fn push_body(decl: &DeriveInput, spans: &mut Items<Span>) -> Mem<()>
    ensures { OnOk result (spans.new ≡ spans.old ++ spec.body_places decl.now) }
{
    if has_named_fields(&decl.body) {
        return Ok(());
    }
    spans.push(decl.ident.span)
}

fn has_named_fields(body: &Data) -> bool
    ensures { result ≡ spec.has_named_fields body.now }
{
    match body {
        Data::Struct(it) => are_named(&it.fields),
        Data::Enum(_) => false,
        Data::Union(_) => false,
    }
}

fn are_named(fields: &Fields) -> bool
    ensures { result ≡ spec.are_named fields.now }
{
    match fields {
        Fields::Named(_) => true,
        Fields::Unnamed(_) => false,
        Fields::Unit => false,
    }
}

/// Adds the places of the derives that no unit is made of.
fn push_derives(derives: &[Derived], spans: &mut Items<Span>) -> Mem<()>
    ensures { OnOk result (spans.new ≡ spans.old ++ flat_map spec.derive_places derives.now) }
{
    for it in derives {
        if !is_compiled(it.derive) {
            spans.push(it.span)?;
        }
    }
    Ok(())
}

fn is_compiled(derive: Derive) -> bool
    ensures { result ≡ spec.is_compiled derive }
{
    match derive {
        Derive::FromMeta => true,
        Derive::FromAttributes => false,
        Derive::FromDeriveInput => true,
        Derive::FromField => false,
        Derive::FromTypeParam => false,
        Derive::FromVariant => false,
    }
}
