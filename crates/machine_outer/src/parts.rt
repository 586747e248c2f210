//! The parts of an element for what is built.

ghost use Rattle.std.specs.Prelude.{◌≡◌, IfOk, unwrap_or};
ghost use Rattle.std.specs.Option.{option_copied};
ghost use Rattle.std.specs.Str.{bytes_eq};
ghost use Rattle.machine_outer.specs.Seen.{aside_of, part_in};
ghost use Rattle.machine_steps.specs.Building as spec;
ghost use Rattle.machine_steps.specs.Elements.{element_of};
ghost use Rattle.machine_value.specs.Members as members;
ghost use Rattle.tok_types.specs.Ident.{ident_text};

use crate::aside::Aside;
use crate::syntax::{list_value, no_value, optional_value};
use base_core::{Mem, Text, TryClone};
use codegen_program::{Forwarded, Magic};
use machine_leaf::syntax_value;
use machine_read::Element;
use machine_value::Value;
use std::alloc::Global;
use tok_types::Ident;

/// The parts of an element, by the fields that take them.
#[derive(Clone, Copy)]
pub struct Parts<'a> {
    pub forwarded: &'a [Forwarded],
    /// What was made of the identifier.
    pub ident: &'a Value,
    /// The parts that were stored.
    pub aside: &'a Aside,
    pub element: Element<'a>,
}

impl Parts<'_> {
    /// The part that the field of this name takes.
    pub(crate) fn named(self, alloc: Global, name: &Text) -> Mem<Option<Value>>
        ensures { IfOk result (λ it. it ≡ part_in self.entry name.now) }
    {
        match part_named(self.forwarded, name.as_str()) {
            Some(what) => {
                let value = part_value(alloc, self.ident, self.aside, self.element, what)?;
                Ok(Some(value))
            }
            None => Ok(None),
        }
    }
}

/// The part that the field of this name takes. Options forward at most five parts.
pub fn part_named(forwarded: &[Forwarded], name: &str) -> Option<Magic>
    ensures { result ≡ spec.part_named forwarded.now name.now }
{
    for it in forwarded {
        if is_written(&it.member, name) {
            return Some(it.what);
        }
    }
    None
}

/// Whether the identifier is written as `text`.
fn is_written(ident: &Ident, text: &str) -> bool
    ensures { result ≡ bytes_eq (ident_text ident.now) text.now }
{
    if !ident.raw {
        return ident.text.is(text);
    }
    match text.strip_prefix("r#") {
        Some(name) => ident.text.is(name),
        None => false,
    }
}

/// Whether each part that is to be stored was stored.
pub fn are_stored(aside: &Aside, forwarded: &[Forwarded]) -> bool
    ensures { result ≡ spec.are_stored (aside_of aside.now) forwarded.now }
{
    for it in forwarded {
        if !is_stored(aside, it.what) {
            return false;
        }
    }
    true
}

fn is_stored(aside: &Aside, what: Magic) -> bool
    ensures { result ≡ spec.is_stored (aside_of aside.now) what }
{
    match what {
        Magic::Attrs => aside.attrs.is_some(),
        Magic::Generics => aside.generics.is_some(),
        Magic::Body | Magic::Fields => aside.body.is_some(),
        Magic::Ident
        | Magic::Vis
        | Magic::Ty
        | Magic::Discriminant
        | Magic::Bounds
        | Magic::Default => true,
    }
}

/// A part: the identifier, what was stored, or what the element itself has.
pub fn part_value(
    alloc: Global,
    ident: &Value,
    aside: &Aside,
    element: Element<'_>,
    what: Magic,
) -> Mem<Value>
    ensures { IfOk result (λ it. it ≡ spec.part_value ident.now (aside_of aside.now) (element_of element.entry) what) }
{
    match what {
        Magic::Ident => ident.try_clone(alloc),
        Magic::Attrs => stored_value(alloc, aside.attrs.as_ref()),
        Magic::Generics => stored_value(alloc, aside.generics.as_ref()),
        Magic::Body | Magic::Fields => stored_value(alloc, aside.body.as_ref()),
        Magic::Vis => vis_value(alloc, element),
        Magic::Ty => ty_value(alloc, element),
        Magic::Discriminant => discriminant_value(alloc, element),
        Magic::Bounds => bounds_value(alloc, element),
        Magic::Default => default_value(alloc, element),
    }
}

fn stored_value(alloc: Global, stored: Option<&Value>) -> Mem<Value>
    ensures { IfOk result (λ it. it ≡ unwrap_or (option_copied stored.entry) members.no_value) }
{
    match stored {
        Some(value) => value.try_clone(alloc),
        None => Ok(no_value(alloc)),
    }
}

fn vis_value(alloc: Global, element: Element<'_>) -> Mem<Value>
    ensures { IfOk result (λ it. it ≡ spec.vis_value (element_of element.entry)) }
{
    match element {
        Element::Input(it) => syntax_value(alloc, &it.vis),
        Element::Field(it) => syntax_value(alloc, &it.vis),
        Element::Nested(_) | Element::Variant(_) | Element::TypeParam(_) | Element::Attributes(_) =>
            Ok(no_value(alloc)),
    }
}

fn ty_value(alloc: Global, element: Element<'_>) -> Mem<Value>
    ensures { IfOk result (λ it. it ≡ spec.ty_value (element_of element.entry)) }
{
    match element {
        Element::Field(it) => syntax_value(alloc, &it.ty),
        Element::Nested(_)
        | Element::Input(_)
        | Element::Variant(_)
        | Element::TypeParam(_)
        | Element::Attributes(_) => Ok(no_value(alloc)),
    }
}

fn discriminant_value(alloc: Global, element: Element<'_>) -> Mem<Value>
    ensures { IfOk result (λ it. it ≡ spec.discriminant_value (element_of element.entry)) }
{
    match element {
        Element::Variant(it) => optional_value(alloc, it.discriminant.as_ref()),
        Element::Nested(_)
        | Element::Input(_)
        | Element::Field(_)
        | Element::TypeParam(_)
        | Element::Attributes(_) => Ok(no_value(alloc)),
    }
}

fn bounds_value(alloc: Global, element: Element<'_>) -> Mem<Value>
    ensures { IfOk result (λ it. it ≡ spec.bounds_value (element_of element.entry)) }
{
    match element {
        Element::TypeParam(it) => list_value(alloc, it.bounds.as_slice()),
        Element::Nested(_)
        | Element::Input(_)
        | Element::Field(_)
        | Element::Variant(_)
        | Element::Attributes(_) => Ok(no_value(alloc)),
    }
}

fn default_value(alloc: Global, element: Element<'_>) -> Mem<Value>
    ensures { IfOk result (λ it. it ≡ spec.default_value (element_of element.entry)) }
{
    match element {
        Element::TypeParam(it) => optional_value(alloc, it.default.as_ref()),
        Element::Nested(_)
        | Element::Input(_)
        | Element::Field(_)
        | Element::Variant(_)
        | Element::Attributes(_) => Ok(no_value(alloc)),
    }
}
