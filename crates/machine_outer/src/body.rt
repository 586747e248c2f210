//! What callables make of the body of an element and of its generics.

ghost use Rattle.std.specs.Option.{option_copied};
ghost use Rattle.error_core.specs.Answers.{Answers};
ghost use Rattle.machine_read.specs.Scopes.{setting_in};
ghost use Rattle.machine_steps.specs.Elements.{element_of};
ghost use Rattle.machine_steps.specs.Parts as spec;
ghost use Rattle.machine_steps.specs.Reads.{Before};

use crate::syntax::unread;
use codegen_program::Callable;
use error_core::Result;
use machine_read::{Arg, Element, Host, Setting, Use};
use machine_value::Value;
use node_expr::Type;
use std::alloc::Global;

/// What a callable makes of the body of an item of a text, or of the fields of a variant, for a field of the type.
pub fn ask_body<H: Host>(
    alloc: Global,
    setting: &Setting<'_, H>,
    callable: &Callable,
    ty: Option<&Type>,
    element: Element<'_>,
) -> Result<Value>
    ensures { (before : Before) → Answers (λ it. it) result
        (spec.ask_body (setting_in H.says setting.now) before callable.now (option_copied ty.entry) (element_of element.entry)) }
{
    let Some(ty) = ty else {
        return unread(alloc);
    };
    match element {
        Element::Input(it) => setting.ask(alloc, callable, Use::Body, ty, Arg::Body(&it.body)),
        Element::Variant(it) => {
            setting.ask(alloc, callable, Use::Fields, ty, Arg::Fields(&it.fields))
        }
        Element::Nested(_) | Element::Field(_) | Element::TypeParam(_) | Element::Attributes(_) => {
            unread(alloc)
        }
    }
}

/// What a callable makes of the generics of an item of a text, for a field of the type.
pub fn ask_generics<H: Host>(
    alloc: Global,
    setting: &Setting<'_, H>,
    callable: &Callable,
    ty: Option<&Type>,
    element: Element<'_>,
) -> Result<Value>
    ensures { (before : Before) → Answers (λ it. it) result
        (spec.ask_generics (setting_in H.says setting.now) before callable.now (option_copied ty.entry) (element_of element.entry)) }
{
    let Some(ty) = ty else {
        return unread(alloc);
    };
    match element {
        Element::Input(it) => {
            setting.ask(
                alloc,
                callable,
                Use::Generics,
                ty,
                Arg::Generics(&it.generics),
            )
        }
        Element::Nested(_)
        | Element::Field(_)
        | Element::Variant(_)
        | Element::TypeParam(_)
        | Element::Attributes(_) => unread(alloc),
    }
}
