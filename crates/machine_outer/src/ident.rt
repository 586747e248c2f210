//! The identifier of an element.

ghost use Rattle.std.specs.Prelude.{◌≡◌, IfOk};
ghost use Rattle.std.specs.Option.{option_copied};
ghost use Rattle.error_core.specs.Answers.{Answers};
ghost use Rattle.machine_read.specs.Scopes.{setting_in};
ghost use Rattle.machine_steps.specs.Building as spec;
ghost use Rattle.machine_steps.specs.Elements.{element_of};
ghost use Rattle.machine_steps.specs.Seen.{seen_arg};

use crate::syntax::{no_value, optional_value, unread};
use base_core::Mem;
use codegen_program::{Callable, Forwarded, Magic};
use error_core::Result;
use machine_leaf::syntax_value;
use machine_read::{Arg, Element, Host, Setting, Use};
use machine_value::Value;
use node_expr::Type;
use std::alloc::Global;

/// What a callable makes of the identifier, for a field of the type. Without one it stands as it is.
pub fn ident_outcome<H: Host>(
    alloc: Global,
    setting: &Setting<'_, H>,
    with: Option<&Callable>,
    ty: Option<&Type>,
    element: Element<'_>,
) -> Result<Value>
    ensures { Answers (λ it. it) result
        (spec.ident_outcome (setting_in H.says setting.now) (option_copied with.entry) (option_copied ty.entry) (element_of element.entry)) }
{
    let Some(callable) = with else {
        return Ok(ident_value(alloc, element)?);
    };
    match ty {
        Some(ty) => setting.ask(alloc, callable, ident_use(element), ty, ident_arg(element)),
        None => unread(alloc),
    }
}

/// What is made of the identifier, where it is among the parts.
pub fn ident_among<H: Host>(
    alloc: Global,
    setting: &Setting<'_, H>,
    forwarded: &[Forwarded],
    element: Element<'_>,
) -> Result<Value>
    ensures { Answers (λ it. it) result
        (spec.ident_among (setting_in H.says setting.now) forwarded.now (element_of element.entry)) }
{
    for it in forwarded {
        match it.what {
            Magic::Ident => {
                return ident_outcome(alloc, setting, it.with.as_ref(), it.ty.as_ref(), element);
            }
            _ => {}
        }
    }
    Ok(no_value(alloc))
}

/// The identifier as a value; a field may have none.
fn ident_value(alloc: Global, element: Element<'_>) -> Mem<Value>
    ensures { IfOk result (λ it. it ≡ spec.ident_value (element_of element.entry)) }
{
    match element {
        Element::Input(it) => syntax_value(alloc, &it.ident),
        Element::Variant(it) => syntax_value(alloc, &it.ident),
        Element::TypeParam(it) => syntax_value(alloc, &it.ident),
        Element::Field(it) => optional_value(alloc, it.ident.as_ref()),
        Element::Nested(_) | Element::Attributes(_) => Ok(no_value(alloc)),
    }
}

/// The identifier as it is handed on; a field may have none.
fn ident_arg(element: Element<'_>) -> Arg<'_>
    ensures { seen_arg result ≡ spec.ident_seen (element_of element.entry) }
{
    match element {
        Element::Input(it) => Arg::Ident(&it.ident),
        Element::Variant(it) => Arg::Ident(&it.ident),
        Element::TypeParam(it) => Arg::Ident(&it.ident),
        Element::Field(it) => Arg::OptionalIdent(it.ident.as_ref()),
        Element::Nested(_) | Element::Attributes(_) => Arg::Nothing,
    }
}

fn ident_use(element: Element<'_>) -> Use
    ensures { result ≡ spec.ident_use (element_of element.entry) }
{
    match element {
        Element::Field(_) => Use::OptionalIdent,
        Element::Nested(_)
        | Element::Input(_)
        | Element::Variant(_)
        | Element::TypeParam(_)
        | Element::Attributes(_) => Use::Ident,
    }
}
