//! The members that take a part of the element.

ghost use Rattle.std.specs.Prelude.{◌≡◌, ◌++◌, IfOk, OnOk};
ghost use Rattle.std.specs.Option.{option_copied};
ghost use Rattle.codegen_outer.specs.Parts as spec;

use base_core::{Items, Mem, TryClone};
use codegen_program::{Forwarded, Magic, Stmt};
use options_types::ForwardedField;
use std::alloc::Global;
use tok_types::Ident;

/// Adds the member that takes this part, as the options of its field say.
pub(crate) fn push_field(
    alloc: Global,
    what: Magic,
    field: Option<&ForwardedField>,
    parts: &mut Items<Forwarded>,
) -> Mem<()>
    ensures { OnOk result (parts.new ≡ parts.old ++ spec.field_part what (option_copied field.entry)) }
{
    match field {
        Some(field) => {
            let part = field_part(alloc, what, field)?;
            parts.push(part)
        }
        None => Ok(()),
    }
}

fn field_part(alloc: Global, what: Magic, field: &ForwardedField) -> Mem<Forwarded>
    ensures { IfOk result (λ it. it ≡ spec.taken_by what field.now) }
{
    let member = field.ident.try_clone(alloc)?;
    let with = field.with.try_clone(alloc)?;
    let ty = Some(field.ty.try_clone(alloc)?);
    Ok(Forwarded {
        member,
        what,
        with,
        ty,
    })
}

/// Adds the member that takes this part as it stands.
pub(crate) fn push_ident(
    alloc: Global,
    what: Magic,
    ident: Option<&Ident>,
    parts: &mut Items<Forwarded>,
) -> Mem<()>
    ensures { OnOk result (parts.new ≡ parts.old ++ spec.ident_part what (option_copied ident.entry)) }
{
    match ident {
        Some(ident) => {
            let member = ident.try_clone(alloc)?;
            parts.push(Forwarded {
                member,
                what,
                with: None,
                ty: None,
            })
        }
        None => Ok(()),
    }
}

/// Adds the reading of the body, or of the fields, into this field, where there is one.
pub(crate) fn push_body(
    alloc: Global,
    field: Option<&ForwardedField>,
    stmts: &mut Items<Stmt>,
) -> Mem<()>
    ensures { OnOk result (stmts.new ≡ stmts.old ++ spec.read_body (option_copied field.entry)) }
{
    match field {
        Some(field) => {
            let ident = Some(field.ident.try_clone(alloc)?);
            let with = field.with.try_clone(alloc)?;
            stmts.push(Stmt::ReadBody { ident, with })
        }
        None => {
            stmts.push(Stmt::ReadBody {
                ident: None,
                with: None,
            })
        }
    }
}

/// Adds the reading of the generics into this field, where there is one.
pub(crate) fn push_generics(
    alloc: Global,
    field: Option<&ForwardedField>,
    stmts: &mut Items<Stmt>,
) -> Mem<()>
    ensures { OnOk result (stmts.new ≡ stmts.old ++ spec.read_generics (option_copied field.entry)) }
{
    match field {
        Some(field) => {
            let ident = field.ident.try_clone(alloc)?;
            let with = field.with.try_clone(alloc)?;
            stmts.push(Stmt::ReadGenerics { ident, with })
        }
        None => Ok(()),
    }
}
