//! The parts of the element that the fields of a struct take.

ghost use Rattle.std.specs.Prelude.{◌≡◌, IfOk, map};
ghost use Rattle.std.specs.Option.{option_copied};
ghost use Rattle.std.specs.Str.{bytes_eq};
ghost use Rattle.tok_types.specs.Ident.{ident_text};
ghost use Rattle.machine_fields.specs.Parts as spec;
ghost use Rattle.machine_forms.specs.Asks.{seen};
ghost use Rattle.machine_forms.specs.Decls as decls;
ghost use Rattle.machine_forms.specs.Receivers.{type_among};

use base_core::{Items, Mem, Text};
use codegen_program::Forwarded;
use machine_forms::Ask;
use node_core::Field;
use node_expr::Type;
use std::alloc::Global;
use tok_types::Ident;

/// The parts that a unit asks.
pub(crate) fn parts_asked<'p>(alloc: Global, asks: &[Ask<'p>]) -> Mem<Items<&'p Forwarded>>
    ensures { IfOk result (λ parts. map (λ it. it.now) parts ≡ spec.parts_asked (map seen asks.now)) }
{
    let mut parts = Items::new(alloc);
    for ask in asks {
        if let Ask::Part(it) = *ask {
            parts.push(it)?;
        }
    }
    Ok(parts)
}

/// The part that the field takes, of these. Options name at most five.
pub(crate) fn part_of<'p>(
    alloc: Global,
    parts: &[&'p Forwarded],
    field: &Field,
) -> Mem<Option<&'p Forwarded>>
    ensures { IfOk result (λ part. option_copied part ≡ spec.part_of (map (λ it. it.now) parts.now) field.now) }
{
    for it in parts {
        if is_taken_by(alloc, it, field)? {
            return Ok(Some(*it));
        }
    }
    Ok(None)
}

/// Whether the field takes the part.
fn is_taken_by(alloc: Global, it: &Forwarded, field: &Field) -> Mem<bool>
    ensures { IfOk result (λ is. is ≡ bytes_eq (ident_text it.now.member) (decls.member_name field.now)) }
{
    let member = it.member.to_text(alloc)?;
    let name = member_name(alloc, field)?;
    Ok(member.is(name.as_str()))
}

/// The name of the field as a member; one by place has none.
fn member_name(alloc: Global, field: &Field) -> Mem<Text>
    ensures { IfOk result (λ it. it ≡ decls.member_name field.now) }
{
    match &field.ident {
        Some(ident) => ident.to_text(alloc),
        None => Ok(Text::new(alloc)),
    }
}

/// The declared type of the first of the fields that has the name.
pub fn declared_type<'d>(alloc: Global, fields: &'d [Field], name: &Ident) -> Mem<Option<&'d Type>>
    ensures { IfOk result (λ ty. option_copied ty ≡ type_among fields.now (ident_text name.now)) }
{
    let name = name.to_text(alloc)?;
    for field in fields {
        if member_name(alloc, field)?.is(name.as_str()) {
            return Ok(Some(&field.ty));
        }
    }
    Ok(None)
}
