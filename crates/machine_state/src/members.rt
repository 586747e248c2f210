//! Members of structs.

ghost use Rattle.std.specs.Prelude.{◌≡◌, ◌++◌, ◌∷◌, [], IfOk, OnOk, cond};
ghost use Rattle.std.specs.Option.{option_copied};
ghost use Rattle.machine_steps.specs.Building as building;
ghost use Rattle.machine_steps.specs.Variants as variants;
ghost use Rattle.machine_value.specs.Members as spec;
ghost use Rattle.tok_types.specs.Ident.{ident_text};

use base_core::{Items, Mem, Text, TryClone};
use machine_value::Value;
use node_core::Style;
use std::alloc::Global;
use tok_types::Ident;

/// The member of this name of a struct; the empty text, where there is none.
pub fn member(alloc: Global, name: &Ident, whole: &Value) -> Mem<Value>
    ensures { IfOk result (λ it. it ≡ spec.member (ident_text name.now) whole.now) }
{
    match whole {
        Value::Struct { fields, .. } => {
            let name = name.to_text(alloc)?;
            member_in(alloc, &name, fields.as_slice())
        }
        _ => Ok(Value::Text(Text::new(alloc))),
    }
}

/// The member of this name among the members.
fn member_in(alloc: Global, name: &Text, members: &[(Text, Value)]) -> Mem<Value>
    ensures { IfOk result (λ it. it ≡ spec.member_in name.now members.now) }
{
    for member in members {
        if member.0 == *name {
            return member.1.try_clone(alloc);
        }
    }
    Ok(Value::Text(Text::new(alloc)))
}

/// Puts a member behind the others.
pub fn push_member(
    alloc: Global,
    members: &mut Items<(Text, Value)>,
    name: &Text,
    value: Value,
) -> Mem<()>
    ensures { OnOk result (members.new ≡ members.old ++ (name.now, value) ∷ []) }
{
    let name = name.try_clone(alloc)?;
    members.push((name, value))
}

/// The struct of this name with these members, written in this style.
pub fn struct_of(
    alloc: Global,
    name: &Ident,
    style: Style,
    fields: Items<(Text, Value)>,
) -> Mem<Value>
    ensures { IfOk result (λ it. it ≡ Value.Struct (ident_text name.now) style fields) }
{
    let name = name.to_text(alloc)?;
    Ok(Value::Struct {
        name,
        style,
        fields,
    })
}

/// The struct of this name with these members, written in this style, or its variant.
pub fn form_of(
    alloc: Global,
    name: &Ident,
    variant: Option<&Ident>,
    style: Style,
    fields: Items<(Text, Value)>,
) -> Mem<Value>
    ensures { IfOk result (λ it. it ≡ building.made style (ident_text name.now) (option_copied variant.entry) fields) }
{
    match variant {
        None => struct_of(alloc, name, style, fields),
        Some(variant) => variant_of(alloc, name, variant, Style::Struct, fields),
    }
}

/// The variant of this name of an enum with these members, written in this style.
pub fn variant_of(
    alloc: Global,
    ty: &Ident,
    name: &Ident,
    style: Style,
    fields: Items<(Text, Value)>,
) -> Mem<Value>
    ensures { IfOk result (λ it. it ≡ Value.Variant (ident_text ty.now) (ident_text name.now) style fields) }
{
    let ty = ty.to_text(alloc)?;
    let name = name.to_text(alloc)?;
    Ok(Value::Variant {
        ty,
        name,
        style,
        fields,
    })
}

/// The variant without members.
pub fn bare(alloc: Global, ty: &Ident, name: &Ident) -> Mem<Value>
    ensures { IfOk result (λ it. it ≡ variants.bare (ident_text ty.now) (ident_text name.now)) }
{
    variant_of(alloc, ty, name, Style::Unit, Items::new(alloc))
}

/// The variant of this one member.
pub fn wrapped(alloc: Global, ty: &Ident, name: &Ident, member: &Text, value: Value) -> Mem<Value>
    ensures { IfOk result (λ it. it ≡ variants.wrapped (ident_text ty.now) (ident_text name.now) member.now value) }
{
    let fields = one_member(alloc, member, value)?;
    variant_of(alloc, ty, name, one_style(member), fields)
}

/// The struct of this one member.
pub fn alone(alloc: Global, name: &Ident, member: &Text, value: Value) -> Mem<Value>
    ensures { IfOk result (λ it. it ≡ building.alone (ident_text name.now) member.now value) }
{
    let fields = one_member(alloc, member, value)?;
    struct_of(alloc, name, one_style(member), fields)
}

/// How a member that stands alone is written.
fn one_style(member: &Text) -> Style
    ensures { result ≡ building.one_style member.now }
{
    if is_unnamed(member) {
        Style::Tuple
    } else {
        Style::Struct
    }
}

fn one_member(alloc: Global, member: &Text, value: Value) -> Mem<Items<(Text, Value)>>
    ensures { IfOk result (λ it. it ≡ building.one_member member.now value) }
{
    let name = written_name(alloc, member)?;
    Items::of(alloc, (name, value))
}

/// The name of the member, which is empty where it has none.
fn written_name(alloc: Global, member: &Text) -> Mem<Text>
    ensures { IfOk result (λ it. it ≡ cond (building.is_unnamed member.now) [] member.now) }
{
    if is_unnamed(member) {
        return Ok(Text::new(alloc));
    }
    member.try_clone(alloc)
}

/// Whether the member has no name.
fn is_unnamed(member: &Text) -> bool
    ensures { result ≡ building.is_unnamed member.now }
{
    member.is("0")
}
