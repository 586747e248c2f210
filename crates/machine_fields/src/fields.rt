//! Where a unit reads the fields of a declaration.

ghost use Rattle.std.specs.Prelude.{◌≡◌, ◌++◌, IfOk, OnOk, get_or, map};
ghost use Rattle.std.specs.Option.{option_copied};
ghost use Rattle.machine_fields.specs.Fields as spec;
ghost use Rattle.machine_fields.specs.Parts.{without_parts};
ghost use Rattle.machine_forms.specs.Asks.{seen};
ghost use Rattle.machine_forms.specs.Receivers.{variants_of as variants_in};
ghost use Rattle.node_core.specs.Bodies.{field_list};

use crate::parts::{part_of, parts_asked};
use base_core::{Items, Mem};
use codegen_program::{Forwarded, Stmt, VariantArm, VariantForm};
use machine_forms::Ask;
use node_core::{Data, Field, Variant};
use std::alloc::{AllocError, Global};

/// Where a unit reads the fields of a struct or of a variant.
#[derive(Clone, Copy)]
pub enum FieldsAt {
    /// To slots, from this one on.
    Slots(usize),
    /// Each where the members of the struct are.
    Members,
    /// The one field as the whole variant is.
    Alone,
    Nowhere,
}

/// Where a unit that asks this reads the fields of a struct, or of each variant of an enum.
pub(crate) fn places_in(alloc: Global, body: &Data, asks: &[Ask<'_>]) -> Mem<Items<FieldsAt>>
    ensures { IfOk result (λ places. places ≡ spec.places_in body.now (map seen asks.now)) }
{
    match body {
        Data::Struct(_) => Items::of(alloc, FieldsAt::Members),
        Data::Enum(it) => variants_at(alloc, asks, it.variants.as_slice()),
        Data::Union(_) => Ok(Items::new(alloc)),
    }
}

/// The place of this number; what has none is read nowhere.
pub fn place_at(places: &[FieldsAt], number: usize) -> FieldsAt
    ensures { result ≡ get_or places.now number FieldsAt.Nowhere }
{
    match places.get(number) {
        Some(place) => *place,
        None => FieldsAt::Nowhere,
    }
}

/// Where a unit that asks this reads the fields of each variant.
fn variants_at(alloc: Global, asks: &[Ask<'_>], variants: &[Variant]) -> Mem<Items<FieldsAt>>
    ensures { IfOk result (λ places. places ≡ spec.variants_at 0 (spec.variants_asked (map seen asks.now)) variants.now) }
{
    let arms = arms_asked(alloc, asks)?;
    arms_at(alloc, arms.as_slice(), variants)
}

/// The arms of the variants that a unit reads.
fn arms_asked<'p>(alloc: Global, asks: &[Ask<'p>]) -> Mem<Items<&'p VariantArm<Stmt>>>
    ensures { IfOk result (λ arms. spec.reads_by arms ≡ spec.variants_asked (map seen asks.now)) }
{
    let mut arms = Items::new(alloc);
    for ask in asks {
        if let Ask::Variant(arm) = *ask {
            arms.push(arm)?;
        }
    }
    Ok(arms)
}

/// Where the fields of each variant are read by these arms, which stand in the order of the variants. More slots than a
/// `usize` counts are want of memory.
fn arms_at(alloc: Global, arms: &[&VariantArm<Stmt>], variants: &[Variant]) -> Mem<Items<FieldsAt>>
    ensures { IfOk result (λ places. places ≡ spec.variants_at 0 (spec.reads_by arms.now) variants.now) }
{
    let mut places = Items::new(alloc);
    let mut first = 0;
    let mut rest = arms;
    for variant in variants {
        let form = own_form(rest, variant);
        places.push(read_at(first, form))?;
        first = next_slot(first, form, variant)?;
        rest = behind(rest, form);
    }
    Ok(places)
}

/// How the variant is read, where the next of the arms is its own.
fn own_form<'a>(arms: &[&'a VariantArm<Stmt>], variant: &Variant) -> Option<&'a VariantForm<Stmt>>
    ensures { spec.way_by (option_copied result) ≡ spec.own_way (spec.reads_by arms.now) variant.now }
{
    match arms.first() {
        Some(arm) if arm.ident.text == variant.ident.text => Some(&arm.form),
        _ => None,
    }
}

/// The arms behind that of a variant, where the next of them was its own.
fn behind<'s, 'a>(
    arms: &'s [&'a VariantArm<Stmt>],
    form: Option<&VariantForm<Stmt>>,
) -> &'s [&'a VariantArm<Stmt>]
    ensures { spec.reads_by result.now ≡ spec.behind (spec.way_by (option_copied form.entry)) (spec.reads_by arms.now) }
{
    if form.is_none() || arms.is_empty() {
        return arms;
    }
    &arms[1..]
}

/// Where the fields of a variant of this form are read, whose slots begin at `first`.
fn read_at(first: usize, form: Option<&VariantForm<Stmt>>) -> FieldsAt
    ensures { result ≡ spec.read_at first (spec.way_by (option_copied form.entry)) }
{
    match form {
        Some(VariantForm::Struct(_)) => FieldsAt::Slots(first),
        Some(VariantForm::Transparent { .. }) => FieldsAt::Alone,
        Some(VariantForm::Unit) | None => FieldsAt::Nowhere,
    }
}

/// Where the slots of the variants behind it begin.
fn next_slot(first: usize, form: Option<&VariantForm<Stmt>>, variant: &Variant) -> Mem<usize>
    ensures { IfOk result (λ next. next ≡ spec.next_slot first (spec.way_by (option_copied form.entry)) variant.now) }
{
    match form {
        Some(VariantForm::Struct(_)) => {
            let count = variant.fields.as_slice().len();
            first.checked_add(count).ok_or(AllocError)
        }
        Some(VariantForm::Transparent { .. } | VariantForm::Unit) | None => Ok(first),
    }
}

/// The fields that have the slots of these numbers by a unit that asks this. One that takes a part of the element has none.
pub fn slot_fields<'d>(alloc: Global, asks: &[Ask<'_>], body: &'d Data) -> Mem<Items<&'d Field>>
    ensures { IfOk result (λ fields. map (λ field. field.now) fields ≡ spec.slot_fields (map seen asks.now) body.now) }
{
    let mut fields = Items::new(alloc);
    match body {
        Data::Struct(it) => {
            let parts = parts_asked(alloc, asks)?;
            push_without_parts(alloc, &mut fields, parts.as_slice(), it.fields.as_slice())?;
        }
        Data::Enum(it) => {
            let variants = it.variants.as_slice();
            let places = variants_at(alloc, asks, variants)?;
            push_held(&mut fields, places.as_slice(), variants)?;
        }
        Data::Union(_) => {}
    }
    Ok(fields)
}

/// Adds the fields of variants that have slots.
fn push_held<'d>(
    fields: &mut Items<&'d Field>,
    places: &[FieldsAt],
    variants: &'d [Variant],
) -> Mem<()>
    ensures { OnOk result (map (λ field. field.now) fields.new ≡ map (λ field. field.now) fields.old ++ spec.held_fields places.now variants.now) }
{
    for number in 0..variants.len() {
        let place = place_at(places, number);
        push_held_by(fields, place, &variants[number])?;
    }
    Ok(())
}

/// Adds the fields of a variant, where they have slots.
fn push_held_by<'d>(fields: &mut Items<&'d Field>, place: FieldsAt, variant: &'d Variant) -> Mem<()>
    ensures { OnOk result (map (λ field. field.now) fields.new
        ≡ map (λ field. field.now) fields.old ++ spec.held_by place (field_list variant.now.fields)) }
{
    match place {
        FieldsAt::Slots(_) => push_fields(fields, variant.fields.as_slice()),
        FieldsAt::Members | FieldsAt::Alone | FieldsAt::Nowhere => Ok(()),
    }
}

/// Adds the fields of a struct that take none of the parts.
fn push_without_parts<'d>(
    alloc: Global,
    fields: &mut Items<&'d Field>,
    parts: &[&Forwarded],
    more: &'d [Field],
) -> Mem<()>
    ensures { OnOk result (map (λ field. field.now) fields.new
        ≡ map (λ field. field.now) fields.old ++ without_parts (map (λ it. it.now) parts.now) more.now) }
{
    for field in more {
        if part_of(alloc, parts, field)?.is_none() {
            fields.push(field)?;
        }
    }
    Ok(())
}

fn push_fields<'d>(fields: &mut Items<&'d Field>, more: &'d [Field]) -> Mem<()>
    ensures { OnOk result (map (λ field. field.now) fields.new ≡ map (λ field. field.now) fields.old ++ more.now) }
{
    for field in more {
        fields.push(field)?;
    }
    Ok(())
}

/// The variants of an enum; a struct has none.
pub fn variants_of(body: &Data) -> &[Variant]
    ensures { result.now ≡ variants_in body.now }
{
    match body {
        Data::Enum(it) => it.variants.as_slice(),
        Data::Struct(_) | Data::Union(_) => &[],
    }
}
