//! Names that stand twice.

ghost use Rattle.std.specs.Prelude.{◌≡◌, ◌++◌, ◌||◌, IfOk, OnOk, length};
ghost use Rattle.machine_forms.specs.Names as spec;
ghost use Rattle.machine_forms.specs.Places.{refused_if};
ghost use Rattle.machine_forms.specs.Units.{AreGroups, group_at, has_twins as are_twins};

use crate::units::has_twins;
use base_core::{Items, Mem};
use codegen_program::{Program, Unit};
use node_core::{Data, DeriveInput, Field, Variant};
use std::alloc::Global;
use std::collections::BTreeSet;
use tok_types::{Ident, Span};

/// Names of a program that stand twice, at the later of the two, and declarations that derive a trait twice.
pub fn duplicate_names(
    alloc: Global,
    program: &Program,
    groups: &[Items<&Unit>],
) -> Mem<Items<Span>>
    requires { AreGroups program.now.units (length program.now.decls) groups.now }
    ensures { IfOk result (λ places. places ≡ spec.duplicate_names program.now) }
{
    names_in(alloc, groups, program.decls.as_slice())
}

/// Names of declarations that stand twice, at the later of the two: names of declarations, and of the fields and variants of
/// one body.
pub fn repeated_names(alloc: Global, decls: &[DeriveInput]) -> Mem<Items<Span>>
    ensures { IfOk result (λ places. places ≡ spec.repeated_names decls.now) }
{
    names_in(alloc, &[], decls)
}

fn names_in(alloc: Global, groups: &[Items<&Unit>], decls: &[DeriveInput]) -> Mem<Items<Span>>
    ensures { IfOk result (λ places. places ≡ spec.names_in (group_at groups.now) decls.now) }
{
    let mut places = Items::new(alloc);
    let mut known = BTreeSet::new(alloc);
    for number in 0..decls.len() {
        let decl = &decls[number];
        let twins = are_twins_at(groups, number);
        push_repeated(&mut places, twins, &decl.ident, &mut known)?;
        push_members(alloc, &mut places, &decl.body)?;
    }
    Ok(places)
}

/// Whether two of the units that are held for the number are of one derive.
fn are_twins_at(groups: &[Items<&Unit>], number: usize) -> bool
    ensures { result ≡ are_twins (group_at groups.now number) }
{
    match groups.get(number) {
        Some(units) => has_twins(units.as_slice()),
        None => false,
    }
}

/// Adds an identifier whose name is known, or that is refused in any case. From now on its name is known.
fn push_repeated<'p>(
    places: &mut Items<Span>,
    refused: bool,
    ident: &'p Ident,
    known: &mut BTreeSet<&'p str>,
) -> Mem<()>
    ensures places { OnOk result (places.new ≡ places.old ++ refused_if (refused || spec.is_held known.old ident.now.text) ident.now.span) }
    ensures known { OnOk result (spec.Learns known.old known.new (Some ident.now)) }
{
    if learn(ident, known)? || refused {
        places.push(ident.span)?;
    }
    Ok(())
}

/// Whether the name of the identifier is known. From now on it is.
fn learn<'p>(ident: &'p Ident, known: &mut BTreeSet<&'p str>) -> Mem<bool>
    ensures value { IfOk result (λ is_known. is_known ≡ spec.is_held known.old ident.now.text) }
    ensures known { OnOk result (spec.Learns known.old known.new (Some ident.now)) }
{
    let is_new = known.insert(ident.text.as_str())?;
    Ok(!is_new)
}

fn push_members(alloc: Global, places: &mut Items<Span>, body: &Data) -> Mem<()>
    ensures { OnOk result (places.new ≡ places.old ++ spec.repeated_members body.now) }
{
    match body {
        Data::Struct(it) => push_fields(alloc, places, it.fields.as_slice()),
        Data::Enum(it) => push_variants(alloc, places, it.variants.as_slice()),
        Data::Union(it) => push_fields(alloc, places, it.fields.named.as_slice()),
    }
}

fn push_variants(alloc: Global, places: &mut Items<Span>, variants: &[Variant]) -> Mem<()>
    ensures { OnOk result (places.new ≡ places.old ++ spec.repeated_variants variants.now) }
{
    let mut known = BTreeSet::new(alloc);
    for number in 0..variants.len() {
        let variant = &variants[number];
        push_repeated(places, false, &variant.ident, &mut known)?;
        push_fields(alloc, places, variant.fields.as_slice())?;
    }
    Ok(())
}

fn push_fields(alloc: Global, places: &mut Items<Span>, fields: &[Field]) -> Mem<()>
    ensures { OnOk result (places.new ≡ places.old ++ spec.repeated_fields fields.now) }
{
    let mut known = BTreeSet::new(alloc);
    for number in 0..fields.len() {
        push_field(places, &fields[number], &mut known)?;
    }
    Ok(())
}

/// Adds a field whose name is known. From now on its name, if it has one, is known.
fn push_field<'p>(
    places: &mut Items<Span>,
    field: &'p Field,
    known: &mut BTreeSet<&'p str>,
) -> Mem<()>
    ensures places { OnOk result (places.new ≡ places.old ++ spec.repeated_field (spec.is_held known.old) field.now.ident) }
    ensures known { OnOk result (spec.Learns known.old known.new field.now.ident) }
{
    match &field.ident {
        Some(ident) => push_repeated(places, false, ident, known),
        None => Ok(()),
    }
}
