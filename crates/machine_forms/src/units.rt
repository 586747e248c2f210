//! The units of a declaration.

ghost use Rattle.std.specs.Prelude.{◌≡◌, [], IfOk, OnOk, length, map, replicate};
ghost use Rattle.machine_forms.specs.Asks.{seen};
ghost use Rattle.machine_forms.specs.Units as spec;
ghost use Rattle.machine_forms.specs.Units.{Adds, AreGroups};
ghost use Rattle.std.specs.List.{list_any};

use crate::ask::{Ask, push_unit};
use base_core::{Items, Mem};
use codegen_program::{Derive, Program, Unit};
use std::alloc::Global;

/// The units of each declaration, in order.
pub fn groups_of<'p>(alloc: Global, program: &'p Program) -> Mem<Items<Items<&'p Unit>>>
    ensures { IfOk result (λ groups. AreGroups program.now.units (length program.now.decls) groups) }
{
    let mut groups = empty_groups(alloc, program.decls.len())?;
    for unit in program.units.as_slice() {
        add(alloc, &mut groups, unit)?;
    }
    Ok(groups)
}

fn empty_groups<'p>(alloc: Global, count: usize) -> Mem<Items<Items<&'p Unit>>>
    ensures { IfOk result (λ groups. groups ≡ replicate count []) }
{
    let mut groups = Items::new(alloc);
    'fill: while groups.len() < count {
        groups.push(Items::new(alloc))?;
    }
    Ok(groups)
}

/// Adds a unit to those of its declaration, where there is one.
fn add<'p>(alloc: Global, groups: &mut Items<Items<&'p Unit>>, unit: &'p Unit) -> Mem<()>
    ensures { OnOk result (Adds groups.old groups.new unit.now) }
{
    let number = unit.decl as usize;
    if number < groups.len() {
        let mut group = groups.replace(number, Items::new(alloc));
        group.push(unit)?;
        groups.set(number, group);
    }
    Ok(())
}

/// What the units ask.
pub fn asks_of<'p>(alloc: Global, units: &[&'p Unit]) -> Mem<Items<Ask<'p>>>
    ensures { IfOk result (λ asks. map seen asks ≡ spec.asks_of (map (λ unit. unit.now) units.now)) }
{
    let mut asks = Items::new(alloc);
    for unit in units {
        push_unit(&mut asks, unit)?;
    }
    Ok(asks)
}

/// Which declarations items are read as.
pub fn item_flags(alloc: Global, program: &Program, groups: &[Items<&Unit>]) -> Mem<Items<bool>>
    requires { AreGroups program.now.units (length program.now.decls) groups.now }
    ensures { IfOk result (λ flags. flags ≡ spec.item_flags program.now) }
{
    let mut flags = Items::new(alloc);
    for number in 0..program.decls.len() {
        flags.push(reads_items(groups[number].as_slice()))?;
    }
    Ok(flags)
}

/// Whether one of the units reads items.
fn reads_items(units: &[&Unit]) -> bool
    ensures { result ≡ list_any (λ unit. spec.is_from_meta unit.derive) (map (λ unit. unit.now) units.now) }
{
    for unit in units {
        if unit.derive == Derive::FromMeta {
            return true;
        }
    }
    false
}

/// Whether items of a text are read as the declaration of the number.
pub fn is_receiver(units: &[Unit], number: usize) -> bool
    ensures { result ≡ spec.is_receiver units.now number }
{
    units.iter().any(|unit| unit.decl as usize == number && unit.derive == Derive::FromDeriveInput)
}

/// Whether two of the units are of one derive.
pub(crate) fn has_twins(units: &[&Unit]) -> bool
    ensures { result ≡ spec.has_twins (map (λ unit. unit.now) units.now) }
{
    for at in 0..units.len() {
        if has_derive(&units[at + 1..], units[at].derive) {
            return true;
        }
    }
    false
}

/// Whether one of the units is of the derive.
fn has_derive(units: &[&Unit], derive: Derive) -> bool
    ensures { result ≡ spec.has_derive derive (map (λ unit. unit.now) units.now) }
{
    for unit in units {
        if unit.derive == derive {
            return true;
        }
    }
    false
}
