//! Declarations compiled to a program.

ghost use Rattle.std.specs.Prelude.{◌≡◌, ◌≤◌, ◌<◌, ◌^◌, ◌++◌, ◌∷◌, [], length, map, List, IfOk};
ghost use Rattle.run_accepted.specs.Attributes.{without_attributes};
ghost use Rattle.run_accepted.specs.Derives.{derives_of};
ghost use Rattle.run_accepted.specs.Compiled as spec;
ghost use Rattle.run_accepted.specs.Pairs.{Pair, pair, pairs_from, pairs_of};
ghost use Rattle.run_accepted.specs.Steps as steps;

use crate::rejected::CompileFail;
use crate::unit::unit_under;
use crate::{derives_of, without_attributes};
use base_core::{Items, Mem};
use codegen_program::{Decls, Derive, Program, Unit};
use node_core::DeriveInput;
use options_rows::RenameTable;
use std::alloc::Global;

/// The program of the declarations, in which each of their derives has a unit, or the first declaration and derive whose
/// options have faults, with all of these.
///
/// Which declarations have forms that no run reads yet is told by [`unbuilt`](crate::unbuilt), and not here.
pub fn compile(
    alloc: Global,
    decls: &[DeriveInput],
    table: &RenameTable,
) -> Result<Program, CompileFail>
    requires few { length decls.now < 2 ^ 32 }
    ensures { spec.Compiles table.now decls.now result }
{
    let mut units = Items::new(alloc);
    push_all(alloc, decls, table, &mut units)?;
    let decls = Decls::new(alloc, bare(alloc, decls)?)?;
    Ok(Program { decls, units })
}

/// The declarations without attributes.
fn bare(alloc: Global, decls: &[DeriveInput]) -> Mem<Items<DeriveInput>>
    ensures { IfOk result (λ it. it ≡ map without_attributes decls.now) }
{
    let mut bare = Items::new(alloc);
    for decl in decls {
        let decl = without_attributes(alloc, decl)?;
        bare.push(decl)?;
    }
    Ok(bare)
}

/// Adds the units of all declarations.
fn push_all(
    alloc: Global,
    decls: &[DeriveInput],
    table: &RenameTable,
    units: &mut Items<Unit>,
) -> Result<(), CompileFail>
    requires few { length decls.now < 2 ^ 32 }
    ensures { (before : List Pair) → steps.AreUnits table.now before units.old
        → steps.Leaves table.now (before ++ pairs_from 0 decls.now) units.new result }
{
    for (number, decl) in decls.iter().enumerate() {
        push_units(alloc, decl, number as u32, table, units)?;
    }
    Ok(())
}

/// Adds the units of the declaration of this number, one a derive.
fn push_units(
    alloc: Global,
    decl: &DeriveInput,
    number: u32,
    table: &RenameTable,
    units: &mut Items<Unit>,
) -> Result<(), CompileFail>
    ensures { (before : List Pair) → steps.AreUnits table.now before units.old
        → steps.Leaves table.now (before ++ pairs_of number decl.now) units.new result }
{
    let derives = derives_of(alloc, decl.attrs.as_slice())?;
    for it in derives.as_slice() {
        push_unit(alloc, decl, number, it.derive, table, units)?;
    }
    Ok(())
}

/// Adds the unit of one derive.
fn push_unit(
    alloc: Global,
    decl: &DeriveInput,
    number: u32,
    derive: Derive,
    table: &RenameTable,
    units: &mut Items<Unit>,
) -> Result<(), CompileFail>
    ensures { (before : List Pair) → steps.AreUnits table.now before units.old
        → steps.Leaves table.now (before ++ pair number decl.now derive ∷ []) units.new result }
{
    let unit = unit_under(alloc, decl, number, derive, table)?;
    units.push(unit)?;
    Ok(())
}
