//! What a program makes of items of a text.

ghost use Rattle.std.specs.Prelude.{◌≡◌, Some, IfOk, map};
ghost use Rattle.machine_execute.specs.Elements.{HasOutcome, OnInput, machine_on};
ghost use Rattle.run_source.specs.Receiver as spec;

use crate::units::receiver;
use base_core::{Items, Mem};
use codegen_program::Program;
use law_options::Host;
use machine_execute::{Element, Outcome, Prepared};
use node_core::DeriveInput;
use std::alloc::Global;

/// What the receiver makes of each item, in order.
pub fn run_program<H: Host>(
    alloc: Global,
    program: &Program,
    subjects: &[DeriveInput],
    host: &H,
) -> Mem<Items<Outcome>>
    requires { spec.CanRun (H.says host.now) program.now }
    ensures { IfOk result (λ outcomes. map Some outcomes ≡ map (spec.outcome (H.says host.now) program.now) subjects.now) }
{
    match receiver(program)? {
        Some(unit) => outcomes_by(alloc, &Prepared::of(program), unit, subjects, host),
        None => unreachable!(),
    }
}

/// What the unit of this number makes of each item, in order.
fn outcomes_by<H: Host>(
    alloc: Global,
    program: &Prepared<'_>,
    unit: u32,
    subjects: &[DeriveInput],
    host: &H,
) -> Mem<Items<Outcome>>
    requires { (subject : DeriveInput) → HasOutcome (H.says host.now) program.now unit (OnInput subject) }
    ensures { IfOk result (λ outcomes. map Some outcomes ≡ map (λ subject. machine_on (H.says host.now) program.now unit (OnInput subject)) subjects.now) }
{
    let mut outcomes = Items::new(alloc);
    for subject in subjects {
        let outcome = program.execute(alloc, unit, Element::Input(subject), host)?;
        outcomes.push(outcome)?;
    }
    Ok(outcomes)
}
