//! Runs of units on elements.

ghost use Rattle.std.specs.Prelude.{◌≡◌, IfOk, Some};
ghost use Rattle.error_core.specs.Answers.{Answers};
ghost use Rattle.error_fault.specs.Outcome.{Outcome as OutcomeSeen};
ghost use Rattle.machine_value.specs.declared.value.Value.{Value as Datum};
ghost use Rattle.machine_execute.specs.Elements.{HasOutcome, element_of, machine_on, unit_on};

use crate::context::Context;
use crate::outcome::Outcome;
use crate::prepared::Prepared;
use crate::unit::unit_element;
use crate::units::{Earlier, read_declared};
use base_core::Mem;
use codegen_program::{Program, Unit};
use error_core::Result;
use machine_read::{Element, Host};
use machine_state::again;
use machine_value::Value;
use std::alloc::{AllocError, Global};

/// How many levels of types and declarations the reading of an element may go deep.
pub const MAX_READING: usize = 1024;

/// What the unit of this number makes of the element: its value, or all its faults in order with their fields and places.
/// None where the machine has no outcome: there is no such unit, the element is not of its kind, or its statements are stuck.
///
/// An element whose reading goes deeper than [`MAX_READING`] levels of types and declarations is want of memory.
///
/// ```
/// match try_execute(alloc, program, unit, element, &host) {
///     Ok(Some(outcome)) => shown(alloc, &outcome),
///     Ok(None) => Err(Fail::new(format_args!("it has no outcome"))),
///     Err(_) => Ok(Text::from_str(alloc, "no memory")?),
/// }
/// ```
pub fn try_execute<H: Host>(
    alloc: Global,
    program: &Program,
    unit: u32,
    element: Element<'_>,
    host: &H,
) -> Mem<Option<Outcome>>
    ensures { IfOk result (λ found. found ≡ machine_on (H.says host.now) program.now unit (element_of element.entry)) }
{
    Prepared::of(program).try_execute(alloc, unit, element, host)
}

/// What the unit of this number makes of the element, where it makes something: its value, or all its faults in order with
/// their fields and places.
///
/// An element whose reading goes deeper than [`MAX_READING`] levels of types and declarations is want of memory.
pub fn execute<H: Host>(
    alloc: Global,
    program: &Program,
    unit: u32,
    element: Element<'_>,
    host: &H,
) -> Mem<Outcome>
    requires { HasOutcome (H.says host.now) program.now unit (element_of element) }
    ensures { IfOk result (λ outcome. machine_on (H.says host.now) program.now unit (element_of element.entry) ≡ Some outcome) }
{
    Prepared::of(program).execute(alloc, unit, element, host)
}

/// What a unit makes of the element, where it makes something.
pub(crate) fn run_unit<H: Host>(
    context: &Context<'_, H>,
    unit: &Unit,
    element: Element<'_>,
) -> Mem<Option<Outcome>>
    ensures { IfOk result (λ found. found ≡ unit_on (H.says context.now.host.now) context.now.program.now unit.now (element_of element.entry)) }
{
    if unit.derive != element.derive() {
        return Ok(None);
    }
    let earlier = Earlier {
        context,
        bound: unit.decl as usize,
        read: read_declared::<H>,
    };
    match unit_element(context, &earlier, MAX_READING, unit, element)? {
        Some(answer) => Ok(Some(outcome_of(context.alloc, again(answer))?)),
        None => Ok(None),
    }
}

/// A value, or the faults of an error.
fn outcome_of(alloc: Global, answer: Result<Value>) -> Mem<Outcome>
    ensures { (outcome : OutcomeSeen Datum) → Answers (λ it. it) answer outcome → IfOk result (λ it. it ≡ outcome) }
{
    match answer {
        Ok(value) => Ok(Outcome::of(alloc, value)),
        Err(fail) => match fail.into_error() {
            Some(error) => Ok(Outcome::refused(error.into_faults(alloc)?)),
            None => Err(AllocError),
        },
    }
}
