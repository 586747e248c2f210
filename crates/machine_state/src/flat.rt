//! Statements that hold no statements, but those over items and over single slots.

ghost use Rattle.std.specs.Prelude.{◌≡◌, []};
ghost use Rattle.std.specs.Option.{option_copied};
ghost use Rattle.machine_read.specs.Attributes.{refuse as refused};
ghost use Rattle.machine_read.specs.Made.{named_type};
ghost use Rattle.machine_read.specs.Progress.{Aside, going, unless_faults};
ghost use Rattle.machine_read.specs.Statements.{moving, placed, with_slot};
ghost use Rattle.machine_state.specs.Seen.{progress_of, slot_of, state_of};
ghost use Rattle.machine_state.specs.Steps.{Goes, Moves, Refuses};

use crate::faults::{error_of, faults_in};
use crate::progress::Progress;
use crate::slot::Slot;
use crate::state::State;
use base_core::{Items, Mem, Text};
use error_core::Fail;
use error_fault::Fault;
use node_expr::Type;
use std::alloc::Global;
use std::mem;

/// No fault has been met yet.
#[tactic(auto, using(crate::proofs::Stopped::goes_over, crate::proofs::Stopped::goes_on))]
pub fn declare_errors(state: &mut State<'_>, progress: Progress) -> Progress
    ensures { (aside : Aside) → progress_of (state_of state.new) aside result
        ≡ moving (λ state. record state { faults = [] }) (progress_of (state_of state.old) aside progress) }
{
    match progress.over() {
        Some(over) => over,
        None => {
            state.faults.clear();
            Progress::Going
        }
    }
}

/// No item is kept yet.
#[tactic(auto, using(crate::proofs::Stopped::goes_over, crate::proofs::Stopped::goes_on))]
pub fn declare_buffer(state: &mut State<'_>, progress: Progress) -> Progress
    ensures { (aside : Aside) → progress_of (state_of state.new) aside result
        ≡ moving (λ state. record state { kept = [] }) (progress_of (state_of state.old) aside progress) }
{
    match progress.over() {
        Some(over) => over,
        None => {
            state.kept.clear();
            Progress::Going
        }
    }
}

/// The slot of a number.
#[tactic(auto, using(crate::proofs::Stopped::goes_over, crate::proofs::Stopped::goes_on))]
pub fn declare<'p>(
    alloc: Global,
    number: usize,
    slot: Slot<'p>,
    nameless: &'p Type,
    state: &mut State<'p>,
    progress: Progress,
) -> Mem<Progress>
    requires { nameless.now ≡ named_type [] }
    ensures { Moves (with_slot number (slot_of slot.entry)) state.old progress state.new result }
{
    match progress.over() {
        Some(over) => Ok(over),
        None => {
            state.declare(alloc, number, slot, nameless)?;
            Ok(Progress::Going)
        }
    }
}

/// Puts faults behind those before.
#[tactic(auto, using(crate::proofs::Stopped::goes_over, crate::proofs::Stopped::goes_on))]
fn refuse(faults: Items<Fault>, state: &mut State<'_>, progress: Progress) -> Mem<Progress>
    ensures { Goes (refused faults) state.old progress state.new result }
{
    match progress.over() {
        Some(over) => Ok(over),
        None => {
            state.faults.append(faults)?;
            Ok(Progress::Going)
        }
    }
}

/// Puts the faults of a list that is none behind those before.
pub fn refuse_list(
    alloc: Global,
    fail: Fail,
    state: &mut State<'_>,
    progress: Progress,
) -> Mem<Progress>
    ensures { Refuses fail state.old progress state.new result }
{
    let faults = faults_in(alloc, fail)?;
    refuse(faults, state, progress)
}

/// Ends the run where there are faults. They stand in the field of the name, where one is given.
#[tactic(auto, using(crate::proofs::Stopped::goes_over, crate::proofs::Stopped::goes_on))]
pub fn check_errors(
    alloc: Global,
    location: Option<&Text>,
    state: &mut State<'_>,
    progress: Progress,
) -> Mem<Progress>
    ensures { Goes (going (λ it aside. unless_faults (placed (option_copied location.entry) it.faults) it aside)) state.old progress state.new result }
{
    match progress.over() {
        Some(over) => Ok(over),
        None => {
            if state.faults.is_empty() {
                return Ok(Progress::Going);
            }
            let faults = mem::replace(&mut state.faults, Items::new(alloc));
            Ok(Progress::Ended(error_of(alloc, faults, location)?))
        }
    }
}
