//! Attributes that are kept, and what is made of them.

ghost use Rattle.std.specs.Prelude.{◌≡◌, [], IfOk, OnOk};
ghost use Rattle.std.specs.Option.{option_copied};
ghost use Rattle.machine_outer.specs.Seen.{aside_of};
ghost use Rattle.machine_read.specs.Attributes as attributes;
ghost use Rattle.machine_read.specs.Progress.{Going, going};
ghost use Rattle.machine_read.specs.Receivers.{declared_type};
ghost use Rattle.machine_read.specs.State.{State as StateSeen};
ghost use Rattle.machine_run.specs.Runs.{done_by, making};
ghost use Rattle.machine_run.specs.Steps.{Keeps, Proceeds, reached};
ghost use Rattle.machine_state.specs.Seen.{answered, progress_of, state_of};
ghost use Rattle.machine_steps.specs.Parts.{attrs_stored};

use crate::run::Run;
use crate::standing::Standing;
use base_core::Mem;
use codegen_program::{Callable, Forward};
use error_core::Error;
use machine_outer::{Aside, attrs_outcome, passes};
use machine_read::{Declared, Host};
use machine_state::{Progress, known};
use machine_value::Value;
use node_core::Attribute;
use std::alloc::Global;
use std::result::Result;
use tok_types::Ident;

/// No attribute is kept yet.
#[tactic(auto, using(machine_state::proofs::Stopped::goes_over, machine_state::proofs::Stopped::goes_on))]
pub(crate) fn declare_forward(aside: &mut Aside, progress: Progress) -> Progress
    ensures { (state : StateSeen) → progress_of state (aside_of aside.new) result
        ≡ going (λ state aside. Going state (record aside { kept = [] })) (progress_of state (aside_of aside.old) progress) }
{
    match progress.over() {
        Some(over) => over,
        None => {
            aside.kept.clear();
            Progress::Going
        }
    }
}

/// Keeps an attribute that is not read, where it passes.
#[tactic(auto, using(machine_state::proofs::Stopped::goes_over, machine_state::proofs::Stopped::goes_on))]
pub(crate) fn keep(
    alloc: Global,
    forward: &Forward,
    attribute: &Attribute,
    aside: &mut Aside,
    progress: Progress,
) -> Mem<Progress>
    ensures { Keeps forward.now attribute.now aside.old progress aside.new result }
{
    if !passes(alloc, forward, attribute.meta.path())? {
        return Ok(progress);
    }
    match progress.over() {
        Some(over) => Ok(over),
        None => {
            aside.keep(alloc, attribute)?;
            Ok(Progress::Going)
        }
    }
}

impl<'p, H: Host, D: Declared> Run<'p, H, D> {
    /// Fills the field of the attributes that were kept, or puts the faults of its callable behind those before.
    #[tactic(auto, using(machine_state::proofs::Stopped::goes_over, machine_state::proofs::Stopped::goes_on))]
    pub(crate) fn forward_done(
        &self,
        ident: &Ident,
        with: Option<&Callable>,
        standing: &mut Standing<'p>,
        progress: Progress,
    ) -> Mem<Progress>
        ensures { Proceeds (going (done_by H.says self.now ident.now (option_copied with.entry))) standing.old progress standing.new result }
    {
        match progress.over() {
            Some(over) => Ok(over),
            None => {
                let answer = self.attrs_made(ident, with, standing.aside.kept.as_slice())?;
                store_attrs(self.scope.alloc, answer, standing)?;
                Ok(Progress::Going)
            }
        }
    }

    /// What is made of the attributes that were kept, for the field of this name.
    fn attrs_made(
        &self,
        ident: &Ident,
        with: Option<&Callable>,
        kept: &[Attribute],
    ) -> Mem<Result<Value, Error>>
        ensures { IfOk result (λ it. answered it ≡ making H.says self.now
            (λ setting receiver. attributes.attrs_outcome setting (option_copied with.entry) (declared_type receiver ident.now) kept.now)) }
    {
        let alloc = self.scope.alloc;
        let ty = self.receiver.declared_type(alloc, ident)?;
        known(attrs_outcome(alloc, &self.scope.setting, with, ty, kept))
    }
}

/// Stores what was made of the attributes, or puts the faults behind those before.
fn store_attrs(alloc: Global, answer: Result<Value, Error>, standing: &mut Standing<'_>) -> Mem<()>
    ensures { OnOk result (reached standing.new Progress.Going ≡ attrs_stored (answered answer) (state_of standing.old.state) (aside_of standing.old.aside)) }
{
    match answer {
        Ok(value) => {
            standing.aside.attrs = Some(value);
            Ok(())
        }
        Err(error) => {
            standing.aside.attrs = None;
            let faults = error.into_faults(alloc)?;
            standing.state.faults.append(faults)
        }
    }
}
