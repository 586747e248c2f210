//! Single slots: the flattened field, and slots that no item has named.

ghost use Rattle.std.specs.Prelude.{◌≡◌, IfOk};
ghost use Rattle.error_fault.specs.Outcome.{with_siblings};
ghost use Rattle.machine_read.specs.Scopes.{under};
ghost use Rattle.machine_read.specs.Slots as spec;
ghost use Rattle.machine_state.specs.Seen.{change_of, slot_of};
ghost use Rattle.machine_state.specs.Steps.{Becomes, Changes, Moves};
ghost use Rattle.machine_run.specs.Steps.{change_at};

use crate::run::Run;
use base_core::{Items, Mem, Text};
use codegen_program::Alternatives;
use error_core::Result;
use error_fault::Fault;
use machine_read::{Declared, Host};
use machine_state::{Progress, Slot, State};
use machine_value::Value;
use node_expr::Type;
use std::alloc::{AllocError, Global};

impl<'p, H: Host, D: Declared> Run<'p, H, D> {
    /// Reads the flattened field from the items that were kept.
    #[tactic(auto, using(machine_state::proofs::Stopped::goes_over, machine_state::proofs::Stopped::goes_on))]
    pub(crate) fn read_flatten(
        &self,
        place: usize,
        names: &Alternatives,
        state: &mut State<'p>,
        progress: Progress,
    ) -> Mem<Progress>
        requires { D.reads_within self.now.scope.declared.now self.now.room }
        ensures { Moves (λ it. change_at place (under H.says D.earlier self.now.scope spec.read_flat names.now it.kept) it)
            state.old progress state.new result }
    {
        match progress.over() {
            Some(over) => Ok(over),
            None => {
                self.read_kept(place, names, state)?;
                Ok(Progress::Going)
            }
        }
    }

    /// Reads the field of a slot from the items that were kept.
    fn read_kept(&self, place: usize, names: &Alternatives, state: &mut State<'p>) -> Mem<()>
        requires { D.reads_within self.now.scope.declared.now self.now.room }
        ensures { Becomes (change_at place (under H.says D.earlier self.now.scope spec.read_flat names.now state.old.kept)) state.old state.new result }
    {
        let alloc = self.scope.alloc;
        let ty = state.take(alloc, place, self.nameless).ty();
        let answer = self.scope.list(self.room, ty, state.kept.as_slice());
        let (slot, faults) = read_slot(alloc, ty, names, answer)?;
        state.put(place, slot, faults)
    }

    /// Gives a slot that no item has named the value of its type without item, or says that it is missing.
    #[tactic(auto, using(machine_state::proofs::Stopped::goes_over, machine_state::proofs::Stopped::goes_on))]
    pub(crate) fn check_missing(
        &self,
        place: usize,
        ty: &'p Type,
        name: &Text,
        state: &mut State<'p>,
        progress: Progress,
    ) -> Mem<Progress>
        requires { D.reads_within self.now.scope.declared.now self.now.room }
        ensures { Moves (change_at place (under H.says D.earlier self.now.scope spec.check_missing ty.now name.now)) state.old progress state.new result }
    {
        match progress.over() {
            Some(over) => Ok(over),
            None => {
                self.check(place, ty, name, state)?;
                Ok(Progress::Going)
            }
        }
    }

    /// Gives the slot the value of its type without item, where no item has named it.
    fn check(&self, place: usize, ty: &'p Type, name: &Text, state: &mut State<'p>) -> Mem<()>
        requires { D.reads_within self.now.scope.declared.now self.now.room }
        ensures { Becomes (change_at place (under H.says D.earlier self.now.scope spec.check_missing ty.now name.now)) state.old state.new result }
    {
        let slot = state.take(self.scope.alloc, place, self.nameless);
        let (slot, faults) = self.named(ty, name, slot)?;
        state.put(place, slot, faults)
    }

    /// What a slot becomes that has to be seen, and the faults of that.
    fn named(&self, ty: &'p Type, name: &Text, slot: Slot<'p>) -> Mem<(Slot<'p>, Items<Fault>)>
        requires { D.reads_within self.now.scope.declared.now self.now.room }
        ensures { IfOk result (λ it. change_of it ≡ under H.says D.earlier self.now.scope spec.check_missing ty.now name.now (slot_of slot.entry)) }
    {
        let alloc = self.scope.alloc;
        match slot.into_parts() {
            Ok((ty, true, value)) => Ok((Slot::One(ty, true, value), Items::new(alloc))),
            Ok((_, false, _)) => {
                let none = self.scope.none(self.room, ty)?;
                absent(alloc, ty, name, none)
            }
            Err((ty, values)) => Ok((Slot::Several(ty, values), Items::new(alloc))),
        }
    }
}

/// What a slot becomes that nothing was read into, and the faults of that.
fn absent<'p>(
    alloc: Global,
    ty: &'p Type,
    name: &Text,
    none: Option<Value>,
) -> Mem<(Slot<'p>, Items<Fault>)>
    ensures { IfOk result (λ it. change_of it ≡ spec.absent ty.now name.now none) }
{
    match none {
        Some(value) => Ok((Slot::One(ty, true, Some(value)), Items::new(alloc))),
        None => {
            let fault = Fault::missing_field(alloc, name.as_str())?;
            Ok((Slot::One(ty, false, None), Items::of(alloc, fault)?))
        }
    }
}

/// What the slot of the flattened field becomes by an answer, and the faults of that; the names are those of its siblings.
fn read_slot<'p>(
    alloc: Global,
    ty: &'p Type,
    names: &Alternatives,
    answer: Result<Value>,
) -> Mem<(Slot<'p>, Items<Fault>)>
    ensures { Changes (λ outcome. spec.read_slot ty.now (with_siblings names.now outcome)) answer result }
{
    match answer {
        Ok(value) => Ok((Slot::One(ty, true, Some(value)), Items::new(alloc))),
        Err(fail) => match fail.into_error() {
            Some(error) => {
                let error = error.add_sibling_alts_among(alloc, names.set())?;
                Ok((Slot::One(ty, true, None), error.into_faults(alloc)?))
            }
            None => Err(AllocError),
        },
    }
}
