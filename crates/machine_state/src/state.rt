//! The state of a run.

ghost use Rattle.std.specs.Prelude.{◌≡◌, [], OnOk, map, slice_set};
ghost use Rattle.machine_read.specs.Made.{named_type};
ghost use Rattle.machine_read.specs.Progress.{start};
ghost use Rattle.machine_read.specs.State.{declared, put, slot_at};
ghost use Rattle.machine_read.specs.Statements.{with_slot};
ghost use Rattle.machine_state.specs.Seen.{Change, slot_of, state_of};

use crate::slot::Slot;
use base_core::{Items, Mem, Text};
use error_fault::Fault;
use machine_read::NestedMeta;
use machine_value::Value;
use node_expr::Type;
use std::alloc::Global;

/// The state of a run.
pub struct State<'p> {
    pub slots: Items<Slot<'p>>,
    pub faults: Items<Fault>,
    /// The items that no arm takes, where they are kept.
    pub kept: Items<NestedMeta>,
    /// The default of the receiver.
    pub whole: Value,
}

impl<'p> State<'p> {
    /// No slot is declared yet.
    pub fn new(alloc: Global) -> State<'p>
        ensures { state_of result ≡ start }
    {
        State {
            slots: Items::new(alloc),
            faults: Items::new(alloc),
            kept: Items::new(alloc),
            whole: Value::Text(Text::new(alloc)),
        }
    }

    /// Begins anew: no slot is declared yet.
    pub fn restart(&mut self, alloc: Global)
        ensures { state_of self.new ≡ start }
    {
        *self = State::new(alloc);
    }

    /// Takes a slot out; one that is not there is an empty list of a type without a name. It is to be put back.
    pub fn take(&mut self, alloc: Global, place: usize, nameless: &'p Type) -> Slot<'p>
        requires { nameless.now ≡ named_type [] }
        ensures slot { slot_of result ≡ slot_at (map slot_of self.old.slots) place }
        ensures others { (change : Change) → put place change (state_of self.new) ≡ put place change (state_of self.old) }
    {
        let empty = Slot::Several(nameless, Items::new(alloc));
        if place < self.slots.len() {
            return self.slots.replace(place, empty);
        }
        empty
    }

    /// Declares the slot of a number.
    pub fn declare(
        &mut self,
        alloc: Global,
        number: usize,
        slot: Slot<'p>,
        nameless: &'p Type,
    ) -> Mem<()>
        requires { nameless.now ≡ named_type [] }
        ensures { OnOk result (state_of self.new ≡ with_slot number (slot_of slot.entry) (state_of self.old)) }
    {
        declare_at(alloc, &mut self.slots, number, slot, nameless)
    }

    /// Puts a slot back, and faults behind those before.
    #[tactic(auto, using(crate::proofs::Held::put_is))]
    pub fn put(&mut self, place: usize, slot: Slot<'p>, faults: Items<Fault>) -> Mem<()>
        ensures { OnOk result (state_of self.new ≡ put place (slot_of slot.entry, faults) (state_of self.old)) }
    {
        set_at(&mut self.slots, place, slot);
        self.faults.append(faults)
    }
}

/// Declares the slot of a number. Programs that options give number their slots one after another, so that each stands behind all
/// before it; a program by hand may skip numbers, and what is skipped takes memory as slots do.
fn declare_at<'p>(
    alloc: Global,
    slots: &mut Items<Slot<'p>>,
    number: usize,
    slot: Slot<'p>,
    nameless: &'p Type,
) -> Mem<()>
    requires { nameless.now ≡ named_type [] }
    ensures { OnOk result (map slot_of slots.new ≡ declared number (slot_of slot.entry) (map slot_of slots.old)) }
{
    if number < slots.len() {
        slots.set(number, slot);
        return Ok(());
    }
    for _at in slots.len()..number {
        slots.push(Slot::Several(nameless, Items::new(alloc)))?;
    }
    slots.push(slot)
}

/// Puts a slot in the place of another; nothing stands past the last.
fn set_at<'p>(slots: &mut Items<Slot<'p>>, place: usize, slot: Slot<'p>)
    ensures { map slot_of slots.new ≡ slice_set (map slot_of slots.old) place (slot_of slot.entry) }
{
    if place < slots.len() {
        slots.set(place, slot);
    }
}

impl Drop for State<'_> {
    fn drop(self) {
        let Self {
            slots: _slots,
            faults: _faults,
            kept: _kept,
            whole: _whole,
        } = self;
    }
}
