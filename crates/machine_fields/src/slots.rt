//! What a unit asks of slots.

ghost use Rattle.std.specs.Prelude.{◌≡◌, IfOk, map};
ghost use Rattle.machine_forms.specs.Asks.{is_asked, seen, slot_asks};
ghost use Rattle.machine_fields.specs.Slots as spec;

use base_core::Mem;
use machine_forms::{Ask, Asked};
use std::alloc::Global;
use std::collections::BTreeSet;

/// What a unit asks of slots.
pub struct Slots {
    /// Those that take a list of values.
    pub many: BTreeSet<usize>,
    /// Those at whose own types items are read.
    pub read: BTreeSet<usize>,
    /// Those for whose values the defaults of their types may stand.
    pub default: BTreeSet<usize>,
}

impl Slots {
    /// What is asked of slots.
    pub(crate) fn of(alloc: Global, asks: &[Ask<'_>]) -> Mem<Slots>
        ensures { IfOk result (λ slots. spec.seen_slots slots ≡ slot_asks (map seen asks.now)) }
    {
        let many = slots_asked(alloc, Asked::Many, asks)?;
        let read = slots_asked(alloc, Asked::Read, asks)?;
        let default = slots_asked(alloc, Asked::Default, asks)?;
        Ok(Slots {
            many,
            read,
            default,
        })
    }

    /// Whether the slot takes a list of values.
    pub fn is_many(&self, slot: usize) -> bool
        ensures { result ≡ spec.has_slot self.now.many slot }
    {
        is_held(&self.many, slot)
    }

    /// Whether items are read at the type of the slot itself.
    pub fn is_read(&self, slot: usize) -> bool
        ensures { result ≡ spec.has_slot self.now.read slot }
    {
        is_held(&self.read, slot)
    }

    /// Whether the default of the slot's type may stand for its value.
    pub fn is_default(&self, slot: usize) -> bool
        ensures { result ≡ spec.has_slot self.now.default slot }
    {
        is_held(&self.default, slot)
    }
}

fn is_held(slots: &BTreeSet<usize>, slot: usize) -> bool
    ensures { result ≡ spec.has_slot slots.now slot }
{
    slots.contains(&slot)
}

/// The slots of which this is asked.
fn slots_asked(alloc: Global, what: Asked, asks: &[Ask<'_>]) -> Mem<BTreeSet<usize>>
    ensures { IfOk result (λ slots. spec.has_slot slots ≡ is_asked what (map seen asks.now)) }
{
    let mut slots = BTreeSet::new(alloc);
    for ask in asks {
        if let Some(slot) = ask.slot(what) {
            slots.insert(slot as usize)?;
        }
    }
    Ok(slots)
}

impl Drop for Slots {
    fn drop(self) {
        let Self {
            many: _many,
            read: _read,
            default: _default,
        } = self;
    }
}
