//! Where a unit reads each field of a struct.

ghost use Rattle.std.specs.Prelude.{◌≡◌, IfOk, map};
ghost use Rattle.std.specs.Option.{option_copied};
ghost use Rattle.machine_fields.specs.Members as spec;
ghost use Rattle.machine_forms.specs.Asks.{seen};

use crate::parts::{part_of, parts_asked};
use base_core::{Items, Mem};
use codegen_program::{Derive, Forwarded};
use machine_forms::Ask;
use machine_places::OuterPlace;
use machine_types::part_place;
use node_core::{Data, Field};
use std::alloc::{AllocError, Global};

/// Where a unit reads a field of a struct.
#[derive(Clone, Copy)]
pub enum MemberAt {
    /// To the slot of this number.
    Slot(usize),
    /// It takes the part of the element that stands at this place.
    Part {
        at: OuterPlace,
        /// Whether a function converts the part.
        with: bool,
    },
}

/// Where a unit of the derive that asks this reads each field of a struct. What is no struct has no such fields.
pub(crate) fn members_in(
    alloc: Global,
    derive: Derive,
    body: &Data,
    asks: &[Ask<'_>],
) -> Mem<Items<MemberAt>>
    ensures { IfOk result (λ members. members ≡ spec.members_in derive body.now (map seen asks.now)) }
{
    match body {
        Data::Struct(it) => {
            let parts = parts_asked(alloc, asks)?;
            members_at(alloc, derive, parts.as_slice(), it.fields.as_slice())
        }
        Data::Enum(_) | Data::Union(_) => Ok(Items::new(alloc)),
    }
}

/// Where each of the fields is read, of which some take these parts. More slots than a `usize` counts are want of memory.
fn members_at(
    alloc: Global,
    derive: Derive,
    parts: &[&Forwarded],
    fields: &[Field],
) -> Mem<Items<MemberAt>>
    ensures { IfOk result (λ members. members ≡ spec.members_at derive (map (λ it. it.now) parts.now) 0 fields.now) }
{
    let mut members = Items::new(alloc);
    let mut slot = 0;
    for field in fields {
        let part = part_of(alloc, parts, field)?;
        members.push(member_by(derive, slot, part))?;
        slot = slot_behind(slot, part)?;
    }
    Ok(members)
}

/// Where a field is read that takes this part, or else has the slot.
fn member_by(derive: Derive, slot: usize, part: Option<&Forwarded>) -> MemberAt
    ensures { result ≡ spec.member_by derive slot (option_copied part.entry) }
{
    match part {
        Some(it) => MemberAt::Part {
            at: part_place(derive, it.what),
            with: it.with.is_some(),
        },
        None => MemberAt::Slot(slot),
    }
}

/// The slot of the next field that takes no part.
fn slot_behind(slot: usize, part: Option<&Forwarded>) -> Mem<usize>
    ensures { IfOk result (λ next. next ≡ spec.slot_behind slot (option_copied part.entry)) }
{
    match part {
        Some(_) => Ok(slot),
        None => slot.checked_add(1).ok_or(AllocError),
    }
}
