//! What a unit asks of the fields of a declaration.

ghost use Rattle.std.specs.Prelude.{◌≡◌, IfOk, map};
ghost use Rattle.machine_fields.specs.FieldAsks as spec;
ghost use Rattle.machine_fields.specs.Slots.{seen_reading};
ghost use Rattle.machine_forms.specs.Asks.{seen, unit_asks};

use crate::fields::{FieldsAt, places_in};
use crate::members::{MemberAt, members_in};
use crate::slots::Slots;
use base_core::{Items, Mem};
use codegen_program::{Derive, Unit};
use machine_forms::{Ask, push_unit};
use node_core::Data;
use std::alloc::Global;

/// What a unit asks of the fields of a declaration.
pub struct Reading {
    pub slots: Slots,
    /// Where the fields of a struct, or of each variant of an enum, are read.
    pub places: Items<FieldsAt>,
    /// Where each field of a struct is read.
    pub members: Items<MemberAt>,
}

impl Reading {
    /// What a unit of the derive that asks this asks of the fields.
    fn of(alloc: Global, derive: Derive, body: &Data, asks: &[Ask<'_>]) -> Mem<Reading>
        ensures { IfOk result (λ reading. seen_reading reading ≡ spec.field_asks derive body.now (map seen asks.now)) }
    {
        let slots = Slots::of(alloc, asks)?;
        let places = places_in(alloc, body, asks)?;
        let members = members_in(alloc, derive, body, asks)?;
        Ok(Reading {
            slots,
            places,
            members,
        })
    }
}

/// What each of the units asks of the fields. A declaration without units has fields too, of which nothing is asked.
pub fn readings_of(alloc: Global, body: &Data, units: &[&Unit]) -> Mem<Items<Reading>>
    ensures { IfOk result (λ readings. map seen_reading readings ≡ spec.readings body.now (map (λ unit. unit.now) units.now)) }
{
    if units.is_empty() {
        return Items::of(alloc, Reading::of(alloc, Derive::FromMeta, body, &[])?);
    }
    let mut readings = Items::new(alloc);
    for unit in units {
        readings.push(reading_of(alloc, body, unit)?)?;
    }
    Ok(readings)
}

/// What a unit asks of the fields.
fn reading_of(alloc: Global, body: &Data, unit: &Unit) -> Mem<Reading>
    ensures { IfOk result (λ reading. seen_reading reading ≡ spec.asks_by body.now unit.now) }
{
    let mut asks = Items::new(alloc);
    push_unit(&mut asks, unit)?;
    Reading::of(alloc, unit.derive, body, asks.as_slice())
}

impl Drop for Reading {
    fn drop(self) {
        let Self {
            slots: _slots,
            places: _places,
            members: _members,
        } = self;
    }
}
