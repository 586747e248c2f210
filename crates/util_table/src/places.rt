//! Where the rows of a table stand, by rule, kind and identifier.

ghost use Rattle.std.specs.Prelude.{◌≡◌, ◌^◌, ◌<◌, ℕ, List, length, IfOk, OnOk, bytes_eq};
ghost use Rattle.std.specs.BTreeMap.{get_by_text};
ghost use Rattle.util_table.specs.Places.{AddsRow, ArePlaces, or_at, place_in};
ghost use Rattle.util_table.specs.Table.{is_for};

use crate::row::{RenameKind, Row};
use base_core::Mem;
use std::alloc::Global;
use std::collections::BTreeMap;

/// Where the rows of one rule stand: the first of all, and the first for each identifier.
pub(crate) struct RulePlaces {
    pub(crate) first: u32,
    fields: BTreeMap<String, u32>,
    variants: BTreeMap<String, u32>,
}

impl RulePlaces {
    fn new(alloc: Global, first: u32) -> RulePlaces
        ensures first { result.first ≡ first }
        ensures empty { (kind : RenameKind) (identifier : List ℕ) → place_in result kind identifier ≡ None }
    {
        RulePlaces {
            first,
            fields: BTreeMap::new(alloc),
            variants: BTreeMap::new(alloc),
        }
    }

    /// The place of the first row for the identifier.
    pub(crate) fn place_of(&self, kind: RenameKind, identifier: &str) -> Option<u32>
        ensures { result ≡ place_in self.now kind identifier.now }
    {
        let places = match kind {
            RenameKind::Field => &self.fields,
            RenameKind::Variant => &self.variants,
        };
        places.get(identifier).copied()
    }

    /// Adds the place of a row, unless an earlier row is for the same.
    fn add(&mut self, alloc: Global, row: &Row, at: u32) -> Mem<()>
        ensures first { OnOk result (self.new.first ≡ self.old.first) }
        ensures rest { OnOk result ((kind : RenameKind) (identifier : List ℕ)
            → place_in self.new kind identifier
            ≡ or_at (place_in self.old kind identifier) (is_for kind identifier row.now) at) }
    {
        let identifier = row.identifier.as_str();
        match row.kind {
            RenameKind::Field => add_first(alloc, &mut self.fields, identifier, at),
            RenameKind::Variant => add_first(alloc, &mut self.variants, identifier, at),
        }
    }
}

impl Drop for RulePlaces {
    fn drop(self) {
        let Self {
            first: _first,
            fields: _fields,
            variants: _variants,
        } = self;
    }
}

/// Gives the text this place, unless it has one.
fn add_first(alloc: Global, places: &mut BTreeMap<String, u32>, text: &str, at: u32) -> Mem<()>
    ensures { OnOk result ((other : List ℕ) → get_by_text places.new other
        ≡ or_at (get_by_text places.old other) (bytes_eq text.now other) at) }
{
    if !places.contains_key(text) {
        places.insert(String::from_str(alloc, text)?, at)?;
    }
    Ok(())
}

/// Adds the place of a row.
fn add_row(alloc: Global, places: &mut BTreeMap<String, RulePlaces>, row: &Row, at: u32) -> Mem<()>
    ensures { OnOk result (AddsRow places.old places.new row.now at) }
{
    let rule = row.rule.as_str();
    if let Some(of_rule) = places.get_mut(rule) {
        return of_rule.add(alloc, row, at);
    }
    let mut of_rule = RulePlaces::new(alloc, at);
    of_rule.add(alloc, row, at)?;
    places.insert(String::from_str(alloc, rule)?, of_rule)?;
    Ok(())
}

/// The places of the rows.
pub(crate) fn places_of(alloc: Global, rows: &[Row]) -> Mem<BTreeMap<String, RulePlaces>>
    requires { length rows.now < 2 ^ 32 }
    ensures { IfOk result (λ places. ArePlaces places rows.now) }
{
    let mut places = BTreeMap::new(alloc);
    for at in 0..rows.len() {
        add_row(alloc, &mut places, &rows[at], at as u32)?;
    }
    Ok(places)
}
