//! The reader of fields: each is asked for by its name, and looks at all items.

ghost use Rattle.std.specs.Prelude.{◌≡◌, ◌++◌, [], false, IfOk, IsSome, OnOk, map, option_map};
ghost use Rattle.error_core.specs.Answers.{Answers};
ghost use Rattle.error_core.specs.ErrorView.{held};
ghost use Rattle.meta_entries.specs.declared.entry.Entry.TheVariants as entry;
ghost use Rattle.error_fault.specs.Outcome.{faults_of, settle, value_of};
ghost use Rattle.receive_core.specs.Checks as spec;
ghost use Rattle.receive_core.specs.Meaning.{built};
ghost use Rattle.receive_core.specs.Names.{own};
ghost use Rattle.receive_core.specs.Reading.{after_field, after_flat};
ghost use Rattle.receive_core.specs.Schema.{flat_outcome};
ghost use Rattle.receive_core.specs.Steps.{after_items, end_faults, slot_of, slot_seen};

use crate::collect::{collect_entries, collect_items};
use crate::items::{read_multiple, read_single, sibling_faults, unclaimed};
use base_core::{Items, Mem, Text};
use error_core::{Accumulator, Error, Fail, Result};
use error_fault::Fault;
use meta_core::FromMeta;
use meta_entries::Entry;
use meta_nested::NestedMeta;
use std::alloc::Global;

/// The items of an attribute, and what the fields that were read so far have found wrong with them. Each call reads one field.
/// It answers `None` where the field has no value, and keeps what is wrong with it, so that `?` leaves for want of memory alone.
///
/// The names that are asked for are to differ: two fields of one name both read its items, and both keep their faults.
#[derive(Drop)]
pub struct FieldReader<'a> {
    pub(crate) alloc: Global,
    pub(crate) items: &'a [NestedMeta],
    /// The names of the fields that were read.
    pub(crate) names: Items<Text>,
    /// For each of these fields, what is wrong with each item.
    pub(crate) item_faults: Items<Items<Items<Fault>>>,
    pub(crate) missing: Items<Fault>,
    /// A flattened field was read.
    pub(crate) has_flat: bool,
    pub(crate) flat_faults: Items<Fault>,
}

impl<'a> FieldReader<'a> {
    pub(crate) fn new(alloc: Global, items: &'a [NestedMeta]) -> FieldReader<'a>
        ensures items { result.items.now ≡ items.now }
        ensures names { result.names ≡ [] }
        ensures item_faults { result.item_faults ≡ [] }
        ensures missing { result.missing ≡ [] }
        ensures has_flat { result.has_flat ≡ false }
        ensures flat_faults { result.flat_faults ≡ [] }
    {
        FieldReader {
            alloc,
            items,
            names: Items::new(alloc),
            item_faults: Items::new(alloc),
            missing: Items::new(alloc),
            has_flat: false,
            flat_faults: Items::new(alloc),
        }
    }

    /// The value of the one item of this name. Without an item the field is missing, unless the type has a value for that, as
    /// `Option` and `Flag` have. Each item behind the first is a duplicate.
    #[tactic(auto, unfolding(crate::specs::Checks::single_value, crate::specs::Checks::single_missing))]
    pub fn single<T: FromMeta + Drop>(&mut self, name: &str) -> Mem<Option<T>>
        ensures reads { OnOk result (self.new ≡ after_field self.old (spec.single_checks T.cells name.now)) }
        ensures items { OnOk result (self.new.items.now ≡ self.old.items.now) }
        ensures value { IfOk result (λ found. option_map T.seen found
            ≡ spec.single_value T.cells (own name.now self.old.items.now)) }
    {
        match self.read_slot::<T>(name)? {
            Some(found) => Ok(found),
            None => match T::from_none(self.alloc)? {
                Some(value) => Ok(Some(value)),
                None => {
                    self.missing.push(Fault::missing_field(self.alloc, name)?)?;
                    Ok(None)
                }
            },
        }
    }

    /// As [`single`](FieldReader::single), but no item is no fault: `.unwrap_or(3)` behind the call is a default. Where the
    /// item has no value, the default stands in for it, and the item's faults are kept.
    #[tactic(auto, unfolding(crate::specs::Checks::optional_value))]
    pub fn optional<T: FromMeta + Drop>(&mut self, name: &str) -> Mem<Option<T>>
        ensures reads { OnOk result (self.new ≡ after_field self.old (spec.optional_checks T.cells name.now)) }
        ensures items { OnOk result (self.new.items.now ≡ self.old.items.now) }
        ensures value { IfOk result (λ found. option_map T.seen found
            ≡ spec.optional_value T.cells (own name.now self.old.items.now)) }
    {
        match self.read_slot::<T>(name)? {
            Some(found) => Ok(found),
            None => Ok(None),
        }
    }

    /// The values of all items of this name, in order. A fault stands in the field `name[k]`, where `k` values stand before it.
    pub fn multiple<T: FromMeta + Drop>(&mut self, name: &str) -> Mem<Items<T>>
        ensures reads { OnOk result (self.new ≡ after_field self.old (spec.multiple_checks T.cells name.now)) }
        ensures items { OnOk result (self.new.items.now ≡ self.old.items.now) }
        ensures value { IfOk result (λ found. map T.seen found
            ≡ spec.values T.cells (own name.now self.old.items.now)) }
    {
        let mut item_faults = Items::new(self.alloc);
        let mut values = Items::new(self.alloc);
        read_multiple(self.alloc, name, self.items, &mut values, &mut item_faults)?;
        self.names.push(Text::from_str(self.alloc, name)?)?;
        self.item_faults.push(item_faults)?;
        Ok(values)
    }

    /// What the type reads from the list of those items whose names no field before asked for. It is to come last: a field
    /// behind it reads its items once more. No name is unknown then, but to the type, to which the names asked for before are
    /// alternatives too.
    pub fn flatten<T: FromMeta + Drop>(&mut self) -> Mem<Option<T>>
        ensures reads { OnOk result (self.new ≡ after_flat self.old (faults_of (flat_outcome T.cells self.old.names self.old.items.now))) }
        ensures items { OnOk result (self.new.items.now ≡ self.old.items.now) }
        ensures value { IfOk result (λ found. option_map T.seen found
            ≡ value_of (flat_outcome T.cells self.old.names self.old.items.now)) }
    {
        let alloc = self.alloc;
        let items = unclaimed(alloc, self.names.as_slice(), self.items)?;
        self.has_flat = true;
        match T::from_list(alloc, items.as_slice()) {
            Ok(value) => Ok(Some(value)),
            Err(fail) => {
                let faults = sibling_faults::<T>(alloc, fail, self.names.as_slice())?;
                self.flat_faults.append(faults)?;
                Ok(None)
            }
        }
    }

    /// What stands in the place of one value, where an item has the name.
    fn read_slot<T: FromMeta + Drop>(&mut self, name: &str) -> Mem<Option<Option<T>>>
        ensures reads { OnOk result (self.new ≡ after_items self.old (spec.single_checks T.cells name.now)) }
        ensures value { IfOk result (λ slot. slot_seen T.seen slot ≡ slot_of T.cells (own name.now self.old.items.now)) }
    {
        let mut item_faults = Items::new(self.alloc);
        let mut slot = None;
        read_single(self.alloc, name, self.items, &mut slot, &mut item_faults)?;
        self.names.push(Text::from_str(self.alloc, name)?)?;
        self.item_faults.push(item_faults)?;
        Ok(slot)
    }

    /// The value, where nothing was found wrong; else all faults.
    pub(crate) fn finish<T: Drop>(self, found: Option<T>) -> Result<T>
        requires { end_faults self (map entry.Item self.items.now) ≡ [] → IsSome found }
        ensures { Answers (λ value. value) result
            (settle (end_faults self.entry (map entry.Item self.entry.items.now)) (built found)) }
    {
        let mut faults = Items::new(self.alloc);
        collect_items(
            self.alloc,
            self.items,
            self.names.as_slice(),
            self.has_flat,
            self.item_faults.as_slice(),
            &mut faults,
        )?;
        self.finish_behind(faults, found)
    }

    /// As [`finish`](FieldReader::finish), of the items among these entries: each fault stands in its place among theirs.
    pub(crate) fn finish_among<T: Drop>(self, entries: &[Entry], found: Option<T>) -> Result<T>
        requires { end_faults self entries.now ≡ [] → IsSome found }
        ensures { Answers (λ value. value) result (settle (end_faults self.entry entries.now) (built found)) }
    {
        let mut faults = Items::new(self.alloc);
        collect_entries(
            self.alloc,
            entries,
            self.names.as_slice(),
            self.has_flat,
            self.item_faults.as_slice(),
            &mut faults,
        )?;
        self.finish_behind(faults, found)
    }

    /// The value, where nothing was found wrong; else these faults, then those of the flattened field and of missing fields.
    fn finish_behind<T: Drop>(self, faults: Items<Fault>, found: Option<T>) -> Result<T>
        requires { faults ++ (self.flat_faults ++ self.missing) ≡ [] → IsSome found }
        ensures { Answers (λ value. value) result
            (settle (faults ++ (self.entry.flat_faults ++ self.entry.missing)) (built found)) }
    {
        let FieldReader {
            alloc,
            flat_faults,
            missing,
            ..
        } = self;
        let mut faults = faults;
        faults.append(flat_faults)?;
        faults.append(missing)?;
        answer(alloc, faults, found)
    }

    /// The names that were asked for.
    pub(crate) fn into_names(self) -> Items<Text>
        ensures { result ≡ self.entry.names }
    {
        let FieldReader { names, .. } = self;
        names
    }
}

/// The value, where there is no fault; else all of them as one error.
fn answer<T: Drop>(alloc: Global, faults: Items<Fault>, found: Option<T>) -> Result<T>
    requires { faults ≡ [] → IsSome found }
    ensures { Answers (λ value. value) result (settle faults (built found)) }
{
    let mut errors = Error::accumulator(alloc);
    match push_all(alloc, faults, &mut errors) {
        Ok(()) => match found {
            Some(value) => errors.finish_with(value),
            None => {
                errors.finish()?;
                unreachable!()
            }
        },
        Err(_) => {
            drop(errors.into_inner());
            Err(Fail::NoMemory)
        }
    }
}

/// Puts the faults behind the errors, each as an error of its own.
#[tactic(auto, using(crate::proofs::ErrorLemmas::pushed))]
fn push_all(alloc: Global, faults: Items<Fault>, errors: &mut Accumulator) -> Mem<()>
    ensures { OnOk result (held errors.new ≡ held errors.old ++ faults) }
{
    for fault in faults.into_vec() {
        errors.push(alloc, Error::from_fault(alloc, fault)?)?;
    }
    Ok(())
}
