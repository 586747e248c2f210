//! What one field makes of the items.

ghost use Rattle.std.specs.Prelude.{◌≡◌, ◌++◌, [], None, IfOk, OnOk, map};
ghost use Rattle.error_core.specs.Answers.{Fails};
ghost use Rattle.error_fault.specs.Faults.{at};
ghost use Rattle.error_fault.specs.Outcome.{Outcome, faults_of, value_of, with_siblings};
ghost use Rattle.meta_entries.specs.Entries as spec_entries;
ghost use Rattle.receive_core.specs.Checks as spec;
ghost use Rattle.receive_core.specs.Names as by_name;
ghost use Rattle.receive_core.specs.Reading.{faults_by_item};
ghost use Rattle.receive_core.specs.Steps.{slot_after, slot_faults, slot_of, slot_seen, value_faults, values_of};

use base_core::{Items, Mem, Text, TryClone};
use error_core::Fail;
use error_fault::Fault;
use meta_core::FromMeta;
use meta_entries::Entry;
use meta_nested::NestedMeta;
use node_make::path_to_string;
use node_span::Spanned;
use std::alloc::{AllocError, Global};

/// Takes the first item of the name into the slot; the faults of each item.
pub(crate) fn read_single<T: FromMeta + Drop>(
    alloc: Global,
    name: &str,
    items: &[NestedMeta],
    slot: &mut Option<Option<T>>,
    item_faults: &mut Items<Items<Fault>>,
) -> Mem<()>
    requires { slot.now ≡ None }
    ensures faults { OnOk result (item_faults.new ≡ item_faults.old ++ faults_by_item (spec.single_checks T.cells name.now) [] items.now) }
    ensures slot { OnOk result (slot_seen T.seen slot.new ≡ slot_of T.cells (by_name.own name.now items.now)) }
{
    for item in items {
        let faults = take_single(alloc, name, item, slot)?;
        item_faults.push(faults)?;
    }
    Ok(())
}

/// Takes an item into the slot, where it has the name; its faults.
fn take_single<T: FromMeta + Drop>(
    alloc: Global,
    name: &str,
    item: &NestedMeta,
    slot: &mut Option<Option<T>>,
) -> Mem<Items<Fault>>
    ensures slot { OnOk result (slot_seen T.seen slot.new ≡ slot_after T.cells name.now (slot_seen T.seen slot.old) item.now) }
    ensures faults { IfOk result (λ faults. faults ≡ slot_faults T.cells name.now (slot_seen T.seen slot.old) item.now) }
{
    if !is_named(alloc, name, item)? {
        return Ok(Items::new(alloc));
    }
    if slot.is_some() {
        let fault = Fault::duplicate_field(alloc, name, item.spanned())?;
        return Items::of(alloc, fault);
    }
    match T::from_nested_meta(alloc, item) {
        Ok(value) => {
            *slot = Some(Some(value));
            Ok(Items::new(alloc))
        }
        Err(fail) => {
            *slot = Some(None);
            faults_at::<T>(alloc, fail, name)
        }
    }
}

/// Puts the values of the items of the name behind the others; the faults of each item.
#[tactic(auto, unfolding(crate::specs::Checks::values))]
pub(crate) fn read_multiple<T: FromMeta + Drop>(
    alloc: Global,
    name: &str,
    items: &[NestedMeta],
    values: &mut Items<T>,
    item_faults: &mut Items<Items<Fault>>,
) -> Mem<()>
    requires { values.now ≡ [] }
    ensures faults { OnOk result (item_faults.new ≡ item_faults.old ++ faults_by_item (spec.multiple_checks T.cells name.now) [] items.now) }
    ensures values { OnOk result (map T.seen values.new ≡ spec.values T.cells (by_name.own name.now items.now)) }
{
    for item in items {
        let faults = take_multiple(alloc, name, item, values)?;
        item_faults.push(faults)?;
    }
    Ok(())
}

/// Puts the value of an item behind the others, where it has the name; its faults.
fn take_multiple<T: FromMeta + Drop>(
    alloc: Global,
    name: &str,
    item: &NestedMeta,
    values: &mut Items<T>,
) -> Mem<Items<Fault>>
    ensures values { OnOk result (map T.seen values.new ≡ map T.seen values.old ++ values_of T.cells name.now item.now) }
    ensures faults { IfOk result (λ faults. faults ≡ value_faults T.cells name.now (map T.seen values.old) item.now) }
{
    if !is_named(alloc, name, item)? {
        return Ok(Items::new(alloc));
    }
    match T::from_nested_meta(alloc, item) {
        Ok(value) => {
            values.push(value)?;
            Ok(Items::new(alloc))
        }
        Err(fail) => {
            let label = label(alloc, name, values.len())?;
            faults_at::<T>(alloc, fail, label.as_str())
        }
    }
}

fn is_named(alloc: Global, name: &str, item: &NestedMeta) -> Mem<bool>
    ensures { IfOk result (λ it. it ≡ by_name.is_named name.now item.now) }
{
    match item_name(alloc, item)? {
        Some(other) => Ok(name == other.as_str()),
        None => Ok(false),
    }
}

/// The text of the item's path; a literal has none.
pub(crate) fn item_name(alloc: Global, item: &NestedMeta) -> Mem<Option<Text>>
    ensures { IfOk result (λ name. name ≡ by_name.item_name item.now) }
{
    match item {
        NestedMeta::Meta(it) => Ok(Some(path_to_string(alloc, it.path())?)),
        NestedMeta::Lit(_) => Ok(None),
        NestedMeta::NameValueInvalidExpr(it) => Ok(Some(path_to_string(alloc, &it.path)?)),
    }
}

/// The name of a value in a list: the field's, and how many values stand before it.
fn label(alloc: Global, name: &str, number: usize) -> Mem<Text>
    ensures { IfOk result (λ it. it ≡ spec.label name.now number) }
{
    let mut label = Text::from_str(alloc, name)?;
    label.push('[')?;
    label.push_str(number.to_string(alloc)?.as_str())?;
    label.push(']')?;
    Ok(label)
}

/// The faults of an answer without value, in the field of the name.
fn faults_at<T: FromMeta>(alloc: Global, fail: Fail, name: &str) -> Mem<Items<Fault>>
    ensures { (outcome : Outcome T.Seen) → Fails fail outcome → IfOk result (λ faults.
        (value_of outcome ≡ None) × (faults ≡ at (faults_of outcome) name.now)) }
{
    match fail.into_error() {
        Some(error) => error.at(alloc, name)?.into_faults(alloc),
        None => Err(AllocError),
    }
}

/// The faults of an answer without value; the names are alternatives too.
pub(crate) fn sibling_faults<T: FromMeta>(
    alloc: Global,
    fail: Fail,
    names: &[Text],
) -> Mem<Items<Fault>>
    ensures { (outcome : Outcome T.Seen) → Fails fail outcome → IfOk result (λ faults.
        (value_of (with_siblings names.now outcome) ≡ None) × (faults ≡ faults_of (with_siblings names.now outcome))) }
{
    match fail.into_error() {
        Some(error) => error
            .add_sibling_alts_for_unknown_field(alloc, names)?
            .into_faults(alloc),
        None => Err(AllocError),
    }
}

/// Copies of the items among the entries, in order: a reader of fields has all of them in one slice.
pub(crate) fn items_among(alloc: Global, entries: &[Entry]) -> Mem<Items<NestedMeta>>
    ensures { IfOk result (λ items. items ≡ spec_entries.items entries.now) }
{
    let mut items = Items::new(alloc);
    for entry in entries {
        if let Entry::Item(item) = entry {
            items.push(item.try_clone(alloc)?)?;
        }
    }
    Ok(items)
}

/// Copies of the items of none of the names, in order.
pub(crate) fn unclaimed(
    alloc: Global,
    names: &[Text],
    items: &[NestedMeta],
) -> Mem<Items<NestedMeta>>
    ensures { IfOk result (λ rest. rest ≡ by_name.unclaimed names.now items.now) }
{
    let mut rest = Items::new(alloc);
    for item in items {
        if is_unclaimed(alloc, names, item)? {
            rest.push(item.try_clone(alloc)?)?;
        }
    }
    Ok(rest)
}

fn is_unclaimed(alloc: Global, names: &[Text], item: &NestedMeta) -> Mem<bool>
    ensures { IfOk result (λ it. it ≡ by_name.is_unclaimed names.now item.now) }
{
    match item_name(alloc, item)? {
        Some(name) => Ok(!is_among(names, &name)),
        None => Ok(false),
    }
}

pub(crate) fn is_among(names: &[Text], name: &Text) -> bool
    ensures { result ≡ by_name.is_among names.now name.now }
{
    for other in names {
        if other.as_str() == name.as_str() {
            return true;
        }
    }
    false
}
