//! The faults of all items, in the order of the items.

ghost use Rattle.std.specs.Prelude.{◌≡◌, ◌<◌, ◌^◌, ◌++◌, IfOk, OnOk, map};
ghost use Rattle.meta_entries.specs.declared.entry.Entry.TheVariants as entry;
ghost use Rattle.receive_core.specs.Meaning.{named_faults};
ghost use Rattle.receive_core.specs.Names as by_name;
ghost use Rattle.receive_core.specs.Steps.{at_number, entry_faults_at, faults_at, faults_from, number_behind};

use crate::items::{is_among, item_name};
use base_core::{Items, Mem, Text, TryClone};
use error_fault::Fault;
use meta_entries::Entry;
use meta_nested::NestedMeta;
use node_span::Spanned;
use std::alloc::Global;

/// Puts the faults of all items behind the others.
pub(crate) fn collect_items(
    alloc: Global,
    items: &[NestedMeta],
    names: &[Text],
    has_flat: bool,
    item_faults: &[Items<Items<Fault>>],
    faults: &mut Items<Fault>,
) -> Mem<()>
    ensures { OnOk result (faults.new
        ≡ faults.old ++ faults_from names.now has_flat item_faults.now 0 (map entry.Item items.now)) }
{
    for (number, item) in items.iter().enumerate() {
        collect_item(alloc, number, item, names, has_flat, item_faults, faults)?;
    }
    Ok(())
}

/// Puts the faults of all entries behind the others: those of the items among them, and those in the place of items.
pub(crate) fn collect_entries(
    alloc: Global,
    entries: &[Entry],
    names: &[Text],
    has_flat: bool,
    item_faults: &[Items<Items<Fault>>],
    faults: &mut Items<Fault>,
) -> Mem<()>
    ensures { OnOk result (faults.new ≡ faults.old ++ faults_from names.now has_flat item_faults.now 0 entries.now) }
{
    let mut number = 0;
    for entry in entries {
        number = collect_entry(alloc, number, entry, names, has_flat, item_faults, faults)?;
    }
    Ok(())
}

/// Puts the faults of an entry behind the others, whose item has this number; the number of the first item behind it.
fn collect_entry(
    alloc: Global,
    number: usize,
    entry: &Entry,
    names: &[Text],
    has_flat: bool,
    item_faults: &[Items<Items<Fault>>],
    faults: &mut Items<Fault>,
) -> Mem<usize>
    requires { number < 2 ^ 63 }
    ensures number { IfOk result (λ next. next ≡ number_behind number entry.now) }
    ensures faults { OnOk result (faults.new
        ≡ faults.old ++ entry_faults_at names.now has_flat item_faults.now number entry.now) }
{
    match entry {
        Entry::Item(item) => {
            collect_item(alloc, number, item, names, has_flat, item_faults, faults)?;
            Ok(number + 1)
        }
        Entry::Fault(fault) => {
            faults.push(fault.try_clone(alloc)?)?;
            Ok(number)
        }
    }
}

/// Puts the faults of the item of this number behind the others, and that of an unknown name.
fn collect_item(
    alloc: Global,
    number: usize,
    item: &NestedMeta,
    names: &[Text],
    has_flat: bool,
    item_faults: &[Items<Items<Fault>>],
    faults: &mut Items<Fault>,
) -> Mem<()>
    ensures { OnOk result (faults.new
        ≡ faults.old ++ named_faults names.now has_flat item.now (by_name.item_name item.now) (faults_at item_faults.now number)) }
{
    let Some(name) = item_name(alloc, item)? else {
        return faults.push(Fault::unexpected_format(alloc, "literal", item.spanned())?);
    };
    push_faults_at(alloc, number, item_faults, faults)?;
    if is_among(names, &name) || has_flat {
        return Ok(());
    }
    faults.push(Fault::unknown_field_with_alts(alloc, name.as_str(), names, item.spanned())?)
}

/// Puts what each field found wrong with the item of this number behind the others.
fn push_faults_at(
    alloc: Global,
    number: usize,
    item_faults: &[Items<Items<Fault>>],
    faults: &mut Items<Fault>,
) -> Mem<()>
    ensures { OnOk result (faults.new ≡ faults.old ++ faults_at item_faults.now number) }
{
    for by_item in item_faults {
        push_at_number(alloc, number, by_item, faults)?;
    }
    Ok(())
}

fn push_at_number(
    alloc: Global,
    number: usize,
    by_item: &Items<Items<Fault>>,
    faults: &mut Items<Fault>,
) -> Mem<()>
    ensures { OnOk result (faults.new ≡ faults.old ++ at_number number by_item.now) }
{
    match by_item.get(number) {
        Some(found) => faults.extend_from_slice(alloc, found.as_slice()),
        None => Ok(()),
    }
}
