//! The walk over attributes.

ghost use Rattle.std.specs.Prelude.{◌≡◌, ◌++◌, IfOk, OnOk, map};
ghost use Rattle.meta_entries.specs.Entries as spec;
ghost use Rattle.meta_entries.specs.declared.entry.Entry.TheVariants as entry;

use crate::{AttributeKind, Entry};
use base_core::{Items, Mem};
use error_fault::Fault;
use meta_nested::NestedMeta;
use node_core::{Attribute, Meta};
use std::alloc::{AllocError, Global};

/// What stands in the attributes of the kind, in order: each item of their lists, and the faults of an attribute that has
/// no items.
pub fn entries<K: AttributeKind>(alloc: Global, attrs: &[Attribute], kind: &K) -> Mem<Items<Entry>>
    ensures { IfOk result (λ it. it ≡ spec.entries (K.reads kind.now) (K.list kind.now) attrs.now) }
{
    let mut entries = Items::new(alloc);
    for attr in attrs {
        push_attribute(alloc, attr, kind, &mut entries)?;
    }
    Ok(entries)
}

/// Adds the entries of an attribute; one that is not read has none.
fn push_attribute<K: AttributeKind>(
    alloc: Global,
    attr: &Attribute,
    kind: &K,
    entries: &mut Items<Entry>,
) -> Mem<()>
    ensures { OnOk result (entries.new
        ≡ entries.old ++ spec.attribute_entries (K.reads kind.now) (K.list kind.now) attr.now) }
{
    if kind.is_read(alloc, attr.meta.path())? {
        let more = list_entries(alloc, &attr.meta, kind)?;
        return entries.append(more);
    }
    Ok(())
}

/// The items of an attribute, or its faults.
fn list_entries<K: AttributeKind>(alloc: Global, meta: &Meta, kind: &K) -> Mem<Items<Entry>>
    ensures { IfOk result (λ it. it ≡ spec.list_entries (K.list kind.now meta.now)) }
{
    match kind.items(alloc, meta) {
        Ok(items) => item_entries(alloc, items),
        Err(fail) => match fail.into_error() {
            Some(error) => fault_entries(alloc, error.into_faults(alloc)?),
            None => Err(AllocError),
        },
    }
}

fn item_entries(alloc: Global, items: Items<NestedMeta>) -> Mem<Items<Entry>>
    ensures { IfOk result (λ it. it ≡ map entry.Item items) }
{
    let mut entries = Items::new(alloc);
    for item in items.into_vec() {
        entries.push(Entry::Item(item))?;
    }
    Ok(entries)
}

fn fault_entries(alloc: Global, faults: Items<Fault>) -> Mem<Items<Entry>>
    ensures { IfOk result (λ it. it ≡ map entry.Fault faults) }
{
    let mut entries = Items::new(alloc);
    for fault in faults.into_vec() {
        entries.push(Entry::Fault(fault))?;
    }
    Ok(entries)
}
