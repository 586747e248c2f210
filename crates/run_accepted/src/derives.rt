//! The derives that attributes name.

ghost use Rattle.std.specs.Prelude.{◌≡◌, ◌++◌, IfOk, OnOk, codes, flat_map};
ghost use Rattle.std.specs.Str.{bytes_eq};
ghost use Rattle.meta_entries.specs.declared.entry.Entry.TheVariants.{Item};
ghost use Rattle.run_accepted.specs.Derives as spec;

use crate::names::derive_named;
use base_core::{Items, Mem, Text};
use codegen_program::Derive;
use error_core::Result;
use meta_entries::{AttributeKind, Entry, attribute_items, entries};
use meta_nested::NestedMeta;
use node_core::{Attribute, Meta};
use node_expr::Path;
use node_make::path_to_string;
use std::alloc::Global;
use tok_types::Span;

/// A derive that an attribute names, and where it does.
#[derive(Clone, Copy)]
pub struct Derived {
    pub derive: Derive,
    pub span: Span,
}

/// `#[derive(..)]`: the attributes whose path's text is `derive`.
struct DeriveAttributes;

impl AttributeKind for DeriveAttributes {
    ghost use Rattle.meta_entries.specs.Attributes.{attribute_items};
    ghost use Rattle.run_accepted.specs.Derives.{is_derive};

    ghost reads = { λ kind. is_derive };

    ghost list = { λ kind. attribute_items };

    fn is_read(&self, alloc: Global, path: &Path) -> Mem<bool> {
        let name = path_to_string(alloc, path)?;
        Ok(is_derive(&name))
    }

    fn items(&self, alloc: Global, meta: &Meta) -> Result<Items<NestedMeta>> {
        attribute_items(alloc, meta)
    }
}

fn is_derive(name: &Text) -> bool
    ensures { result ≡ bytes_eq name.now (codes "derive") }
{
    name.is("derive")
}

/// The derives that the attributes name, in the order of the text: `FromMeta` and `darling::FromField` of
/// `#[derive(Clone, FromMeta)] #[derive(darling::FromField)]`. One that is named twice is there twice.
pub fn derives_of(alloc: Global, attrs: &[Attribute]) -> Mem<Items<Derived>>
    ensures { IfOk result (λ it. it ≡ spec.derives_of attrs.now) }
{
    let entries = entries(alloc, attrs, &DeriveAttributes)?;
    derives_among(alloc, entries.as_slice())
}

/// The derives that the entries name.
fn derives_among(alloc: Global, entries: &[Entry]) -> Mem<Items<Derived>>
    ensures { IfOk result (λ it. it ≡ flat_map spec.entry_derives entries.now) }
{
    let mut derives = Items::new(alloc);
    for entry in entries {
        push_entry(alloc, entry, &mut derives)?;
    }
    Ok(derives)
}

fn push_entry(alloc: Global, entry: &Entry, derives: &mut Items<Derived>) -> Mem<()>
    ensures { OnOk result (derives.new ≡ derives.old ++ spec.entry_derives entry.now) }
{
    match entry {
        Entry::Item(item) => push_item(alloc, item, derives),
        Entry::Fault(_) => Ok(()),
    }
}

/// Adds the derive that the item names, where it is a word that names one.
fn push_item(alloc: Global, item: &NestedMeta, derives: &mut Items<Derived>) -> Mem<()>
    ensures { OnOk result (derives.new ≡ derives.old ++ spec.entry_derives (Item item.now)) }
{
    match item {
        NestedMeta::Meta(Meta::Path(word)) => push_word(alloc, word, derives),
        _ => Ok(()),
    }
}

fn push_word(alloc: Global, word: &Path, derives: &mut Items<Derived>) -> Mem<()>
    ensures { OnOk result (derives.new ≡ derives.old ++ spec.word_derives word.now) }
{
    let text = path_to_string(alloc, word)?;
    match derive_named(text.as_str()) {
        Some(derive) => derives.push(Derived {
            derive,
            span: word.span,
        }),
        None => Ok(()),
    }
}
