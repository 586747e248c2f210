//! Options of a declaration that no unit has a part for.

ghost use Rattle.std.specs.Prelude.{◌≡◌, ◌++◌, ◌∷◌, [], flat_map, map, OnOk};
ghost use Rattle.meta_entries.specs.declared.entry.Entry.TheVariants.{Item};
ghost use Rattle.options_rows.specs.Entries.{items, option_entries, option_item};
ghost use Rattle.run_accepted.specs.Unbuilt as spec;

use base_core::{Items, Mem};
use meta_entries::Entry;
use meta_nested::NestedMeta;
use node_core::{Attribute, Meta};
use node_span::Spanned;
use options_rows::{darling_entries, word_of};
use std::alloc::Global;
use tok_types::Span;

/// Adds the places of the items in `darling` attributes that are of such an option.
pub(crate) fn push_options(alloc: Global, attrs: &[Attribute], spans: &mut Items<Span>) -> Mem<()>
    ensures { OnOk result (spans.new ≡ spans.old ++ flat_map spec.option_places (items (option_entries attrs.now))) }
{
    let entries = darling_entries(alloc, attrs)?;
    push_entries(entries.as_slice(), spans)
}

fn push_entries(entries: &[Entry], spans: &mut Items<Span>) -> Mem<()>
    ensures { OnOk result (spans.new ≡ spans.old ++ flat_map spec.option_places (items (map option_item entries.now))) }
{
    for entry in entries {
        push_entry(entry, spans)?;
    }
    Ok(())
}

fn push_entry(entry: &Entry, spans: &mut Items<Span>) -> Mem<()>
    ensures { OnOk result (spans.new ≡ spans.old ++ flat_map spec.option_places (items (option_item entry.now ∷ []))) }
{
    match entry {
        Entry::Item(nested) => push_nested(nested, spans),
        Entry::Fault(_) => Ok(()),
    }
}

fn push_nested(nested: &NestedMeta, spans: &mut Items<Span>) -> Mem<()>
    ensures { OnOk result (spans.new ≡ spans.old ++ flat_map spec.option_places (items (option_item (Item nested.now) ∷ []))) }
{
    match nested {
        NestedMeta::Meta(item) => push_item(item, spans),
        NestedMeta::Lit(_) => Ok(()),
        NestedMeta::NameValueInvalidExpr(_) => Ok(()),
    }
}

fn push_item(item: &Meta, spans: &mut Items<Span>) -> Mem<()>
    ensures { OnOk result (spans.new ≡ spans.old ++ spec.option_places item.now) }
{
    if is_unbuilt_word(word_of(item.path())) {
        return spans.push(item.spanned());
    }
    Ok(())
}

fn is_unbuilt_word(word: &str) -> bool
    ensures { result ≡ spec.is_unbuilt_word word.now }
{
    matches!(word, "transparent" | "supports" | "from_ident")
}
