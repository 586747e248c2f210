//! The `darling` attributes of an item or of a part of one, which hold options.

ghost use Rattle.std.specs.Prelude.{◌≡◌, IfOk};
ghost use Rattle.error_core.specs.ErrorView.{One};
ghost use Rattle.options_rows.specs.Entries as spec;

use crate::option_value::word_of;
use base_core::{Items, Mem};
use error_core::{Error, Fail, Result};
use meta_entries::{AttributeKind, Entry, entries};
use node_core::{Attribute, Meta};
use node_expr::Path;
use options_types::{NestedMeta, items_of};
use std::alloc::Global;

/// `#[darling(..)]`: the attributes whose path is this one identifier, each of which has to be a list.
struct Darling;

impl AttributeKind for Darling {
    ghost use Rattle.options_rows.specs.Entries.{darling_items, is_darling};

    ghost reads = { λ kind. is_darling };

    ghost list = { λ kind. darling_items };

    fn is_read(&self, _alloc: Global, path: &Path) -> Mem<bool> {
        Ok(is_darling(path))
    }

    fn items(&self, alloc: Global, meta: &Meta) -> Result<Items<NestedMeta>> {
        match meta {
            Meta::Path(_) => Err(Fail::Faults(no_list(alloc, "word", meta)?)),
            Meta::List(list) => items_of(alloc, &list.tokens),
            Meta::NameValue(_) => Err(Fail::Faults(no_list(alloc, "name-value", meta)?)),
        }
    }
}

/// The items of the `darling` attributes, and the faults of those that have none, in order.
pub fn darling_entries(alloc: Global, attrs: &[Attribute]) -> Mem<Items<Entry>>
    ensures { IfOk result (λ it. it ≡ spec.darling_entries attrs.now) }
{
    entries(alloc, attrs, &Darling)
}

fn is_darling(path: &Path) -> bool
    ensures { result ≡ spec.is_darling path.now }
{
    word_of(path) == "darling"
}

#[tactic(auto, unfolding(crate::specs::Entries::no_list))]
fn no_list(alloc: Global, format: &str, meta: &Meta) -> Mem<Error>
    ensures { IfOk result (λ error. error ≡ One (spec.no_list format.now meta.now)) }
{
    Ok(Error::unsupported_format(alloc, format)?.with_span(meta))
}
