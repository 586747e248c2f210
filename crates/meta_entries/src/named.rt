//! Attributes of some names, as a receiver reads them.

ghost use Rattle.std.specs.Prelude.{◌≡◌, IfOk};
ghost use Rattle.error_core.specs.Answers.{Answers};
ghost use Rattle.error_core.specs.ErrorView.{One};
ghost use Rattle.meta_entries.specs.Attributes as spec;

use crate::AttributeKind;
use base_core::{Items, Mem, Text};
use error_core::{Error, Fail, Result};
use meta_nested::{NestedMeta, items_of};
use node_core::Meta;
use node_expr::Path;
use node_make::{path_to_string, push_full_path};
use std::alloc::Global;

/// The attributes whose path's text is one of these names.
#[derive(Clone, Copy)]
pub struct Named<'n>(pub &'n [Text]);

impl AttributeKind for Named<'_> {
    ghost use Rattle.meta_entries.specs.Attributes.{attribute_items, is_named};

    ghost reads = { λ kind. is_named kind.0.now };

    ghost list = { λ kind. attribute_items };

    fn is_read(&self, alloc: Global, path: &Path) -> Mem<bool> {
        is_named(alloc, self.0, path)
    }

    fn items(&self, alloc: Global, meta: &Meta) -> Result<Items<NestedMeta>> {
        attribute_items(alloc, meta)
    }
}

/// Whether the text of the path is one of the names. A `::` in front and arguments are no part of it.
pub fn is_named(alloc: Global, names: &[Text], path: &Path) -> Mem<bool>
    ensures { IfOk result (λ it. it ≡ spec.is_named names.now path.now) }
{
    let name = path_to_string(alloc, path)?;
    Ok(has_name(names, &name))
}

fn has_name(names: &[Text], name: &Text) -> bool
    ensures { result ≡ spec.has_name names.now name.now }
{
    for other in names {
        if *other == *name {
            return true;
        }
    }
    false
}

/// The items of the list that an attribute holds. A word is an empty list, and `name = value` is a fault.
pub fn attribute_items(alloc: Global, meta: &Meta) -> Result<Items<NestedMeta>>
    ensures { Answers (λ it. it) result (spec.attribute_items meta.now) }
{
    match meta {
        Meta::Path(_) => Ok(Items::new(alloc)),
        Meta::List(list) => items_of(alloc, &list.tokens),
        Meta::NameValue(_) => Err(Fail::Faults(name_value(alloc, meta)?)),
    }
}

/// `name = value` in the place of `name(items)`.
fn name_value(alloc: Global, meta: &Meta) -> Mem<Error>
    ensures { IfOk result (λ error. error ≡ One (spec.name_value_fault meta.now)) }
{
    let mut message = Text::from_str(alloc, "Name-value arguments are not supported. Use #[")?;
    push_full_path(&mut message, meta.path())?;
    message.push_str("(...)]")?;
    Ok(Error::custom(alloc, message.as_str())?.with_span(meta))
}
