//! What an attribute lists.

ghost use Rattle.std.specs.Prelude.{◌≡◌, IfOk};
ghost use Rattle.error_core.specs.ErrorView.{One};
ghost use Rattle.error_core.specs.Answers.{Answers};
ghost use Rattle.util_core.specs.Attributes as spec;

use base_core::{Items, Mem, Text, TryClone};
use error_core::{Error, Fail, Result};
use node_core::{Attribute, Meta, MetaList, MetaNameValue};
use node_make::push_full_path;
use std::alloc::Global;
use tok_types::{Delimiter, TokenStream};

/// The list that the attribute holds. A word is an empty list, and a value is a fault.
pub fn parse_attribute_to_meta_list(alloc: Global, attr: &Attribute) -> Result<MetaList>
    ensures { Answers (λ it. it) result (spec.meta_list_of attr.now) }
{
    match &attr.meta {
        Meta::List(list) => Ok(list.try_clone(alloc)?),
        Meta::NameValue(pair) => Err(Fail::Faults(name_value(alloc, pair)?)),
        Meta::Path(path) => Ok(MetaList {
            path: path.try_clone(alloc)?,
            delimiter: Delimiter::Parenthesis,
            tokens: TokenStream {
                trees: Items::new(alloc),
            },
            span: attr.span,
        }),
    }
}

fn name_value(alloc: Global, pair: &MetaNameValue) -> Mem<Error>
    ensures { IfOk result (λ error. error ≡ One (spec.name_value pair.now)) }
{
    let mut text = Text::from_str(alloc, "Name-value arguments are not supported. Use #[")?;
    push_full_path(&mut text, &pair.path)?;
    text.push_str("(...)]")?;
    Ok(Error::custom(alloc, text.as_str())?.with_span_at(pair.span))
}
