//! What tables of the other files are made of: trees of texts, and what is read of their attributes.

use crate::ask::{places, printed, push_place};
use codegen_program::Derive;
use node_core::{DeriveInput, Items, Text, Type};
use run_accepted::{derives_of, repeated_derives, without_attributes};
use std::alloc::Global;
use syn_core::{parse_derive_input, parse_items, parse_type};
use tests_checks::{Tested, given, tokens};

pub fn type_of(alloc: Global, source: u32, text: &str) -> Tested<Type> {
    given(parse_type(alloc, &tokens(alloc, source, text)?), text)
}

pub fn items_of(alloc: Global, text: &str) -> Tested<Items<DeriveInput>> {
    given(parse_items(alloc, &tokens(alloc, 0, text)?), text)
}

pub fn item_of(alloc: Global, source: u32, text: &str) -> Tested<DeriveInput> {
    given(
        parse_derive_input(alloc, &tokens(alloc, source, text)?),
        text,
    )
}

pub fn derive_name(derive: Derive) -> &'static str {
    match derive {
        Derive::FromMeta => "FromMeta ",
        Derive::FromAttributes => "FromAttributes ",
        Derive::FromDeriveInput => "FromDeriveInput ",
        Derive::FromField => "FromField ",
        Derive::FromTypeParam => "FromTypeParam ",
        Derive::FromVariant => "FromVariant ",
    }
}

/// The derives of a declaration, and where each is named.
pub fn derives(alloc: Global, text: &str) -> Tested<Text> {
    let item = item_of(alloc, 0, text)?;
    let derives = derives_of(alloc, item.attrs.as_slice())?;
    let mut shown = Text::new(alloc);
    for it in derives.as_slice() {
        push_place(alloc, &mut shown, derive_name(it.derive), it.span)?;
    }
    if shown.is_empty() {
        shown.push_str("none")?;
    }
    Ok(shown)
}

/// Where a declaration names a derive again.
pub fn repeated(alloc: Global, text: &str) -> Tested<Text> {
    let item = item_of(alloc, 0, text)?;
    let derives = derives_of(alloc, item.attrs.as_slice())?;
    let repeated = repeated_derives(alloc, derives.as_slice())?;
    places(alloc, repeated.as_slice())
}

/// The printing of a declaration without attributes.
pub fn without(alloc: Global, text: &str) -> Tested<Text> {
    let item = item_of(alloc, 0, text)?;
    printed(alloc, &without_attributes(alloc, &item)?)
}
