//! What the options of a receiver hold: a row `DECLARATION => OPTIONS`.

use crate::ask::{item_of, push_node};
use body_core::ast::Data;
use error_core::Text;
use options_core::{DefaultExpression, FdiOptions, FromMetaOptions, InputField};
use std::alloc::Global;
use std::test::Fail;
use tests_checks::Tested;
use util_table::{RenameTable, TableFail};

const TABLE: &str = "kebab field one_two one-two
kebab variant OneTwo one-two
snake_case variant OneTwo one_two";

/// A table of two rules.
pub fn table(alloc: Global) -> Tested<RenameTable> {
    match RenameTable::parse(alloc, TABLE) {
        Ok(table) => Ok(table),
        Err(TableFail::NoMemory) => Err(Fail::new(format_args!("no memory is left"))),
        Err(TableFail::BadTable { line }) => Err(Fail::new(format_args!("line {line} is bad"))),
    }
}

fn push_default(alloc: Global, text: &mut Text, default: &Option<DefaultExpression>) -> Tested<()> {
    match default {
        Some(DefaultExpression::Inherit) => text.push_str(" = inherited")?,
        Some(DefaultExpression::Explicit(callable)) => {
            text.push_str(" = ")?;
            push_node(alloc, text, callable)?;
        }
        Some(DefaultExpression::Trait { .. }) => text.push_str(" = default")?,
        None => {}
    }
    Ok(())
}

/// Adds what the options of a field hold.
pub fn push_field(alloc: Global, text: &mut Text, field: &InputField) -> Tested<()> {
    text.push_str(field.ident.to_text(alloc)?.as_str())?;
    text.push_str(" as ")?;
    text.push_str(field.name.as_str())?;
    push_default(alloc, text, &field.default)?;
    if let Some(callable) = &field.with {
        text.push_str(" with ")?;
        push_node(alloc, text, callable)?;
    }
    if let Some(post) = &field.post_transform {
        text.push_str(" then ")?;
        text.push_str(post.transformer.to_text(alloc)?.as_str())?;
        text.push(' ')?;
        push_node(alloc, text, &post.function)?;
    }
    if field.skip.map_or(false, |skip| *skip) {
        text.push_str(" skipped")?;
    }
    if field.multiple.unwrap_or(false) {
        text.push_str(" multiple")?;
    }
    if field.flatten.is_present() {
        text.push_str(" flatten")?;
    }
    text.push(';')?;
    Ok(())
}

/// What the options of a receiver hold that derives `FromDeriveInput`.
pub fn shown(alloc: Global, row: &str) -> Tested<Text> {
    let table = table(alloc)?;
    let item = item_of(alloc, row)?;
    let mut text = Text::new(alloc);
    let Ok(options) = FdiOptions::new(alloc, &item, &table) else {
        return Err(Fail::new(format_args!("{row} is refused")));
    };
    let core = &options.base.container;
    text.push_str(core.ident.to_text(alloc)?.as_str())?;
    push_default(alloc, &mut text, &core.default)?;
    text.push_str(": ")?;
    if let Data::Struct(it) = &core.body {
        for field in it.fields.as_slice() {
            push_field(alloc, &mut text, field)?;
        }
    }
    let names = options.base.attr_names.to_strings(alloc)?;
    for name in names.iter() {
        text.push_str(" #")?;
        text.push_str(name.as_str())?;
    }
    if options.base.from_ident {
        text.push_str(" from_ident")?;
    }
    if let Some(supports) = &options.supports {
        text.push_str(if supports.struct_values.named {
            " named"
        } else {
            " other"
        })?;
    }
    Ok(text)
}

#[test]
fn calls_are_kept(rt: HostRuntime) -> Tested<()> {
    let alloc = rt.alloc();
    let table = table(alloc)?;
    let text = "#[darling(from_word = f, derive_syn_parse = false)] struct A { a: u8 }";
    let item = item_of(alloc, text)?;
    let Ok(options) = FromMetaOptions::new(alloc, &item, &table) else {
        return Err(Fail::new(format_args!("{text} is refused")));
    };
    assert!(rt; options.from_word.is_some());
    assert!(rt; options.from_none.is_none() && options.from_expr.is_none());
    assert_eq!(rt; options.derive_syn_parse, Some(false));
    Ok(())
}
