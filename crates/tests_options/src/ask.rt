//! How a row `ARGUMENT => ANSWER` is asked: by its kind. `⟨3 x⟩` stands for `xxx`.

use crate::bodies::{names_of, printed_members, read_nothing, shaped, taken};
use crate::outer_units::{compiled_under, supported};
use crate::searched::{declared, searched};
use crate::units::compiled;
use crate::values::{shown, table};
use crate::variants::{forms, shown_variants};
use error_core::{Fail as Refusal, Text};
use error_fault::push_fault_line;
use node_core::DeriveInput;
use options_core::{
    FdiOptions, FromAttributesOptions, FromFieldOptions, FromMetaOptions, FromTypeParamOptions,
    FromVariantOptions,
};
use print_core::ToTokens;
use std::alloc::Global;
use std::test::Fail;
use syn_core::parse_derive_input;
use tests_checks::{Tested, given, row_of, tokens, unwrapped};
use tok_core::to_text;

/// Asks each row of a table of one kind.
pub fn rows(alloc: Global, kind: &str, table: &str) -> Tested<()> {
    let table = unwrapped(alloc, table)?;
    for row in table.lines() {
        let (argument, wanted) = row_of(row);
        let told = told(alloc, kind, expanded(alloc, argument)?.as_str())?;
        if !told.is(wanted) {
            return Err(Fail::new(format_args!("{kind}, {row}: {}", told.as_str())));
        }
    }
    Ok(())
}

fn told(alloc: Global, kind: &str, argument: &str) -> Tested<Text> {
    match kind {
        "under FromDeriveInput" => {
            let item = item_of(alloc, argument)?;
            faults(alloc, FdiOptions::new(alloc, &item, &table(alloc)?))
        }
        "under FromMeta" => {
            let item = item_of(alloc, argument)?;
            faults(alloc, FromMetaOptions::new(alloc, &item, &table(alloc)?))
        }
        "under FromField" => {
            let item = item_of(alloc, argument)?;
            faults(alloc, FromFieldOptions::new(alloc, &item, &table(alloc)?))
        }
        "under FromTypeParam" => {
            let item = item_of(alloc, argument)?;
            faults(
                alloc,
                FromTypeParamOptions::new(alloc, &item, &table(alloc)?),
            )
        }
        "under FromVariant" => {
            let item = item_of(alloc, argument)?;
            faults(alloc, FromVariantOptions::new(alloc, &item, &table(alloc)?))
        }
        "under FromAttributes" => {
            let item = item_of(alloc, argument)?;
            faults(
                alloc,
                FromAttributesOptions::new(alloc, &item, &table(alloc)?),
            )
        }
        "supports" => supported(alloc, argument),
        "options" => shown(alloc, argument),
        "variants" => shown_variants(alloc, argument),
        "forms" => forms(alloc, argument),
        "units" => compiled(alloc, argument),
        "unit of FromDeriveInput"
        | "unit of FromField"
        | "unit of FromTypeParam"
        | "unit of FromVariant"
        | "unit of FromAttributes" => { compiled_under(alloc, kind, argument) }
        "shapes" => shaped(alloc, argument),
        "taken" => taken(alloc, argument),
        "members" => printed_members(alloc, argument),
        "type parameters" => names_of(alloc, argument),
        "read as nothing" => read_nothing(alloc, argument),
        "declared" => declared(alloc, argument),
        _ => searched(alloc, kind, argument),
    }
}

/// The item that the text is.
pub fn item_of(alloc: Global, text: &str) -> Tested<DeriveInput> {
    let tokens = tokens(alloc, 0, text)?;
    given(parse_derive_input(alloc, &tokens), text)
}

/// Each fault with its place; of an answer that has none, `ok`.
pub fn faults<T: Drop>(alloc: Global, answer: Result<T, Refusal>) -> Tested<Text> {
    let mut text = Text::new(alloc);
    match answer {
        Ok(_) => text.push_str("ok")?,
        Err(refusal) => {
            let Some(error) = refusal.into_error() else {
                return Err(Fail::new(format_args!("no memory is left")));
            };
            let faults = error.into_faults(alloc)?;
            for fault in faults.as_slice() {
                push_fault_line(alloc, &mut text, fault)?;
                text.push(';')?;
            }
        }
    }
    Ok(text)
}

/// Adds the tokens of a node.
pub fn push_node<N: ToTokens>(alloc: Global, text: &mut Text, node: &N) -> Tested<()> {
    let tokens = node.to_token_stream(alloc)?;
    text.push_str(to_text(alloc, &tokens)?.as_str())?;
    Ok(())
}

/// The text with each `⟨COUNT TEXT⟩` so many times.
fn expanded(alloc: Global, text: &str) -> Tested<String> {
    let mut all = String::new(alloc);
    for piece in text.split('⟩') {
        let (front, repeated) = piece.split_once('⟨').unwrap_or((piece, ""));
        all.push_str(front)?;
        let (count, one) = repeated.split_once(' ').unwrap_or(("", ""));
        for _number in 0..count.parse::<usize>().unwrap_or(0) {
            all.push_str(one)?;
        }
    }
    Ok(all)
}
