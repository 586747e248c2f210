//! Texts that are one value, and the list of a type without items.

ghost use Rattle.std.specs.Prelude.{◌≡◌, ◌++◌, map, IfOk, OnOk};
ghost use Rattle.error_core.specs.Answers.{Answers};
ghost use Rattle.error_core.specs.ErrorView.{One};
ghost use Rattle.meta_reads.specs.Words as spec;

use base_core::Mem;
use error_core::{Accumulator, Error, Fail, Result};
use meta_nested::NestedMeta;
use std::alloc::Global;

/// The `bool` that the text is.
pub fn bool_in(text: &str) -> Option<bool>
    ensures { result ≡ spec.bool_in text.now }
{
    match text {
        "true" => Some(true),
        "false" => Some(false),
        _ => None,
    }
}

/// The character that the text is.
pub fn char_in(text: &str) -> Option<char>
    ensures { result ≡ spec.char_in text.now }
{
    text.parse().ok()
}

/// `()` for a list without items; else the errors of all its items.
pub fn no_items(alloc: Global, items: &[NestedMeta]) -> Result<()>
    ensures { Answers (λ it. it) result (spec.no_items items.now) }
{
    let mut errors = Error::accumulator(alloc);
    match collect_unexpected(alloc, items, &mut errors) {
        Ok(()) => errors.finish(),
        Err(_) => {
            let _errors = errors.into_inner();
            Err(Fail::NoMemory)
        }
    }
}

/// Puts the error of each item behind the others.
fn collect_unexpected(alloc: Global, items: &[NestedMeta], errors: &mut Accumulator) -> Mem<()>
    ensures { OnOk result (errors.new ≡ errors.old ++ map (λ item. One (spec.unexpected_item item)) items.now) }
{
    for item in items {
        errors.push(alloc, unexpected_item(alloc, item)?)?;
    }
    Ok(())
}

/// The error of an item where there is to be none.
fn unexpected_item(alloc: Global, item: &NestedMeta) -> Mem<Error>
    ensures { IfOk result (λ error. error ≡ One (spec.unexpected_item item.now)) }
{
    match item {
        NestedMeta::Meta(it) => { Ok(Error::unknown_field_path(alloc, it.path())?.with_span(it)) }
        NestedMeta::Lit(it) => Ok(Error::unexpected_type(alloc, "lit")?.with_span(it)),
        NestedMeta::NameValueInvalidExpr(it) => {
            Ok(Error::unknown_field_path(alloc, &it.path)?.with_span(&it.path))
        }
    }
}
