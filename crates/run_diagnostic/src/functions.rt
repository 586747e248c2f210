//! Functions that the host does not offer.

use crate::place::{bytes_of, push_all, push_place, text_at};
use base_core::{Mem, Text};
use run_parts::Parts;
use std::alloc::Global;
use tok_types::Span;

/// The functions that are offered, each with where it may stand.
const FUNCTIONS: [(&str, &str); 7] = [
    ("text::trim", "the `map` of a `String`"),
    ("text::nonempty", "the `and_then` of a `String`"),
    ("text::star", "the `default` of a `String`"),
    ("num::one", "the `default` of an integer"),
    ("meta::path_text", "the `with` of a `String`"),
    ("ident::text", "the `with` of the field `ident`"),
    ("attrs::count", "the `with` of the field `attrs`"),
];

/// Adds what is told of a function that is not offered where it stands.
pub fn push_unknown_function(
    alloc: Global,
    out: &mut Text,
    parts: &Parts<'_>,
    span: Span,
) -> Mem<()> {
    let name = unquoted(text_at(parts.declarations, span));
    push_all(out, &["error: no function `", name, "` is offered here\n"])?;
    push_place(alloc, out, parts, 1, bytes_of(span))?;
    out.push_str("  = help: ")?;
    for (offered, place) in FUNCTIONS {
        if offered == name {
            return push_all(out, &["`", name, "` is offered as ", place, "\n"]);
        }
    }
    push_offers(out)
}

/// The path that is named, by itself or in a string.
fn unquoted(text: &str) -> &str {
    match text.strip_prefix('"') {
        Some(text) => text.strip_suffix('"').unwrap_or(text),
        None => text,
    }
}

/// Adds all that is offered.
fn push_offers(out: &mut Text) -> Mem<()> {
    let mut before = "these are: ";
    for (offered, place) in FUNCTIONS {
        push_all(out, &[before, "`", offered, "` as ", place])?;
        before = "; ";
    }
    out.push_str("\n")
}
