//! Forms of declarations that no run reads, and names that stand twice.

use crate::place::{bytes_of, first_word, last_word, push_all, push_place, text_at};
use base_core::{Mem, Text};
use run_accepted::Form;
use run_parts::Parts;
use std::alloc::Global;
use tok_types::Span;

/// Adds what is told of a form that no run reads yet.
pub fn push_unbuilt(alloc: Global, out: &mut Text, parts: &Parts<'_>, span: Span) -> Mem<()> {
    let form = text_at(parts.declarations, span);
    let word = name_of(form);
    let (title, help) = match word {
        "data" | "generics" => (
            "is not read yet: a field of this name takes that part of the item",
            "for an option of the name, call the field otherwise and give the name by `rename`",
        ),
        "FromAttributes" | "FromField" | "FromTypeParam" | "FromVariant" => (
            "is no derive that is read yet",
            "`FromDeriveInput` and `FromMeta` are",
        ),
        _ if is_option(word) => (
            "is no option that is read yet",
            "leave it out; `docs/DECLARATIONS.md` has those that are read",
        ),
        _ => (
            "is no struct with named fields",
            "other forms of declarations are read under `FromMeta` alone",
        ),
    };
    push_all(out, &["error: `", word, "` ", title, "\n"])?;
    push_place(alloc, out, parts, 1, bytes_of(span))?;
    push_all(out, &["  = help: ", help, "\n"])
}

fn is_option(word: &str) -> bool {
    matches!(word, "transparent" | "supports" | "from_ident")
}

/// The name of a form: its first word, but of a derive behind `darling::` the last.
fn name_of(form: &str) -> &str {
    match first_word(form) {
        "darling" | "darling_core" | "" => last_word(form),
        word => word,
    }
}

/// Adds what is told of a name, or a derive, that stands a second time.
pub fn push_duplicate(alloc: Global, out: &mut Text, parts: &Parts<'_>, span: Span) -> Mem<()> {
    let name = text_at(parts.declarations, span);
    push_all(out, &["error: `", name, "` stands a second time\n"])?;
    push_place(alloc, out, parts, 1, bytes_of(span))?;
    out.push_str(
        "  = help: declarations differ in their names, and so do the fields of one; it names a derive once\n",
    )
}

/// Adds what is told of a form that is not supported.
pub fn push_form(
    alloc: Global,
    out: &mut Text,
    parts: &Parts<'_>,
    form: Form,
    span: Span,
) -> Mem<()> {
    match form {
        Form::Generics => push_generics(alloc, out, parts, span),
        Form::GeneratedName => push_generated(alloc, out, parts, span),
        other => push_other_form(alloc, out, parts, other, span),
    }
}

fn push_other_form(
    alloc: Global,
    out: &mut Text,
    parts: &Parts<'_>,
    form: Form,
    span: Span,
) -> Mem<()> {
    let name = text_at(parts.declarations, span);
    push_all(
        out,
        &["error: `", name, "` has a form that is not supported: "],
    )?;
    out.push_str(form.words())?;
    out.push_str("\n")?;
    push_place(alloc, out, parts, 1, bytes_of(span))?;
    out.push_str("  = help: ")?;
    out.push_str(form_help(form))?;
    out.push_str("\n")
}

fn form_help(form: Form) -> &'static str {
    match form {
        Form::EmptyEnum => "an enum that is read from an element has a variant",
        Form::Tuple => "a tuple has one field, as which it is read",
        Form::Generics => "a declaration that is run has neither",
        Form::GeneratedName => "call it otherwise",
        Form::IdentUnderAttributes => "attributes have no identifier: call the field otherwise",
        Form::MagicBesideTransparent => "a struct that is read as its one field is has no other",
        Form::InheritedDefault => "no default of an enum is taken over: give the field its own",
        Form::Transform => "a function for the whole is for structs that are read field by field",
        Form::FromNone => "this is for structs that are read field by field, and for enums",
        Form::FromExpr => "this is for structs that are read field by field, and for enums",
    }
}

/// Adds what is told of a declaration with parameters.
fn push_generics(alloc: Global, out: &mut Text, parts: &Parts<'_>, span: Span) -> Mem<()> {
    let name = text_at(parts.declarations, span);
    push_all(out, &["error: `", name, "` has parameters or a `where`\n"])?;
    push_place(alloc, out, parts, 1, bytes_of(span))?;
    out.push_str("  = help: a declaration that is run has neither\n")
}

/// Adds what is told of a name that the generated code has for itself.
fn push_generated(alloc: Global, out: &mut Text, parts: &Parts<'_>, span: Span) -> Mem<()> {
    let name = text_at(parts.declarations, span);
    push_all(
        out,
        &["error: `", name, "` is a name of the generated code\n"],
    )?;
    push_place(alloc, out, parts, 1, bytes_of(span))?;
    out.push_str("  = help: call it otherwise; `rename` keeps the name that items use\n")
}

/// Adds what is told where the last declaration reads no items.
pub fn push_no_receiver(out: &mut Text, parts: &Parts<'_>) -> Mem<()> {
    if parts.declarations.trim().is_empty() {
        out.push_str("error: the first part has no declaration\n")?;
    } else {
        out.push_str("error: the last declaration does not derive `FromDeriveInput`\n")?;
    }
    out.push_str(
        "  = help: the last declaration reads the items: `#[derive(FromDeriveInput)]` stands before it\n",
    )
}
