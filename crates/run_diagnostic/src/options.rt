//! Faults of options: each in a block, with how the option is written.

use crate::place::{bytes_of, first_word, last_word, push_all, push_place};
use crate::renames::push_first_row;
use crate::similar::is_misspelled;
use crate::types::declarations;
use base_core::{Mem, Text};
use error_fault::{Fault, FaultKind, kind_text};
use node_core::{Attribute, DeriveInput};
use node_span::Spanned;
use run_accepted::Rejected;
use run_parts::Parts;
use std::alloc::Global;
use tok_types::Span;

/// How many faults are shown. Each takes the time to find its line.
const SHOWN: usize = 20;

/// The options of a declaration, each with how it is written.
const OF_DECLARATIONS: [(&str, &str); 9] = [
    ("attributes", "`attributes(NAME, OTHER)`"),
    (
        "forward_attrs",
        "`forward_attrs` or `forward_attrs(NAME, OTHER)`",
    ),
    ("default", "`default` or `default = FUNCTION`"),
    ("rename_all", "`rename_all = \"RULE\"`"),
    ("map", "`map = FUNCTION`"),
    ("and_then", "`and_then = FUNCTION`"),
    ("bound", "`bound = \"T: TRAIT\"`"),
    (
        "allow_unknown_fields",
        "`allow_unknown_fields`, `allow_unknown_fields = true` or `allow_unknown_fields = false`",
    ),
    ("crate", "`crate = PATH`"),
];

/// The options of a field, each with how it is written.
const OF_FIELDS: [(&str, &str); 8] = [
    ("rename", "`rename = \"NAME\"`"),
    ("default", "`default` or `default = FUNCTION`"),
    ("with", "`with = FUNCTION`"),
    ("map", "`map = FUNCTION`"),
    ("and_then", "`and_then = FUNCTION`"),
    ("skip", "`skip`, `skip = true` or `skip = false`"),
    (
        "multiple",
        "`multiple`, `multiple = true` or `multiple = false`",
    ),
    ("flatten", "`flatten`"),
];

/// Adds what is told of options that have faults, of the first twenty.
pub fn push_rejected(alloc: Global, out: &mut Text, parts: &Parts<'_>, it: &Rejected) -> Mem<()> {
    let decls = declarations(alloc, parts.declarations)?;
    let decl = named(decls.as_slice(), it.decl.text.as_str());
    for (at, fault) in it.faults.as_slice().iter().enumerate() {
        if at == SHOWN {
            let left = it.faults.len().saturating_sub(SHOWN);
            let text = format!(in alloc; "error: and {left} more\n")?;
            return out.push_str(text.as_str());
        }
        push_fault(alloc, out, parts, decl, fault)?;
    }
    Ok(())
}

/// The declaration of the name.
fn named<'d>(decls: &'d [DeriveInput], name: &str) -> Option<&'d DeriveInput> {
    for decl in decls {
        if decl.ident.text.is(name) {
            return Some(decl);
        }
    }
    None
}

fn push_fault(
    alloc: Global,
    out: &mut Text,
    parts: &Parts<'_>,
    decl: Option<&DeriveInput>,
    fault: &Fault,
) -> Mem<()> {
    let title = kind_text(alloc, &fault.kind)?;
    push_all(out, &["error: ", title.as_str(), "\n"])?;
    let Some(span) = fault.span else {
        return push_nowhere(alloc, out, fault);
    };
    push_place(alloc, out, parts, 1, bytes_of(span))?;
    let word = option_at(parts.declarations, span);
    match (&fault.kind, decl) {
        (FaultKind::UnknownValue { name, .. }, Some(decl)) if word == "rename_all" => {
            push_first_row(out, decl, name.as_str())
        }
        (FaultKind::UnknownField { name, .. }, Some(decl)) => {
            push_known(out, options_at(decl, span), name.as_str())
        }
        (FaultKind::DuplicateField(_), _) => {
            out.push_str("  = help: an option stands once, in all attributes together\n")
        }
        (_, Some(decl)) => push_form(out, options_at(decl, span), word),
        _ => Ok(()),
    }
}

/// Adds what is told of a fault without a place: the fields that lead to it.
fn push_nowhere(alloc: Global, out: &mut Text, fault: &Fault) -> Mem<()> {
    if fault.path.is_empty() {
        return Ok(());
    }
    let path = error_fault::path_text(alloc, fault.path.as_slice())?;
    push_all(out, &["  = help: it is at `", path.as_str(), "`\n"])
}

/// The options that may stand where the span is: those of a field, or of the declaration.
fn options_at(decl: &DeriveInput, span: Span) -> &'static [(&'static str, &'static str)] {
    for field in decl.body.fields() {
        for attr in field.attrs.as_slice() {
            if is_within(attr, span) {
                return &OF_FIELDS;
            }
        }
    }
    &OF_DECLARATIONS
}

fn is_within(attr: &Attribute, span: Span) -> bool {
    let (first, last) = bytes_of(attr.spanned());
    let (start, end) = bytes_of(span);
    first <= start && end <= last
}

/// Adds the option that an unknown one may be meant as, else all options.
fn push_known(out: &mut Text, options: &[(&'static str, &'static str)], name: &str) -> Mem<()> {
    for (option, form) in options {
        if is_misspelled(name, option) {
            push_all(out, &["  = help: `", option, "` is an option, written "])?;
            return push_all(out, &[form, "\n"]);
        }
    }
    let mut before = "  = help: the options here are ";
    for (option, _) in options {
        push_all(out, &[before, "`"])?;
        push_all(out, &[option, "`"])?;
        before = ", ";
    }
    out.push_str("\n")
}

/// Adds how the option is written.
fn push_form(out: &mut Text, options: &[(&'static str, &'static str)], word: &str) -> Mem<()> {
    for (option, form) in options {
        if *option == word {
            return push_all(out, &["  = help: the option is written ", form, "\n"]);
        }
    }
    Ok(())
}

/// The name of the option that the span is the value of, or that it begins with.
fn option_at(text: &str, span: Span) -> &str {
    let (start, _) = bytes_of(span);
    let front = text.get(..start).unwrap_or("").trim_end();
    match front.strip_suffix('=') {
        Some(front) => last_word(front.trim_end()),
        None => first_word(text.get(start..).unwrap_or("")),
    }
}
