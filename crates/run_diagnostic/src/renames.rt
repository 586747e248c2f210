//! The row of the table that a rule of names wants.

use crate::place::push_all;
use base_core::{Mem, Text};
use node_core::DeriveInput;

/// Adds what is told of a rule that has no row in the table: what its first row would be.
pub(crate) fn push_first_row(out: &mut Text, decl: &DeriveInput, rule: &str) -> Mem<()> {
    out.push_str(
        "  = help: a rule is looked up in the table behind a second line `%%`, which has a row for each field",
    )?;
    let Some(field) = decl.body.fields().first() else {
        return out.push_str("\n");
    };
    let Some(ident) = &field.ident else {
        return out.push_str("\n");
    };
    let name = ident.text.as_str();
    push_all(out, &["; its first would be `", rule, " field ", name, " "])?;
    push_renamed(out, rule, name)?;
    out.push_str("`\n")
}

/// Adds the name that darling's rule of this name gives a field; else the field's own.
fn push_renamed(out: &mut Text, rule: &str, name: &str) -> Mem<()> {
    match rule {
        "PascalCase" => push_joined(out, name, true),
        "camelCase" => push_joined(out, name, false),
        "SCREAMING_SNAKE_CASE" | "UPPERCASE" => push_upper(out, name),
        "kebab-case" => push_dashed(out, name),
        _ => out.push_str(name),
    }
}

/// Adds the words of the name without what stands between them, each but perhaps the first with a capital.
fn push_joined(out: &mut Text, name: &str, capital: bool) -> Mem<()> {
    let mut capital = capital;
    for c in name.chars() {
        if c == '_' {
            capital = true;
        } else if capital {
            out.push(c.to_ascii_uppercase())?;
            capital = false;
        } else {
            out.push(c)?;
        }
    }
    Ok(())
}

fn push_upper(out: &mut Text, name: &str) -> Mem<()> {
    for c in name.chars() {
        out.push(c.to_ascii_uppercase())?;
    }
    Ok(())
}

fn push_dashed(out: &mut Text, name: &str) -> Mem<()> {
    for c in name.chars() {
        out.push(if c == '_' { '-' } else { c })?;
    }
    Ok(())
}
