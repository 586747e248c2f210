//! A field that takes a part of an item as it stands, as its options say it.

ghost use Rattle.std.specs.Prelude.{◌≡◌, IfOk};
ghost use Rattle.error_core.specs.Answers.{Answers};
ghost use Rattle.error_core.specs.ErrorView.{One};
ghost use Rattle.options_rows.specs.Does.{Does};
ghost use Rattle.options_rows.specs.Entries.{option_entries};
ghost use Rattle.options_rows.specs.Forwarded as spec;
ghost use Rattle.options_rows.specs.Rows.{one};
ghost use Rattle.options_rows.specs.Values.{word_of};
ghost use Rattle.options_rows.specs.Walk.{read_options};

use crate::option_value::word_of;
use crate::parse_attribute::ParseAttribute;
use crate::steps::once;
use base_core::{Mem, Text, TryClone};
use error_core::{Error, Fail, Result};
use node_core::{Field, Meta};
use node_expr::{Path, Type};
use options_types::ForwardedField;
use std::alloc::Global;
use tok_types::Ident;
use util_table::RenameTable;

/// The options of a field that takes a part of an item.
#[derive(Clone, Copy)]
pub enum ForwardedName {
    With,
    Unknown,
}

impl ForwardedName {
    fn of(path: &Path) -> ForwardedName
        ensures { result ≡ spec.forwarded_name_of (word_of path.now) }
    {
        match word_of(path) {
            "with" => ForwardedName::With,
            _ => ForwardedName::Unknown,
        }
    }
}

impl ParseAttribute for ForwardedField {
    ghost use Rattle.std.specs.Prelude.{refl};
    ghost use Rattle.options_rows.specs.Forwarded.{of_forwarded, of_forwarded_faults};
    ghost use Rattle.options_rows.specs.ForwardedLaws.{of_forwarded-more};

    ghost options = { λ rules. of_forwarded };

    ghost faults = { λ rules. of_forwarded_faults };

    fn parse_nested(&mut self, alloc: Global, item: &Meta, _table: &RenameTable) -> Result<()> {
        apply(alloc, self, ForwardedName::of(item.path()), item)
    }

    ghost more = { λ rules. of_forwarded-more };

    ghost none = { λ rules set. refl };
}

/// Reads a field that takes a part of an item. One without a name takes none.
#[tactic(auto, unfolding(crate::specs::Forwarded::forwarded_meaning))]
pub fn forwarded_field(alloc: Global, field: &Field, table: &RenameTable) -> Result<ForwardedField>
    ensures { Answers (λ it. it) result (spec.forwarded_meaning field.now) }
{
    match &field.ident {
        Some(ident) => read_named(alloc, ident, field, table),
        None => Err(Fail::Faults(no_name(alloc, field)?)),
    }
}

fn read_named(
    alloc: Global,
    ident: &Ident,
    field: &Field,
    table: &RenameTable,
) -> Result<ForwardedField>
    ensures { Answers (λ it. it) result
        (read_options spec.of_forwarded spec.of_forwarded_faults (spec.forwarded_start ident.now field.now.ty) (option_entries field.now.attrs)) }
{
    let start = start(alloc, ident, &field.ty)?;
    start.parse_attributes(alloc, field.attrs.as_slice(), table)
}

/// A field that has no option.
fn start(alloc: Global, ident: &Ident, ty: &Type) -> Mem<ForwardedField>
    ensures { IfOk result (λ it. it ≡ spec.forwarded_start ident.now ty.now) }
{
    let ident = ident.try_clone(alloc)?;
    let ty = ty.try_clone(alloc)?;
    Ok(ForwardedField {
        ident,
        ty,
        with: None,
    })
}

/// Sets the option that the item is of, or for want of memory none.
fn apply(alloc: Global, field: &mut ForwardedField, name: ForwardedName, item: &Meta) -> Result<()>
    ensures { Does result (spec.forwarded_faults name field.old item.now)
        (spec.forwarded_options field.old (one name item.now)) field.old field.new }
{
    match name {
        ForwardedName::With => once(alloc, &mut field.with, item),
        ForwardedName::Unknown => Err(Fail::Faults(unknown_beside_with(alloc, item)?)),
    }
}

/// An item that is of no option.
#[tactic(auto, unfolding(crate::specs::Forwarded::unknown_beside_with))]
fn unknown_beside_with(alloc: Global, item: &Meta) -> Mem<Error>
    ensures { IfOk result (λ error. error ≡ One (spec.unknown_beside_with item.now)) }
{
    let known = [Text::from_str(alloc, "with")?];
    Ok(Error::unknown_field_path_with_alts(alloc, item.path(), &known)?.with_span(item))
}

#[tactic(auto, unfolding(crate::specs::Forwarded::no_name))]
fn no_name(alloc: Global, field: &Field) -> Mem<Error>
    ensures { IfOk result (λ error. error ≡ One (spec.no_name field.now)) }
{
    Ok(Error::custom(alloc, "forwarded field must be named field")?.with_span(field))
}
