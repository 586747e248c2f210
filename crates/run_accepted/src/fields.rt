//! Fields that take a part of an item that no run reads yet.

ghost use Rattle.std.specs.Prelude.{◌≡◌, ◌++◌, flat_map, OnOk};
ghost use Rattle.tok_types.specs.Ident.{ident_text};
ghost use Rattle.options_rows.specs.Members.{body_fields};
ghost use Rattle.run_accepted.specs.Unbuilt as spec;

use base_core::{Items, Mem};
use node_core::{Data, Field};
use tok_types::{Ident, Span};

/// Adds the names of the fields that take such a part of the item.
pub(crate) fn push_parts(body: &Data, spans: &mut Items<Span>) -> Mem<()>
    ensures { OnOk result (spans.new ≡ spans.old ++ flat_map spec.field_places (body_fields body.now)) }
{
    push_fields(body_fields(body), spans)
}

/// The fields of a struct.
fn body_fields(body: &Data) -> &[Field]
    ensures { result.now ≡ body_fields body.now }
{
    match body {
        Data::Struct(it) => it.fields.as_slice(),
        Data::Enum(_) => &[],
        Data::Union(_) => &[],
    }
}

fn push_fields(fields: &[Field], spans: &mut Items<Span>) -> Mem<()>
    ensures { OnOk result (spans.new ≡ spans.old ++ flat_map spec.field_places fields.now) }
{
    for field in fields {
        push_field(field, spans)?;
    }
    Ok(())
}

fn push_field(field: &Field, spans: &mut Items<Span>) -> Mem<()>
    ensures { OnOk result (spans.new ≡ spans.old ++ spec.field_places field.now) }
{
    match &field.ident {
        Some(ident) => push_name(ident, spans),
        None => Ok(()),
    }
}

fn push_name(ident: &Ident, spans: &mut Items<Span>) -> Mem<()>
    ensures { OnOk result (spans.new ≡ spans.old ++ spec.name_places (Some ident.now)) }
{
    if is_part_name(ident) {
        return spans.push(ident.span);
    }
    Ok(())
}

/// No raw identifier is the name of a part.
fn is_part_name(ident: &Ident) -> bool
    ensures { result ≡ spec.is_part_name (ident_text ident.now) }
{
    !ident.raw && is_plain_name(ident.text.as_str())
}

fn is_plain_name(name: &str) -> bool
    ensures { result ≡ spec.is_part_name name.now }
{
    matches!(name, "data" | "generics")
}
