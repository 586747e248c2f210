//! What is read as its one field is.

ghost use Rattle.std.specs.Prelude.{◌≡◌, IfOk};
ghost use Rattle.std.specs.Option.{option_copied};
ghost use Rattle.codegen_core.specs.Variants as spec;

use crate::field::Field;
use base_core::{Mem, Text};
use body_core::ast::Fields;
use node_core::Style;
use std::alloc::Global;

/// The field as which a struct or a variant is read: the one of a tuple, and the one with a name where that is said.
pub fn extract_transparent<'f, 'a>(
    fields: &'f Fields<Field<'a>>,
    is_transparent: bool,
) -> Option<&'f Field<'a>>
    ensures { option_copied result ≡ spec.transparent_field is_transparent fields.now.style fields.now.fields }
{
    match fields.style {
        Style::Tuple => sole(fields.fields.as_slice()),
        Style::Struct => {
            if is_transparent {
                sole(fields.fields.as_slice())
            } else {
                None
            }
        }
        Style::Unit => None,
    }
}

/// The one field, where there is no other.
fn sole<'f, 'a>(fields: &'f [Field<'a>]) -> Option<&'f Field<'a>>
    ensures { option_copied result ≡ spec.sole fields.now }
{
    match fields {
        [] => None,
        [field] => Some(field),
        [_, _, ..] => None,
    }
}

/// The name of the member that the field is.
pub(crate) fn member_name(alloc: Global, style: Style, field: &Field<'_>) -> Mem<Text>
    ensures { IfOk result (λ it. it ≡ spec.member_name style field.now) }
{
    match style {
        Style::Tuple => Text::from_str(alloc, "0"),
        Style::Struct => field.ident.to_text(alloc),
        Style::Unit => field.ident.to_text(alloc),
    }
}
