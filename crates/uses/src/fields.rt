//! The names of the fields of an item.

ghost use Rattle.std.specs.Prelude.{◌≡◌, ◌≤◌, IfOk, flat_map, length};
ghost use Rattle.uses.specs.Fields as spec;

use crate::fail::TextFail;
use crate::texts::item_of;
use std::alloc::Global;
use syn_core::{Field, Ident, Items, Mem, TryClone};
use tok_core::MAX_LEN;

/// The names of the fields of the struct or union that the text is, in order.
pub fn fields_of(alloc: Global, text: &str) -> Result<Items<Ident>, TextFail>
    requires { length text.now ≤ MAX_LEN }
    ensures { spec.ReadsNames text.now result }
{
    let item = item_of(alloc, text)?;
    let names = names_of(alloc, item.body.fields())?;
    Ok(names)
}

/// The names of the fields, in order. A field in parentheses has none.
pub fn names_of(alloc: Global, fields: &[Field]) -> Mem<Items<Ident>>
    ensures { IfOk result (λ names. names ≡ flat_map spec.name_in fields.now) }
{
    let mut names = Items::new(alloc);
    for field in fields {
        if let Some(name) = &field.ident {
            names.push(name.try_clone(alloc)?)?;
        }
    }
    Ok(names)
}
