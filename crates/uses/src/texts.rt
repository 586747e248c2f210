//! From a text to what it spells.

ghost use Rattle.std.specs.Prelude.{◌≤◌, length};
ghost use Rattle.uses.specs.Texts as spec;

use crate::fail::TextFail;
use meta_core::NestedMeta;
use std::alloc::Global;
use syn_core::{DeriveInput, Items, Type, parse_derive_input, parse_type};
use tok_core::{MAX_LEN, lex};

/// The item that the text is: a struct, an enum or a union.
pub fn item_of(alloc: Global, text: &str) -> Result<DeriveInput, TextFail>
    requires { length text.now ≤ MAX_LEN }
    ensures { spec.ReadsItem text.now result }
{
    let tokens = lex(alloc, 0, text)?;
    let item = parse_derive_input(alloc, &tokens)?;
    Ok(item)
}

/// The type that the text is.
pub fn type_of(alloc: Global, text: &str) -> Result<Type, TextFail>
    requires { length text.now ≤ MAX_LEN }
    ensures { spec.ReadsType text.now result }
{
    let tokens = lex(alloc, 0, text)?;
    let ty = parse_type(alloc, &tokens)?;
    Ok(ty)
}

/// The nested items that the text is, as in `a = 1, b(c), "d"`.
pub fn nested_items_of(alloc: Global, text: &str) -> Result<Items<NestedMeta>, TextFail>
    requires { length text.now ≤ MAX_LEN }
    ensures { spec.ReadsNested text.now result }
{
    let tokens = lex(alloc, 0, text)?;
    let items = NestedMeta::parse_meta_list(alloc, &tokens)?;
    Ok(items)
}
