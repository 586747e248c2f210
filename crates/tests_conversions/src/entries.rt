//! What the walk over attributes gives: each item of the attributes of some names, and the faults in the place of items.

use crate::asked::must_be;
use error_core::Text;
use error_fault::push_fault_line;
use meta_core::Items;
use meta_entries::{Entry, Named, entries};
use print_core::ToTokens;
use std::alloc::Global;
use syn_core::parse_derive_input;
use tests_checks::{Tested, given, row_of, tokens};
use tok_core::to_text;

// An item with attributes, and the entries of those that are named `a` or `b::c`.
const ENTRIES: &str = r#"#[a(x, y = 1)] #[d(z)] #[a("l")] struct S; => x;y = 1;"l";
#[::a(x)] #[b::c(y)] #[b(z)] #[r#a(z)] struct S; => x;y;
#[a] #[a()] #[doc = "d"] struct S; => 
#[a = 1] #[::b::c = 2] #[a(x)] struct S; => 2..7 Name-value arguments are not supported. Use #[a(...)];11..21 Name-value arguments are not supported. Use #[::b::c(...)];x;
#[a(x y)] #[a(z)] struct S; => 4..7 expected a meta list;z;
#[a(x = ?)] struct S; => x = ?;"#;

/// The entries in order, each with a `;` behind it: an item as it is printed, and a fault with its place.
fn told(alloc: Global, text: &str) -> Tested<Text> {
    let tokens = tokens(alloc, 0, text)?;
    let item = given(parse_derive_input(alloc, &tokens), text)?;
    let mut names = Items::new(alloc);
    names.push(Text::from_str(alloc, "a")?)?;
    names.push(Text::from_str(alloc, "b::c")?)?;
    let found = entries(alloc, item.attrs.as_slice(), &Named(names.as_slice()))?;
    let mut told = Text::new(alloc);
    for entry in found.as_slice() {
        match entry {
            Entry::Item(item) => {
                let printed = to_text(alloc, &item.to_token_stream(alloc)?)?;
                told.push_str(printed.as_str())?;
            }
            Entry::Fault(fault) => push_fault_line(alloc, &mut told, fault)?,
        }
        told.push(';')?;
    }
    Ok(told)
}

#[test]
fn entries_of_attributes(rt: HostRuntime) -> Tested<()> {
    let alloc = rt.alloc();
    for row in ENTRIES.lines() {
        let (text, wanted) = row_of(row);
        must_be(&told(alloc, text)?, row, wanted)?;
    }
    Ok(())
}
