//! The table of names that read an element, and none of them an item.

ghost use Rattle.std.specs.Prelude.{◌≡◌, map};
ghost use Rattle.std.specs.Str.{bytes_eq};
ghost use Rattle.machine_places.specs.Table as spec;

use crate::name::OuterName;
use crate::part::Part;
use machine_rows::{Home, stands_after};
use node_expr::PathSegment;

/// The names of the table in its order, each with what it may stand after, the number of its arguments, and what it names.
const NAMES: [(&str, Home, usize, OuterName); 11] = [
    (
        "DeriveInput",
        Home::Syn,
        0,
        OuterName::Part(Part::DeriveInput),
    ),
    ("Field", Home::Syn, 0, OuterName::Part(Part::Field)),
    ("Variant", Home::Syn, 0, OuterName::Part(Part::Variant)),
    (
        "GenericParam",
        Home::Syn,
        0,
        OuterName::Part(Part::GenericParam),
    ),
    ("Generics", Home::Syn, 0, OuterName::Part(Part::Generics)),
    ("Attribute", Home::Syn, 0, OuterName::Attribute),
    ("TypeParamBound", Home::Syn, 0, OuterName::TypeParamBound),
    ("Data", Home::DarlingAst, 2, OuterName::Data),
    ("Fields", Home::DarlingAst, 1, OuterName::Fields),
    ("Generics", Home::DarlingAst, 1, OuterName::Generics),
    ("GenericParam", Home::DarlingAst, 1, OuterName::GenericParam),
];

/// What the table has at the name, with so many arguments, behind these segments.
pub fn named(before: &[PathSegment], name: &str, arguments: usize) -> Option<OuterName>
    ensures { result ≡ spec.looked_up spec.names before.now name.now arguments }
{
    looked_up(&NAMES, before, name, arguments)
}

fn looked_up(
    rows: &[(&str, Home, usize, OuterName)],
    before: &[PathSegment],
    name: &str,
    arguments: usize,
) -> Option<OuterName>
    ensures { result ≡ spec.looked_up (map (λ row. (row.0.now, row.1, row.2, row.3)) rows.now) before.now name.now arguments }
{
    for row in rows {
        if row.2 == arguments && row.0 == name && stands_after(row.1, before) {
            return Some(row.3);
        }
    }
    None
}
