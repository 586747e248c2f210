//! What stands at each place.

ghost use Rattle.std.specs.Prelude.{◌≡◌};
ghost use Rattle.std.specs.List.{list_any};
ghost use Rattle.machine_places.specs.Places as spec;

use codegen_program::{Derive, Magic};
use machine_places::{OuterPlace, Part};

/// The place of a field that takes a part of the element by its name, under the derive.
pub fn part_place(derive: Derive, magic: Magic) -> OuterPlace
    ensures { result ≡ spec.part_place derive magic }
{
    match (derive, magic) {
        (Derive::FromField, Magic::Ident) => OuterPlace::Part(Part::OptionalIdent),
        (_, Magic::Ident) => OuterPlace::Part(Part::Ident),
        (_, Magic::Attrs) => OuterPlace::Part(Part::Attributes),
        (_, Magic::Vis) => OuterPlace::Part(Part::Visibility),
        (_, Magic::Generics) => OuterPlace::Generics,
        (_, Magic::Body) => OuterPlace::Body,
        (_, Magic::Ty) => OuterPlace::Part(Part::Type),
        (_, Magic::Discriminant) => OuterPlace::Part(Part::OptionalExpr),
        (_, Magic::Fields) => OuterPlace::Fields,
        (_, Magic::Bounds) => OuterPlace::Part(Part::Bounds),
        (_, Magic::Default) => OuterPlace::Part(Part::OptionalType),
    }
}

/// The type that takes the whole of what is read at the place, where there is one.
fn whole_of(at: OuterPlace) -> Option<Part>
    ensures { result ≡ spec.whole_of at }
{
    match at {
        OuterPlace::Input => Some(Part::DeriveInput),
        OuterPlace::Field => Some(Part::Field),
        OuterPlace::Variant => Some(Part::Variant),
        OuterPlace::TypeParam => Some(Part::TypeParam),
        OuterPlace::GenericParam => Some(Part::GenericParam),
        OuterPlace::Generics => Some(Part::Generics),
        _ => None,
    }
}

/// Whether the type takes the whole of what is read at the place.
pub(crate) fn is_whole(at: OuterPlace, part: Part) -> bool
    ensures { result ≡ spec.whole_is (spec.whole_of at) part }
{
    whole_of(at) == Some(part)
}

/// Whether an element of syntax is read at the place.
pub(crate) fn is_node(at: OuterPlace) -> bool
    ensures { result ≡ spec.is_node at }
{
    whole_of(at).is_some()
}

/// Whether the place takes `()`, which attributes are read as too.
pub(crate) fn takes_unit(at: OuterPlace) -> bool
    ensures { result ≡ spec.takes_unit at }
{
    match at {
        OuterPlace::Attributes => true,
        _ => is_node(at),
    }
}

/// Whether the type takes what is read at the place, or a part of it, as it stands.
pub(crate) fn takes_part(at: OuterPlace, part: Part) -> bool
    ensures { result ≡ list_any (spec.same_part part) (spec.parts_at at) }
{
    match at {
        OuterPlace::Input => matches!(part, Part::DeriveInput),
        OuterPlace::Field => {
            matches!(
                part,
                Part::Field | Part::Type | Part::Visibility | Part::Attributes
            )
        }
        OuterPlace::Variant => matches!(part, Part::Variant | Part::Ident | Part::Attributes),
        OuterPlace::TypeParam => matches!(part, Part::TypeParam | Part::Ident | Part::Attributes),
        OuterPlace::GenericParam => matches!(part, Part::GenericParam),
        OuterPlace::Generics => matches!(part, Part::Generics),
        OuterPlace::Attributes => matches!(part, Part::Attributes),
        OuterPlace::Body | OuterPlace::Fields => false,
        OuterPlace::Part(it) => part == it,
    }
}

/// The derive that reads what is read at the place.
pub(crate) fn derive_at(at: OuterPlace) -> Option<Derive>
    ensures { result ≡ spec.derive_at at }
{
    match at {
        OuterPlace::Input => Some(Derive::FromDeriveInput),
        OuterPlace::Field => Some(Derive::FromField),
        OuterPlace::Variant => Some(Derive::FromVariant),
        OuterPlace::TypeParam => Some(Derive::FromTypeParam),
        OuterPlace::Attributes => Some(Derive::FromAttributes),
        _ => None,
    }
}
