//! Which types a place takes.

ghost use Rattle.std.specs.Prelude.{◌≡◌};
ghost use Rattle.machine_places.specs.Places as spec;

use crate::place::{derive_at, is_node, is_whole, takes_part, takes_unit};
use crate::readers::Readers;
use codegen_program::Derive;
use machine_places::{OuterPlace, OuterRow};

/// Whether the place takes a type of the row. It calls itself for each row inside, and rows of a text are at most 256 deep.
pub fn fits_outer<R: Readers>(row: &OuterRow, at: OuterPlace, readers: &R) -> bool
    ensures { result ≡ spec.fits_outer (R.reads readers.now) at row.now }
{
    match (row, at) {
        (OuterRow::Unit, _) => takes_unit(at),
        (OuterRow::Ignored, _) => is_node(at),
        (OuterRow::Part(part), _) => takes_part(at, *part),
        (OuterRow::Declared(number), _) => read_under(readers, derive_at(at), *number),
        (OuterRow::SpannedValue(inner), _) => is_node(at) && fits_outer(inner.get(), at, readers),
        (OuterRow::WithOriginal(inner, original), _) => {
            is_whole(at, *original) && fits_outer(inner.get(), at, readers)
        }
        (OuterRow::Result(inner), OuterPlace::Generics) => fits_outer(inner.get(), at, readers),
        (OuterRow::Data(variant, field), OuterPlace::Body) => {
            fits_outer(variant.get(), OuterPlace::Variant, readers)
                && fits_outer(field.get(), OuterPlace::Field, readers)
        }
        (OuterRow::Fields(field), OuterPlace::Fields) => {
            fits_outer(field.get(), OuterPlace::Field, readers)
        }
        (OuterRow::Generics(param), OuterPlace::Generics) => {
            fits_outer(param.get(), OuterPlace::GenericParam, readers)
        }
        (OuterRow::GenericParam(ty), OuterPlace::TypeParam | OuterPlace::GenericParam) => {
            fits_outer(ty.get(), OuterPlace::TypeParam, readers)
        }
        _ => false,
    }
}

/// Whether the derive reads an element as the declaration of the number.
fn read_under<R: Readers>(readers: &R, derive: Option<Derive>, number: usize) -> bool
    ensures { result ≡ spec.read_under (R.reads readers.now) derive number }
{
    match derive {
        Some(derive) => readers.read_by(derive, number),
        None => false,
    }
}
