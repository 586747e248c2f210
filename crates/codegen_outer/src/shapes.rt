//! The shapes that a statement looks for.

ghost use Rattle.std.specs.Prelude.{◌≡◌};
ghost use Rattle.std.specs.Option.{option_copied};
ghost use Rattle.codegen_outer.specs.Shapes as spec;

use codegen_program::{DataShape, ShapeSpec};
use options_types::DeriveInputShapeSet;

/// The shapes of items that are taken; without the option, every one.
pub(crate) fn input_shapes(supports: Option<&DeriveInputShapeSet>) -> ShapeSpec
    ensures { result ≡ spec.input_shapes (option_copied supports.entry) }
{
    match supports {
        Some(set) if !set.any => {
            ShapeSpec::Body {
                structs: each_shape(set.struct_values),
                enums: each_shape(set.enum_values),
            }
        }
        _ => ShapeSpec::Any,
    }
}

/// The shapes of variants that are taken; without the option, every one.
pub(crate) fn variant_shapes(supports: Option<&DataShape>) -> ShapeSpec
    ensures { result ≡ spec.variant_shapes (option_copied supports.entry) }
{
    match supports {
        Some(shape) => ShapeSpec::Fields(each_shape(*shape)),
        None => ShapeSpec::Any,
    }
}

/// The shapes one by one, where the option says `any` too.
fn each_shape(shape: DataShape) -> DataShape
    ensures { result ≡ spec.each_shape shape }
{
    DataShape {
        newtype: shape.any || shape.newtype,
        named: shape.any || shape.named,
        tuple: shape.any || shape.tuple,
        unit: shape.any || shape.unit,
        any: false,
    }
}
