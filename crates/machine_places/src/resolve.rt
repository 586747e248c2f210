//! The outer row of a type.

ghost use Rattle.std.specs.Prelude.{◌≡◌, IfOk};
ghost use Rattle.machine_places.specs.Rows as spec;

use crate::head::{OuterHead, outer_head_of};
use crate::row::OuterRow;
use base_core::{Boxed, Mem};
use machine_rows::Names;
use node_expr::Type;
use std::alloc::Global;
use tok_types::Ident;

/// How deep a type is looked into. No type of a text is deeper.
const MAX_DEPTH: usize = 256;

/// What a type reads of an element: a name of one of the declarations, or of the tables.
pub fn outer_row_of(alloc: Global, decls: &[Ident], ty: &Type) -> Mem<OuterRow>
    ensures { IfOk result (λ row. row ≡ spec.outer_row_of decls.now ty.now) }
{
    outer_row_among(alloc, &decls, ty)
}

/// What a type reads of an element, as [`outer_row_of`] gives it, among declarations in whatever form they are at hand.
pub fn outer_row_among<N: Names>(alloc: Global, decls: &N, ty: &Type) -> Mem<OuterRow>
    ensures { IfOk result (λ row. row ≡ spec.outer_row_of (N.idents decls.now) ty.now) }
{
    outer_row_at(alloc, decls, MAX_DEPTH, ty)
}

/// The row of a type, which is looked into as deep as `level`.
#[cycle(outer_row_at)]
fn outer_row_at<N: Names>(alloc: Global, decls: &N, level: usize, ty: &Type) -> Mem<OuterRow>
    ensures { IfOk result (λ row. row ≡ spec.outer_row_at (N.idents decls.now) level ty.now) }
{
    if level == 0 {
        return Ok(OuterRow::Other);
    }
    row_above(alloc, decls, level - 1, ty)
}

/// The row of a type, where what it holds is looked into as deep as `level`.
#[cycle(outer_row_at)]
fn row_above<N: Names>(alloc: Global, decls: &N, level: usize, ty: &Type) -> Mem<OuterRow>
    ensures { IfOk result (λ row. row ≡ spec.row_above (N.idents decls.now) level ty.now) }
{
    match outer_head_of(decls, ty) {
        OuterHead::Unit => Ok(OuterRow::Unit),
        OuterHead::Ignored => Ok(OuterRow::Ignored),
        OuterHead::Part(part) => Ok(OuterRow::Part(part)),
        OuterHead::Declared(place) => Ok(OuterRow::Declared(place)),
        OuterHead::SpannedValue(it) => {
            Ok(OuterRow::SpannedValue(boxed_row(alloc, decls, level, it)?))
        }
        OuterHead::WithOriginal(it, part) => {
            Ok(OuterRow::WithOriginal(boxed_row(alloc, decls, level, it)?, part))
        }
        OuterHead::Result(it) => Ok(OuterRow::Result(boxed_row(alloc, decls, level, it)?)),
        OuterHead::Data(variant, field) => {
            let variant = boxed_row(alloc, decls, level, variant)?;
            Ok(OuterRow::Data(variant, boxed_row(alloc, decls, level, field)?))
        }
        OuterHead::Fields(it) => Ok(OuterRow::Fields(boxed_row(alloc, decls, level, it)?)),
        OuterHead::Generics(it) => Ok(OuterRow::Generics(boxed_row(alloc, decls, level, it)?)),
        OuterHead::GenericParam(it) => {
            Ok(OuterRow::GenericParam(boxed_row(alloc, decls, level, it)?))
        }
        OuterHead::Other => Ok(OuterRow::Other),
    }
}

/// The row of what a type holds.
#[cycle(outer_row_at)]
fn boxed_row<N: Names>(alloc: Global, decls: &N, level: usize, ty: &Type) -> Mem<Boxed<OuterRow>>
    ensures { IfOk result (λ row. row ≡ spec.outer_row_at (N.idents decls.now) level ty.now) }
{
    Boxed::new(alloc, outer_row_at(alloc, decls, level, ty)?)
}
