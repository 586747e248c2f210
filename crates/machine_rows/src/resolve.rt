//! The row of a type.

ghost use Rattle.std.specs.Prelude.{◌≡◌, IfOk};
ghost use Rattle.std.specs.Option.{option_copied};
ghost use Rattle.machine_rows.specs.Rows as spec;

use crate::arguments::{Arguments, last_arguments};
use crate::head::{Head, head_of};
use crate::name::Name;
use crate::names::Names;
use crate::path::{Meant, meant_by, segments_in};
use crate::row::{Row, around};
use base_core::{Mem, TryClone};
use node_expr::Type;
use std::alloc::Global;
use tok_types::Ident;

/// How deep a type is looked into. No type of a text is deeper.
const MAX_DEPTH: usize = 256;

/// The row of a type: a name of one of the declarations, else of the table, else of the host.
///
/// A name stands bare, or after the path that the table has for it; a leading `::` is allowed.
pub fn row_of(alloc: Global, decls: &[Ident], ty: &Type) -> Mem<Row>
    ensures { IfOk result (λ row. row ≡ spec.row_of decls.now ty.now) }
{
    row_among(alloc, &decls, ty)
}

/// The row of a type, as [`row_of`] gives it, among declarations in whatever form they are at hand.
pub fn row_among<N: Names>(alloc: Global, decls: &N, ty: &Type) -> Mem<Row>
    ensures { IfOk result (λ row. row ≡ spec.row_of (N.idents decls.now) ty.now) }
{
    row_at(alloc, decls, MAX_DEPTH, ty)
}

/// The row of a type, which is looked into as deep as `level`.
#[cycle(row_at)]
fn row_at<N: Names>(alloc: Global, decls: &N, level: usize, ty: &Type) -> Mem<Row>
    ensures { IfOk result (λ row. row ≡ spec.row_at (N.idents decls.now) level ty.now) }
{
    if level == 0 {
        return host(alloc, ty);
    }
    row_above(alloc, decls, level - 1, ty)
}

/// The row of a type, where what it holds is looked into as deep as `level`.
#[cycle(row_at)]
fn row_above<N: Names>(alloc: Global, decls: &N, level: usize, ty: &Type) -> Mem<Row>
    ensures { IfOk result (λ row. row ≡ spec.row_above (N.idents decls.now) level ty.now) }
{
    match head_of(decls, ty) {
        Head::Unit => Ok(Row::Unit),
        Head::Leaf(leaf) => Ok(Row::Leaf(leaf)),
        Head::Around(wrapper, inner) => {
            around(alloc, wrapper, row_at(alloc, decls, level, inner)?)
        }
        Head::Declared(place) => Ok(Row::Declared(place)),
        Head::Host => host(alloc, ty),
    }
}

fn host(alloc: Global, ty: &Type) -> Mem<Row>
    ensures { IfOk result (λ row. row ≡ Row.Host ty.now) }
{
    Ok(Row::Host(ty.try_clone(alloc)?))
}

/// The `T` of a `Vec<T>`, at which a field of many items reads each.
pub fn element_of<'a>(decls: &[Ident], ty: &'a Type) -> Option<&'a Type>
    ensures { option_copied result ≡ spec.element_of decls.now ty.now }
{
    element_among(&decls, ty)
}

/// The `T` of a `Vec<T>`, as [`element_of`] gives it, among declarations in whatever form they are at hand.
pub fn element_among<'a, N: Names>(decls: &N, ty: &'a Type) -> Option<&'a Type>
    ensures { option_copied result ≡ spec.element_of (N.idents decls.now) ty.now }
{
    let segments = segments_in(ty);
    match (meant_by(decls, segments), last_arguments(segments)) {
        (Meant::Table(Name::Vec), Arguments::One(inner)) => Some(inner),
        _ => None,
    }
}
