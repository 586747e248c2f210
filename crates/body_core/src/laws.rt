//! Laws of sets of shapes and of containers.

ghost use Rattle.std.specs.Prelude.{◌≡◌, List, Option};
ghost use Rattle.tok_types.specs.declared.span.Span.{Span};
ghost use Rattle.body_core.specs.Data.{placed, unplaced};
ghost use Rattle.body_core.specs.Shape.{TuplesAreWider};

use crate::ast::{Fields, Style};

/// A set of tuples alone contains newtypes; a set of newtypes alone does not contain tuples. This function does nothing:
/// its clause is the law.
pub fn tuples_contain_newtypes()
    ensures { TuplesAreWider }
{}

/// Whether two containers are equal does not depend on where they stand. This function does nothing: its clause is the law.
pub fn equality_ignores_places<T: PartialEq>()
    ensures { (a b : Style) (xs ys : List T) (here there : Option Span)
        → ⟦<Fields<T> as PartialEq>⟧.eq (placed a xs here) (placed b ys there)
        ≡ ⟦<Fields<T> as PartialEq>⟧.eq (unplaced a xs) (unplaced b ys) }
{}
