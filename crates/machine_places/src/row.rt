//! What a type reads of an element.

use crate::part::Part;
use base_core::Boxed;

/// What a type reads of an element: a row of the table of outer types with the rows of what it holds, a declaration by its
/// number, or nothing.
pub enum OuterRow {
    /// `()`
    Unit,
    /// `Ignored`
    Ignored,
    /// A type that takes an element, or a part of one, as it stands.
    Part(Part),
    /// The declaration of this number, from 0 on.
    Declared(usize),
    /// `SpannedValue<T>`
    SpannedValue(Boxed<OuterRow>),
    /// `WithOriginal<T, Field>`, by the type of what `T` was read from.
    WithOriginal(Boxed<OuterRow>, Part),
    /// `Result<T>`, whose error is darling's
    Result(Boxed<OuterRow>),
    /// `Data<V, F>`
    Data(Boxed<OuterRow>, Boxed<OuterRow>),
    /// `Fields<F>`, darling's
    Fields(Boxed<OuterRow>),
    /// `Generics<P>`, darling's
    Generics(Boxed<OuterRow>),
    /// `GenericParam<T>`, darling's
    GenericParam(Boxed<OuterRow>),
    /// A type that reads no element.
    Other,
}

impl Drop for OuterRow {
    fn drop(self) {
        match self {
            OuterRow::Unit => {}
            OuterRow::Ignored => {}
            OuterRow::Part(_) => {}
            OuterRow::Declared(_) => {}
            OuterRow::SpannedValue(_it) => {}
            OuterRow::WithOriginal(_it, _) => {}
            OuterRow::Result(_it) => {}
            OuterRow::Data(_variant, _field) => {}
            OuterRow::Fields(_it) => {}
            OuterRow::Generics(_it) => {}
            OuterRow::GenericParam(_it) => {}
            OuterRow::Other => {}
        }
    }
}
