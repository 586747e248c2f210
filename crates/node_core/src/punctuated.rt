//! Lists whose items stand between marks.

use base_core::Items;
use std::marker::PhantomData;

/// A list that is written with the mark `P` between its items: `a, b, c` for
/// `Punctuated<Expr, Comma>`. The marks are not kept.
#[derive_where(PartialEq, Eq, Hash; T)]
pub struct Punctuated<T, P> {
    pub items: Items<T>,
    pub by: PhantomData<P>,
}

/// The mark `,`
#[derive(Clone, Copy, Debug, PartialEq, Eq, Hash)]
pub struct Comma;

impl<T: Drop, P: Drop> Drop for Punctuated<T, P> {
    fn drop(self) {
        let Self {
            items: _items,
            by: _by,
        } = self;
    }
}
