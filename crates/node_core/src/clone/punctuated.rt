//! Clones of lists with marks.

use crate::punctuated::{Comma, Punctuated};
use base_core::{Mem, TryClone};
use std::alloc::Global;
use std::marker::PhantomData;

impl<T: TryClone + Drop, P> TryClone for Punctuated<T, P> {
    fn try_clone(&self, alloc: Global) -> Mem<Punctuated<T, P>> {
        Ok(Punctuated {
            items: self.items.try_clone(alloc)?,
            by: PhantomData,
        })
    }
}

impl TryClone for Comma {
    fn try_clone(&self, _alloc: Global) -> Mem<Comma> {
        Ok(*self)
    }
}
