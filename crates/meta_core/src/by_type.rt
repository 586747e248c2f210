//! A type of Rust, as what reads it.

use crate::from_meta::FromMeta;
use error_core::Result;
use meta_nested::Call;
use meta_reads::Reader;
use std::alloc::Global;
use std::marker::PhantomData;

/// The reader of a type of Rust: there is nothing to know of it when a run reads it.
#[derive(Drop)]
pub struct ByType<T> {
    of: PhantomData<T>,
}

impl<T> ByType<T> {
    /// The reader, which has no data.
    pub fn new() -> ByType<T> {
        ByType { of: PhantomData }
    }
}

impl<T: FromMeta> Reader for ByType<T> {
    type Value = T;

    ghost Seen = { T.Seen };

    ghost seen = { T.seen };

    ghost cells = { λ _. T.cells };

    ghost is_callable = { λ _. Unit {0} };

    fn cell(&self, alloc: Global, call: Call<'_>) -> Result<Option<T>> {
        T::cell(alloc, call)
    }
}
