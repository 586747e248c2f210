//! Tags of types: whether a type is asked for its value where no item is.

ghost use Rattle.std.specs.Prelude.{◌≡◌, None, IfOk};
ghost use Rattle.meta_nested.specs.Cells.{GivesNone};
ghost use Rattle.meta_nested.specs.Dispatch as spec;

use crate::from_meta::FromMeta;
use base_core::Mem;
use std::alloc::Global;
use std::marker::PhantomData;

/// The tag of a type that is read: the type itself is asked.
pub struct FromMetaTag<T>(PhantomData<T>);

/// The tag of every other type: it has no value where no item is.
pub struct FromMetaTagAll<T>(PhantomData<T>);

impl<T: FromMeta> FromMetaTag<T> {
    /// The tag, which has no data.
    pub fn new() -> FromMetaTag<T> {
        FromMetaTag(PhantomData)
    }

    /// What the type is without an item, by [`FromMeta::from_none`].
    pub fn from_none(self, alloc: Global) -> Mem<Option<T>>
        ensures { IfOk result (λ found. GivesNone T.seen found (spec.from_none T.cells)) }
    {
        let FromMetaTag(_) = self;
        T::from_none(alloc)
    }
}

impl<T> FromMetaTagAll<T> {
    /// The tag, which has no data.
    pub fn new() -> FromMetaTagAll<T> {
        FromMetaTagAll(PhantomData)
    }

    /// None: where no item is there is no tag.
    pub fn from_none(self) -> Option<T>
        ensures { result ≡ None }
    {
        let FromMetaTagAll(_) = self;
        None
    }
}

impl<T> Drop for FromMetaTag<T> {
    fn drop(self) {
        let FromMetaTag(_) = self;
    }
}

impl<T> Drop for FromMetaTagAll<T> {
    fn drop(self) {
        let FromMetaTagAll(_) = self;
    }
}
