//! Clones of attributes.

use crate::attr::{Attribute, Meta, MetaList, MetaNameValue};
use base_core::{Mem, TryClone};
use std::alloc::Global;

impl TryClone for Attribute {
    fn try_clone(&self, alloc: Global) -> Mem<Attribute> {
        Ok(Attribute {
            meta: self.meta.try_clone(alloc)?,
            span: self.span,
        })
    }
}

impl TryClone for Meta {
    fn try_clone(&self, alloc: Global) -> Mem<Meta> {
        match self {
            Meta::Path(path) => Ok(Meta::Path(path.try_clone(alloc)?)),
            Meta::List(list) => Ok(Meta::List(list.try_clone(alloc)?)),
            Meta::NameValue(pair) => Ok(Meta::NameValue(pair.try_clone(alloc)?)),
        }
    }
}

impl TryClone for MetaList {
    fn try_clone(&self, alloc: Global) -> Mem<MetaList> {
        Ok(MetaList {
            path: self.path.try_clone(alloc)?,
            delimiter: self.delimiter,
            tokens: self.tokens.try_clone(alloc)?,
            span: self.span,
        })
    }
}

impl TryClone for MetaNameValue {
    fn try_clone(&self, alloc: Global) -> Mem<MetaNameValue> {
        Ok(MetaNameValue {
            path: self.path.try_clone(alloc)?,
            eq_span: self.eq_span,
            value: self.value.try_clone(alloc)?,
            span: self.span,
        })
    }
}
