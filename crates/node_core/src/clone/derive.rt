//! Clones of whole items.

use crate::derive::DeriveInput;
use base_core::{Mem, TryClone};
use std::alloc::Global;

impl TryClone for DeriveInput {
    fn try_clone(&self, alloc: Global) -> Mem<DeriveInput> {
        Ok(DeriveInput {
            attrs: self.attrs.try_clone(alloc)?,
            vis: self.vis.try_clone(alloc)?,
            ident: self.ident.try_clone(alloc)?,
            generics: self.generics.try_clone(alloc)?,
            body: self.body.try_clone(alloc)?,
            span: self.span,
        })
    }
}
