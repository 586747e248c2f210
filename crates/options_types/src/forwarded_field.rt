//! A field that takes a part of an item as it stands.

use base_core::{Mem, TryClone};
use node_expr::Type;
use std::alloc::Global;
use tok_types::Ident;
use util_core::Callable;

/// A field that takes a part of an item as it stands, as `attrs` takes the attributes.
pub struct ForwardedField {
    pub ident: Ident,
    pub ty: Type,
    /// What converts the part, where it is not taken as it stands.
    pub with: Option<Callable>,
}

impl Drop for ForwardedField {
    fn drop(self) {
        let Self {
            ident: _ident,
            ty: _ty,
            with: _with,
        } = self;
    }
}

impl TryClone for ForwardedField {
    fn try_clone(&self, alloc: Global) -> Mem<ForwardedField> {
        let ident = self.ident.try_clone(alloc)?;
        let ty = self.ty.try_clone(alloc)?;
        let with = self.with.try_clone(alloc)?;
        Ok(ForwardedField { ident, ty, with })
    }
}
