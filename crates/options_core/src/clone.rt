//! Copies of what options say.

use crate::from_variant::FromVariantOptions;
use crate::outer_from::OuterFrom;
use base_core::{Mem, TryClone};
use std::alloc::Global;

impl TryClone for OuterFrom {
    fn try_clone(&self, alloc: Global) -> Mem<OuterFrom> {
        Ok(OuterFrom {
            ident: self.ident.try_clone(alloc)?,
            attrs: self.attrs.try_clone(alloc)?,
            container: self.container.try_clone(alloc)?,
            attr_names: self.attr_names.try_clone(alloc)?,
            forward_attrs: self.forward_attrs.try_clone(alloc)?,
            from_ident: self.from_ident,
        })
    }
}

impl TryClone for FromVariantOptions {
    fn try_clone(&self, alloc: Global) -> Mem<FromVariantOptions> {
        Ok(FromVariantOptions {
            base: self.base.try_clone(alloc)?,
            discriminant: self.discriminant.try_clone(alloc)?,
            fields: self.fields.try_clone(alloc)?,
            supports: self.supports,
        })
    }
}
