//! Copies of what options say.

use crate::container::Core;
use crate::input_field::InputField;
use crate::input_variant::InputVariant;
use base_core::{Mem, TryClone};
use std::alloc::Global;

impl TryClone for Core {
    fn try_clone(&self, alloc: Global) -> Mem<Core> {
        Ok(Core {
            ident: self.ident.try_clone(alloc)?,
            generics: self.generics.try_clone(alloc)?,
            default: self.default.try_clone(alloc)?,
            rename_rule: self.rename_rule,
            krate: self.krate.try_clone(alloc)?,
            post_transform: self.post_transform.try_clone(alloc)?,
            body: self.body.try_clone(alloc)?,
            bound: self.bound.try_clone(alloc)?,
            allow_unknown_fields: self.allow_unknown_fields,
            transparent: self.transparent,
        })
    }
}

impl TryClone for InputField {
    fn try_clone(&self, alloc: Global) -> Mem<InputField> {
        Ok(InputField {
            ident: self.ident.try_clone(alloc)?,
            attr_name: self.attr_name.try_clone(alloc)?,
            name: self.name.try_clone(alloc)?,
            ty: self.ty.try_clone(alloc)?,
            default: self.default.try_clone(alloc)?,
            with: self.with.try_clone(alloc)?,
            skip: self.skip,
            post_transform: self.post_transform.try_clone(alloc)?,
            multiple: self.multiple,
            flatten: self.flatten,
        })
    }
}

impl TryClone for InputVariant {
    fn try_clone(&self, alloc: Global) -> Mem<InputVariant> {
        Ok(InputVariant {
            ident: self.ident.try_clone(alloc)?,
            attr_name: self.attr_name.try_clone(alloc)?,
            name: self.name.try_clone(alloc)?,
            body: self.body.try_clone(alloc)?,
            skip: self.skip,
            word: self.word,
            allow_unknown_fields: self.allow_unknown_fields,
            transparent: self.transparent,
        })
    }
}
