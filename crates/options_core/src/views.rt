//! What is compiled from options of receivers of elements: it borrows its parts from them.

ghost use Rattle.std.specs.Prelude.{IfOk};
ghost use Rattle.options_core.specs.Views as spec;

use crate::from_attributes::FromAttributesOptions;
use crate::from_derive::FdiOptions;
use crate::from_field::FromFieldOptions;
use crate::from_type_param::FromTypeParamOptions;
use crate::from_variant::FromVariantOptions;
use crate::outer_from::OuterFrom;
use base_core::Mem;
use codegen_outer::{
    ForwardAttrs, FromAttributesImpl, FromDeriveInputImpl, FromFieldImpl, FromTypeParamImpl,
    FromVariantImpl, OuterImpl,
};
use std::alloc::Global;

impl OuterFrom {
    /// Which attributes are handed on, and the field that takes them.
    pub fn as_forward_attrs(&self) -> ForwardAttrs<'_>
        ensures { spec.IsForwardAttrs result self.now }
    {
        ForwardAttrs {
            filter: self.forward_attrs.as_ref(),
            field: self.attrs.as_ref(),
        }
    }

    /// What is compiled from it, whatever element is read.
    pub fn as_outer_impl(&self, alloc: Global) -> Mem<OuterImpl<'_>>
        ensures { IfOk result (λ it. spec.IsOuterImpl it self.now) }
    {
        let base = self.container.as_trait_impl(alloc)?;
        Ok(OuterImpl {
            base,
            attr_names: &self.attr_names,
            forward_attrs: self.as_forward_attrs(),
            ident: self.ident.as_ref(),
            from_ident: self.from_ident,
        })
    }
}

impl FromAttributesOptions {
    /// What is compiled from it: attributes have no identifier.
    pub fn as_impl(&self, alloc: Global) -> Mem<FromAttributesImpl<'_>>
        ensures { IfOk result (λ it. spec.IsAttributesImpl it self.now) }
    {
        let mut outer = self.base.as_outer_impl(alloc)?;
        outer.ident = None;
        outer.from_ident = false;
        Ok(FromAttributesImpl { outer })
    }
}

impl FdiOptions {
    /// What is compiled from it.
    pub fn as_impl(&self, alloc: Global) -> Mem<FromDeriveInputImpl<'_>>
        ensures { IfOk result (λ it. spec.IsInputImpl it self.now) }
    {
        let outer = self.base.as_outer_impl(alloc)?;
        Ok(FromDeriveInputImpl {
            outer,
            vis: self.vis.as_ref(),
            generics: self.generics.as_ref(),
            body: self.body.as_ref(),
            supports: self.supports.as_ref(),
        })
    }
}

impl FromFieldOptions {
    /// What is compiled from it.
    pub fn as_impl(&self, alloc: Global) -> Mem<FromFieldImpl<'_>>
        ensures { IfOk result (λ it. spec.IsFieldImpl it self.now) }
    {
        let outer = self.base.as_outer_impl(alloc)?;
        Ok(FromFieldImpl {
            outer,
            vis: self.vis.as_ref(),
            ty: self.ty.as_ref(),
        })
    }
}

impl FromTypeParamOptions {
    /// What is compiled from it.
    pub fn as_impl(&self, alloc: Global) -> Mem<FromTypeParamImpl<'_>>
        ensures { IfOk result (λ it. spec.IsTypeParamImpl it self.now) }
    {
        let outer = self.base.as_outer_impl(alloc)?;
        Ok(FromTypeParamImpl {
            outer,
            bounds: self.bounds.as_ref(),
            default: self.default.as_ref(),
        })
    }
}

impl FromVariantOptions {
    /// What is compiled from it.
    pub fn as_impl(&self, alloc: Global) -> Mem<FromVariantImpl<'_>>
        ensures { IfOk result (λ it. spec.IsVariantImpl it self.now) }
    {
        let outer = self.base.as_outer_impl(alloc)?;
        Ok(FromVariantImpl {
            outer,
            discriminant: self.discriminant.as_ref(),
            fields: self.fields.as_ref(),
            supports: self.supports.as_ref(),
        })
    }
}
