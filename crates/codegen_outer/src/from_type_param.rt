//! What `FromTypeParam` compiles to.

use crate::outer_from_impl::OuterFromImpl;
use crate::outer_impl::OuterImpl;
use crate::parts::{push_field, push_ident};
use base_core::{Items, Mem};
use codegen_program::{Derive, Forwarded, Magic, Stmt};
use std::alloc::Global;
use tok_types::Ident;

/// A receiver that derives `FromTypeParam`, and its fields that take a part of the parameter.
pub struct FromTypeParamImpl<'a> {
    pub outer: OuterImpl<'a>,
    pub bounds: Option<&'a Ident>,
    pub default: Option<&'a Ident>,
}

impl<'a> OuterFromImpl<'a> for FromTypeParamImpl<'a> {
    ghost use Rattle.codegen_outer.specs.Outer.{type_param_outer};

    ghost outer = { type_param_outer };

    fn derive(&self) -> Derive {
        Derive::FromTypeParam
    }

    fn as_outer(&self) -> &OuterImpl<'a> {
        &self.outer
    }

    fn parts(&self, alloc: Global) -> Mem<Items<Forwarded>> {
        let mut parts = Items::new(alloc);
        push_field(alloc, Magic::Ident, self.outer.ident, &mut parts)?;
        push_field(
            alloc,
            Magic::Attrs,
            self.outer.forward_attrs.field,
            &mut parts,
        )?;
        push_ident(alloc, Magic::Bounds, self.bounds, &mut parts)?;
        push_ident(alloc, Magic::Default, self.default, &mut parts)?;
        Ok(parts)
    }

    fn push_reads(&self, _alloc: Global, _stmts: &mut Items<Stmt>) -> Mem<()> {
        Ok(())
    }
}

impl<'a> Drop for FromTypeParamImpl<'a> {
    fn drop(self) {
        let Self {
            outer: _outer,
            bounds: _,
            default: _,
        } = self;
    }
}
