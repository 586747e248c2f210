//! What `FromField` compiles to.

use crate::outer_from_impl::OuterFromImpl;
use crate::outer_impl::OuterImpl;
use crate::parts::{push_field, push_ident};
use base_core::{Items, Mem};
use codegen_program::{Derive, Forwarded, Magic, Stmt};
use std::alloc::Global;
use tok_types::Ident;

/// A receiver that derives `FromField`, and its fields that take a part of the field.
pub struct FromFieldImpl<'a> {
    pub outer: OuterImpl<'a>,
    pub vis: Option<&'a Ident>,
    pub ty: Option<&'a Ident>,
}

impl<'a> OuterFromImpl<'a> for FromFieldImpl<'a> {
    ghost use Rattle.codegen_outer.specs.Outer.{field_outer};

    ghost outer = { field_outer };

    fn derive(&self) -> Derive {
        Derive::FromField
    }

    fn as_outer(&self) -> &OuterImpl<'a> {
        &self.outer
    }

    fn parts(&self, alloc: Global) -> Mem<Items<Forwarded>> {
        let mut parts = Items::new(alloc);
        push_field(alloc, Magic::Ident, self.outer.ident, &mut parts)?;
        push_ident(alloc, Magic::Vis, self.vis, &mut parts)?;
        push_ident(alloc, Magic::Ty, self.ty, &mut parts)?;
        push_field(
            alloc,
            Magic::Attrs,
            self.outer.forward_attrs.field,
            &mut parts,
        )?;
        Ok(parts)
    }

    fn push_reads(&self, _alloc: Global, _stmts: &mut Items<Stmt>) -> Mem<()> {
        Ok(())
    }
}

impl<'a> Drop for FromFieldImpl<'a> {
    fn drop(self) {
        let Self {
            outer: _outer,
            vis: _,
            ty: _,
        } = self;
    }
}
