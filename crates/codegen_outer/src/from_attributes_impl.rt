//! What `FromAttributes` compiles to.

use crate::outer_from_impl::OuterFromImpl;
use crate::outer_impl::OuterImpl;
use crate::parts::push_field;
use base_core::{Items, Mem};
use codegen_program::{Derive, Forwarded, Magic, Stmt};
use std::alloc::Global;

/// A receiver that derives `FromAttributes`.
pub struct FromAttributesImpl<'a> {
    pub outer: OuterImpl<'a>,
}

impl<'a> OuterFromImpl<'a> for FromAttributesImpl<'a> {
    ghost use Rattle.codegen_outer.specs.Outer.{attributes_outer};

    ghost outer = { attributes_outer };

    fn derive(&self) -> Derive {
        Derive::FromAttributes
    }

    fn as_outer(&self) -> &OuterImpl<'a> {
        &self.outer
    }

    fn parts(&self, alloc: Global) -> Mem<Items<Forwarded>> {
        let mut parts = Items::new(alloc);
        push_field(
            alloc,
            Magic::Attrs,
            self.outer.forward_attrs.field,
            &mut parts,
        )?;
        Ok(parts)
    }

    fn push_reads(&self, _alloc: Global, _stmts: &mut Items<Stmt>) -> Mem<()> {
        Ok(())
    }
}

impl<'a> Drop for FromAttributesImpl<'a> {
    fn drop(self) {
        let Self { outer: _outer } = self;
    }
}
