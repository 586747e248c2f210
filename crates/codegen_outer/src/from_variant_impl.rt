//! What `FromVariant` compiles to.

use crate::outer_from_impl::OuterFromImpl;
use crate::outer_impl::OuterImpl;
use crate::parts::{push_body, push_field, push_ident};
use crate::shapes::variant_shapes;
use base_core::{Items, Mem};
use codegen_program::{DataShape, Derive, Forwarded, Magic, Stmt};
use options_types::ForwardedField;
use std::alloc::Global;
use tok_types::Ident;

/// A receiver that derives `FromVariant`, and its fields that take a part of the variant.
pub struct FromVariantImpl<'a> {
    pub outer: OuterImpl<'a>,
    pub discriminant: Option<&'a Ident>,
    pub fields: Option<&'a ForwardedField>,
    /// The variants that it takes.
    pub supports: Option<&'a DataShape>,
}

impl<'a> OuterFromImpl<'a> for FromVariantImpl<'a> {
    ghost use Rattle.codegen_outer.specs.Outer.{variant_outer};

    ghost outer = { variant_outer };

    fn derive(&self) -> Derive {
        Derive::FromVariant
    }

    fn as_outer(&self) -> &OuterImpl<'a> {
        &self.outer
    }

    fn parts(&self, alloc: Global) -> Mem<Items<Forwarded>> {
        let mut parts = Items::new(alloc);
        push_field(alloc, Magic::Ident, self.outer.ident, &mut parts)?;
        push_ident(alloc, Magic::Discriminant, self.discriminant, &mut parts)?;
        push_field(
            alloc,
            Magic::Attrs,
            self.outer.forward_attrs.field,
            &mut parts,
        )?;
        push_field(alloc, Magic::Fields, self.fields, &mut parts)?;
        Ok(parts)
    }

    fn push_reads(&self, alloc: Global, stmts: &mut Items<Stmt>) -> Mem<()> {
        let shapes = variant_shapes(self.supports);
        stmts.push(Stmt::CheckShape { shapes })?;
        push_body(alloc, self.fields, stmts)
    }
}

impl<'a> Drop for FromVariantImpl<'a> {
    fn drop(self) {
        let Self {
            outer: _outer,
            discriminant: _,
            fields: _,
            supports: _,
        } = self;
    }
}
