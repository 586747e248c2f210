//! What `FromDeriveInput` compiles to.

use crate::outer_from_impl::OuterFromImpl;
use crate::outer_impl::OuterImpl;
use crate::parts::{push_body, push_field, push_generics, push_ident};
use crate::shapes::input_shapes;
use base_core::{Items, Mem};
use codegen_program::{Derive, Forwarded, Magic, Stmt};
use options_types::{DeriveInputShapeSet, ForwardedField};
use std::alloc::Global;
use tok_types::Ident;

/// A receiver that derives `FromDeriveInput`, and its fields that take a part of the item.
pub struct FromDeriveInputImpl<'a> {
    pub outer: OuterImpl<'a>,
    pub vis: Option<&'a Ident>,
    pub generics: Option<&'a ForwardedField>,
    /// The field `data`.
    pub body: Option<&'a ForwardedField>,
    /// The items that it takes.
    pub supports: Option<&'a DeriveInputShapeSet>,
}

impl<'a> OuterFromImpl<'a> for FromDeriveInputImpl<'a> {
    ghost use Rattle.codegen_outer.specs.Outer.{input_outer};

    ghost outer = { input_outer };

    fn derive(&self) -> Derive {
        Derive::FromDeriveInput
    }

    fn as_outer(&self) -> &OuterImpl<'a> {
        &self.outer
    }

    fn parts(&self, alloc: Global) -> Mem<Items<Forwarded>> {
        let mut parts = Items::new(alloc);
        push_field(alloc, Magic::Ident, self.outer.ident, &mut parts)?;
        push_ident(alloc, Magic::Vis, self.vis, &mut parts)?;
        push_field(
            alloc,
            Magic::Attrs,
            self.outer.forward_attrs.field,
            &mut parts,
        )?;
        push_field(alloc, Magic::Generics, self.generics, &mut parts)?;
        push_field(alloc, Magic::Body, self.body, &mut parts)?;
        Ok(parts)
    }

    fn push_reads(&self, alloc: Global, stmts: &mut Items<Stmt>) -> Mem<()> {
        let shapes = input_shapes(self.supports);
        stmts.push(Stmt::CheckShape { shapes })?;
        push_body(alloc, self.body, stmts)?;
        push_generics(alloc, self.generics, stmts)
    }
}

impl<'a> Drop for FromDeriveInputImpl<'a> {
    fn drop(self) {
        let Self {
            outer: _outer,
            vis: _,
            generics: _,
            body: _,
            supports: _,
        } = self;
    }
}
