//! Parts of the element that a receiver takes as they stand.

ghost use Rattle.std.specs.Prelude.{◌≡◌};
ghost use Rattle.codegen_program.specs.MagicFields.{magic_named, magic_of};

use crate::callable::Callable;
use crate::program::Derive;
use base_core::{Mem, TryClone};
use node_core::Field;
use node_expr::Type;
use std::alloc::Global;
use tok_types::Ident;

/// A part of the element, by the name of the field that takes it.
#[derive(Clone, Copy, PartialEq, Eq)]
pub enum Magic {
    Ident,
    Attrs,
    Vis,
    Generics,
    /// The body of an item, in the field `data`.
    Body,
    Ty,
    Discriminant,
    Fields,
    Bounds,
    Default,
}

impl Magic {
    /// The part that the field takes by its name under the derive, where it takes one. A raw name is that of none.
    pub fn of(derive: Derive, field: &Field) -> Option<Magic>
        ensures { result ≡ magic_of derive field.now }
    {
        match &field.ident {
            Some(ident) if !ident.raw => Magic::named(derive, ident.text.as_str()),
            _ => None,
        }
    }

    /// The same of a field's name.
    fn named(derive: Derive, name: &str) -> Option<Magic>
        ensures { result ≡ magic_named derive name.now }
    {
        match (derive, name) {
            (Derive::FromMeta, _) => None,
            (_, "ident") => Some(Magic::Ident),
            (_, "attrs") => Some(Magic::Attrs),
            (Derive::FromDeriveInput, "vis") => Some(Magic::Vis),
            (Derive::FromDeriveInput, "generics") => Some(Magic::Generics),
            (Derive::FromDeriveInput, "data") => Some(Magic::Body),
            (Derive::FromField, "vis") => Some(Magic::Vis),
            (Derive::FromField, "ty") => Some(Magic::Ty),
            (Derive::FromTypeParam, "bounds") => Some(Magic::Bounds),
            (Derive::FromTypeParam, "default") => Some(Magic::Default),
            (Derive::FromVariant, "discriminant") => Some(Magic::Discriminant),
            (Derive::FromVariant, "fields") => Some(Magic::Fields),
            _ => None,
        }
    }
}

impl TryClone for Magic {
    fn try_clone(&self, _alloc: Global) -> Mem<Magic> {
        Ok(*self)
    }
}

/// A member of what is built that takes a part of the element.
pub struct Forwarded {
    pub member: Ident,
    pub what: Magic,
    /// What converts the part, where the option `with` names a function.
    pub with: Option<Callable>,
    /// The field's type, but for `Vis`, `Ty`, `Bounds`, `Discriminant` and `Default`.
    pub ty: Option<Type>,
}

impl Drop for Forwarded {
    fn drop(self) {
        let Self {
            member: _member,
            what: _,
            with: _with,
            ty: _ty,
        } = self;
    }
}

impl TryClone for Forwarded {
    fn try_clone(&self, alloc: Global) -> Mem<Forwarded> {
        let member = self.member.try_clone(alloc)?;
        let with = self.with.try_clone(alloc)?;
        let ty = self.ty.try_clone(alloc)?;
        Ok(Forwarded {
            member,
            what: self.what,
            with,
            ty,
        })
    }
}
