//! What a receiver's members are built from.

use crate::callable::Callable;
use base_core::{Mem, Text, TryClone};
use std::alloc::Global;
use tok_types::Ident;

/// What the default of a whole receiver comes from.
pub enum DefaultSource {
    /// The default of its type.
    Trait,
    Explicit(Callable),
    /// The identifier that the receiver is read from.
    FromIdent,
}

impl Drop for DefaultSource {
    fn drop(self) {
        match self {
            DefaultSource::Trait | DefaultSource::FromIdent => {}
            DefaultSource::Explicit(_callable) => {}
        }
    }
}

impl TryClone for DefaultSource {
    fn try_clone(&self, alloc: Global) -> Mem<DefaultSource> {
        match self {
            DefaultSource::Trait => Ok(DefaultSource::Trait),
            DefaultSource::Explicit(callable) => {
                Ok(DefaultSource::Explicit(callable.try_clone(alloc)?))
            }
            DefaultSource::FromIdent => Ok(DefaultSource::FromIdent),
        }
    }
}

/// A member of what is built: the value of its slot, or of the fallback where the slot has none.
pub struct Init {
    pub member: Text,
    pub slot: u32,
    pub many: bool,
    pub fallback: Option<Fallback>,
}

impl Drop for Init {
    fn drop(self) {
        let Self {
            member: _member,
            slot: _,
            many: _,
            fallback: _fallback,
        } = self;
    }
}

impl TryClone for Init {
    fn try_clone(&self, alloc: Global) -> Mem<Init> {
        let member = self.member.try_clone(alloc)?;
        let fallback = self.fallback.try_clone(alloc)?;
        Ok(Init {
            member,
            slot: self.slot,
            many: self.many,
            fallback,
        })
    }
}

/// The value of a member whose slot has none.
pub enum Fallback {
    /// This member of the receiver's default.
    Inherit(Ident),
    Explicit(Callable),
    /// The default of its type.
    Trait,
}

impl Drop for Fallback {
    fn drop(self) {
        match self {
            Fallback::Inherit(_ident) => {}
            Fallback::Explicit(_callable) => {}
            Fallback::Trait => {}
        }
    }
}

impl TryClone for Fallback {
    fn try_clone(&self, alloc: Global) -> Mem<Fallback> {
        match self {
            Fallback::Inherit(ident) => Ok(Fallback::Inherit(ident.try_clone(alloc)?)),
            Fallback::Explicit(callable) => Ok(Fallback::Explicit(callable.try_clone(alloc)?)),
            Fallback::Trait => Ok(Fallback::Trait),
        }
    }
}
