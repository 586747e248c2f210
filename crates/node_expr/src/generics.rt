//! Bounds of types.

use crate::path::Path;
use base_core::Items;
use tok_types::{Lifetime, Span};

/// One bound of `Copy + 'a`
#[cycle(nodes)]
#[derive_where(PartialEq, Eq, Hash)]
pub enum TypeParamBound {
    /// `Copy`, `?Sized`
    Trait(TraitBound),
    /// `'a`
    Lifetime(Lifetime),
}

/// `Copy`, `?Sized`, `for<'a> Fn(&'a T) -> bool`
#[cycle(nodes)]
#[derive_where(PartialEq, Eq, Hash)]
pub struct TraitBound {
    /// Whether a `?` stands in front.
    pub maybe: bool,
    pub lifetimes: Items<Lifetime>,
    pub path: Path,
    #[derive_where(skip(EqHashOrd))]
    pub span: Span,
}

impl Drop for TypeParamBound {
    #[cycle(drops)]
    fn drop(self) {
        match self {
            TypeParamBound::Trait(_a) => {}
            TypeParamBound::Lifetime(_a) => {}
        }
    }
}

impl Drop for TraitBound {
    #[cycle(drops)]
    fn drop(self) {
        let Self {
            maybe: _,
            lifetimes: _lifetimes,
            path: _path,
            span: _,
        } = self;
    }
}
