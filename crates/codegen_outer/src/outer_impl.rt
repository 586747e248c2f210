//! What the derives of elements are compiled from, each of them.

use crate::attrs_field::ForwardAttrs;
use codegen_core::TraitImpl;
use options_types::{ForwardedField, PathList};

/// What a receiver is compiled from, whatever element it reads.
pub struct OuterImpl<'a> {
    pub base: TraitImpl<'a>,
    /// The attributes that are read.
    pub attr_names: &'a PathList,
    /// The attributes that are kept, and the field that takes them.
    pub forward_attrs: ForwardAttrs<'a>,
    /// The field that takes the identifier.
    pub ident: Option<&'a ForwardedField>,
    /// Whether the receiver's default is made from the element's identifier.
    pub from_ident: bool,
}

impl<'a> Drop for OuterImpl<'a> {
    fn drop(self) {
        let Self {
            base: _base,
            attr_names: _,
            forward_attrs: _forward_attrs,
            ident: _,
            from_ident: _,
        } = self;
    }
}
