//! What fields, variants and bodies mention.

ghost use Rattle.body_usage.specs.Items.{data_mentions, enum_mentions, field_mentions, fields_mentions, named_mentions, struct_mentions, union_mentions, variant_mentions};

use crate::list::push_all;
use crate::mentions::Mentions;
use crate::searched::Searched;
use base_core::Mem;
use node_core::{Data, DataEnum, DataStruct, DataUnion, Field, Fields, FieldsNamed, Variant};

impl Searched for Field {
    ghost mentions = { field_mentions };

    fn push_mentions<'n>(&'n self, in_qself: bool, found: &mut Mentions<'n>) -> Mem<()> {
        self.ty.push_mentions(in_qself, found)
    }
}

impl Searched for FieldsNamed {
    ghost mentions = { named_mentions };

    fn push_mentions<'n>(&'n self, in_qself: bool, found: &mut Mentions<'n>) -> Mem<()> {
        push_all(self.named.as_slice(), in_qself, found)
    }
}

impl Searched for Fields {
    ghost mentions = { fields_mentions };

    fn push_mentions<'n>(&'n self, in_qself: bool, found: &mut Mentions<'n>) -> Mem<()> {
        match self {
            Fields::Named(it) => it.push_mentions(in_qself, found),
            Fields::Unnamed(it) => push_all(it.unnamed.as_slice(), in_qself, found),
            Fields::Unit => Ok(()),
        }
    }
}

impl Searched for Variant {
    ghost mentions = { variant_mentions };

    fn push_mentions<'n>(&'n self, in_qself: bool, found: &mut Mentions<'n>) -> Mem<()> {
        self.fields.push_mentions(in_qself, found)
    }
}

impl Searched for DataStruct {
    ghost mentions = { struct_mentions };

    fn push_mentions<'n>(&'n self, in_qself: bool, found: &mut Mentions<'n>) -> Mem<()> {
        self.fields.push_mentions(in_qself, found)
    }
}

impl Searched for DataEnum {
    ghost mentions = { enum_mentions };

    fn push_mentions<'n>(&'n self, in_qself: bool, found: &mut Mentions<'n>) -> Mem<()> {
        push_all(self.variants.as_slice(), in_qself, found)
    }
}

impl Searched for DataUnion {
    ghost mentions = { union_mentions };

    fn push_mentions<'n>(&'n self, in_qself: bool, found: &mut Mentions<'n>) -> Mem<()> {
        self.fields.push_mentions(in_qself, found)
    }
}

impl Searched for Data {
    ghost mentions = { data_mentions };

    fn push_mentions<'n>(&'n self, in_qself: bool, found: &mut Mentions<'n>) -> Mem<()> {
        match self {
            Data::Struct(it) => it.push_mentions(in_qself, found),
            Data::Enum(it) => it.push_mentions(in_qself, found),
            Data::Union(it) => it.push_mentions(in_qself, found),
        }
    }
}
