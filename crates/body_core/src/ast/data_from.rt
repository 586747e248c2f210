//! Bodies that are read from a node's body.

ghost use Rattle.std.specs.Prelude.{map};
ghost use Rattle.error_core.specs.Answers.{Answers};
ghost use Rattle.body_core.specs.Data.{seen_data};
ghost use Rattle.error_core.specs.Each.{every};
ghost use Rattle.body_core.specs.Members.{data_meaning};

use crate::ast::data::{Data, union_error};
use crate::ast::fields::Fields;
use crate::ast::members::{ReadMember, read_members};
use crate::from_field::FromField;
use crate::from_variant::FromVariant;
use base_core::Items;
use error_core::{Fail, Result};
use node_core::Variant;
use std::alloc::Global;
use std::marker::PhantomData;

impl<V: FromVariant + Drop, F: FromField + Drop> Data<V, F> {
    /// The body that a node's body is: its variants, or its members.
    ///
    /// Fails with the faults of all variants or fields in order, and at a union.
    pub fn try_from(alloc: Global, body: &node_core::Data) -> Result<Data<V, F>>
        ensures { Answers (seen_data V.seen F.seen) result (data_meaning V.meaning F.meaning body.now) }
    {
        match body {
            node_core::Data::Struct(it) => {
                Ok(Data::Struct(Fields::try_from(alloc, &it.fields)?))
            }
            node_core::Data::Enum(it) => {
                Ok(Data::Enum(read_variants(alloc, it.variants.as_slice())?))
            }
            node_core::Data::Union(_) => Err(Fail::Faults(union_error(alloc)?)),
        }
    }
}

fn read_variants<V: FromVariant + Drop>(alloc: Global, variants: &[Variant]) -> Result<Items<V>>
    ensures { Answers (map V.seen) result (every V.meaning variants.now) }
{
    read_members::<OfEnum<V>>(alloc, variants)
}

/// A variant of an enum.
struct OfEnum<V>(PhantomData<V>);

impl<V: FromVariant + Drop> ReadMember for OfEnum<V> {
    type Node = Variant;

    type Value = V;

    ghost Seen = { V.Seen };

    ghost seen = { V.seen };

    ghost meaning = { V.meaning };

    fn read(alloc: Global, node: &Variant) -> Result<V> {
        V::from_variant(alloc, node)
    }
}
