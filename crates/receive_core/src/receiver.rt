//! The trait of receivers.

ghost use Rattle.std.specs.Prelude.{◌≡◌, IfOk};
ghost use Rattle.error_core.specs.Answers.{Answers};
ghost use Rattle.meta_entries.specs.Entries.{named_entries};
ghost use Rattle.receive_core.specs.Meaning.{entry_meaning, meaning, names_of};
ghost use Rattle.receive_core.specs.Reading.{ReadsSchema};
ghost use Rattle.receive_core.specs.Schema.{Schema};

use crate::fields::FieldReader;
use crate::items::items_among;
use base_core::{Items, Mem, Text};
use error_core::Result;
use meta_core::FromMeta;
use meta_entries::{Named, entries};
use meta_nested::{Call, NestedMeta};
use node_core::Attribute;
use std::alloc::Global;

/// A type of several fields that is read from the items of an attribute, as in `#[my(name = "x", tag = "a", tag = "b")]`, or of
/// several attributes.
///
/// A type writes [`read`](Receiver::read) alone, and in its schema the same fields.
pub trait Receiver: Sized + Drop {
    /// What contracts see of a value.
    ghost Seen: { Type 0 };

    ghost seen: { Self → Seen };

    /// The fields, and what is built of them.
    ghost schema: { Schema Seen };

    /// Reads all fields of the schema in its order, and then builds the value; `None` where a field that it needs has none.
    fn read(fields: &mut FieldReader<'_>) -> Mem<Option<Self>>
        ensures { ReadsSchema seen schema fields.old result fields.new };

    /// The value that the items are, or all that is wrong with them.
    final fn from_items(alloc: Global, items: &[NestedMeta]) -> Result<Self>
        ensures { Answers seen result (meaning schema items.now) }
    {
        let mut fields = FieldReader::new(alloc, items);
        let found = Self::read(&mut fields)?;
        fields.finish(found)
    }

    /// The value that the attributes of these names are together, as `#[my(a = 1)] #[my(b)]`, or all that is wrong with them: an
    /// attribute `name = value`, and one whose tokens are no items, has its faults in its place among those of the items.
    final fn from_attributes(alloc: Global, names: &[Text], attrs: &[Attribute]) -> Result<Self>
        ensures { Answers seen result (entry_meaning schema (named_entries names.now attrs.now)) }
    {
        let entries = entries(alloc, attrs, &Named(names))?;
        let items = items_among(alloc, entries.as_slice())?;
        let mut fields = FieldReader::new(alloc, items.as_slice());
        let found = Self::read(&mut fields)?;
        fields.finish_among(entries.as_slice(), found)
    }

    /// The names of the fields in order, without those of a flattened one.
    final fn names(alloc: Global) -> Mem<Items<Text>>
        ensures { IfOk result (λ names. names ≡ names_of schema.fields) }
    {
        let mut fields = FieldReader::new(alloc, &[]);
        let _found = Self::read(&mut fields)?;
        Ok(fields.into_names())
    }
}

/// A receiver as a field of another: from `name(..)`, or flattened.
#[derive(Drop)]
pub struct Nested<T>(pub T);

impl<T: Receiver> FromMeta for Nested<T> {
    ghost use Rattle.std.specs.Prelude.{Some};
    ghost use Rattle.meta_nested.specs.Cells.{no_cells};

    ghost Seen = { T.Seen };

    ghost seen = { λ it. T.seen it.0 };

    ghost cells = { record no_cells { list = λ items. Some (meaning T.schema items) } };

    fn cell(alloc: Global, call: Call<'_>) -> Result<Option<Nested<T>>> {
        match call {
            Call::List(items) => Ok(Some(Nested(T::from_items(alloc, items)?))),
            _ => Ok(None),
        }
    }
}
