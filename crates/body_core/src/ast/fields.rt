//! The members of a struct or of a variant.

ghost use Rattle.std.specs.Prelude.{◌≡◌, ◌↔◌, [], IfOk, IsTrue, Some, length, map};
ghost use Rattle.std.specs.Slice.Iter.{iter_rest};
ghost use Rattle.node_core.specs.Style.{style_of};
ghost use Rattle.error_fault.specs.Fault.{span_or};
ghost use Rattle.body_core.specs.Calls.{AnswersEach};
ghost use Rattle.body_core.specs.Data as spec;

use crate::ast::members::{map_members, references};
use base_core::{Items, Mem, TryClone};
use node_core::Style;
use std::alloc::Global;
use std::{slice, vec};
use tok_types::Span;

/// The members of a struct or of a variant. Equality ignores where they stand.
#[derive(Drop)]
#[derive_where(PartialEq, Eq; T)]
pub struct Fields<T> {
    pub style: Style,
    pub fields: Items<T>,
    /// Where the members stand, where that is known.
    #[derive_where(skip(EqHashOrd))]
    span: Option<Span>,
}

impl<T> Fields<T> {
    /// Members that stand nowhere.
    pub fn new(style: Style, fields: Vec<T>) -> Fields<T>
        ensures { result ≡ spec.unplaced style fields.items }
    {
        Fields {
            style,
            fields: Items::from_vec(fields),
            span: None,
        }
    }

    /// The members at this place, where they have none.
    pub fn with_span(self, span: Span) -> Fields<T>
        ensures { result ≡ spec.placed self.style self.fields (span_or (spec.place self) span) }
    {
        Fields {
            style: self.style,
            fields: self.fields,
            span: Some(self.span.unwrap_or(span)),
        }
    }

    /// No members, in the style of a node's fields.
    pub fn empty_from(alloc: Global, vd: &node_core::Fields) -> Fields<T>
        ensures { result ≡ spec.unplaced (style_of vd.now) [] }
    {
        Fields::from_style(alloc, Style::of(vd))
    }

    /// No members.
    pub fn from_style(alloc: Global, style: Style) -> Fields<T>
        ensures { result ≡ spec.unplaced style [] }
    {
        Fields::new(style, Vec::new(alloc))
    }

    /// The style and the members.
    pub fn split(self) -> (Style, Vec<T>)
        ensures style { result.0 ≡ self.style }
        ensures members { result.1.items ≡ self.fields }
    {
        (self.style, self.fields.into_vec())
    }

    pub fn is_unit(&self) -> bool
        ensures { IsTrue result ↔ (self.now.style ≡ Style.Unit) }
    {
        self.style.is_unit()
    }

    pub fn is_tuple(&self) -> bool
        ensures { IsTrue result ↔ (self.now.style ≡ Style.Tuple) }
    {
        self.style.is_tuple()
    }

    pub fn is_struct(&self) -> bool
        ensures { IsTrue result ↔ (self.now.style ≡ Style.Struct) }
    {
        self.style.is_struct()
    }

    /// References to the members.
    pub fn as_ref(&self, alloc: Global) -> Mem<Fields<&T>>
        ensures { IfOk result (λ it. spec.seen_fields (λ member. member.now) it ≡ self.now) }
    {
        let fields = references(alloc, self.fields.as_slice())?;
        Ok(Fields {
            style: self.style,
            fields,
            span: self.span,
        })
    }

    /// The members in order.
    pub fn iter(&self) -> slice::Iter<'_, T>
        ensures { iter_rest result ≡ self.now.fields }
    {
        self.fields.as_slice().iter()
    }

    /// Where the members stand, where that is known.
    pub(crate) fn place(&self) -> Option<Span>
        ensures { result ≡ spec.place self.now }
    {
        self.span
    }

    /// The number of members.
    pub fn len(&self) -> usize
        ensures { result ≡ length self.now.fields }
    {
        self.fields.len()
    }

    /// Whether there is no member.
    pub fn is_empty(&self) -> bool
        ensures { IsTrue result ↔ (self.now.fields ≡ []) }
    {
        self.fields.is_empty()
    }
}

impl<T: Drop> Fields<T> {
    /// What the function answers at each member. Style and place stay.
    pub fn map<U: Drop, F: FnMut(T) -> U>(self, alloc: Global, map: F) -> Mem<Fields<U>>
        requires { F.IsAlwaysCallable map }
        ensures around { IfOk result (λ it. it ≡ spec.with_members self it.fields) }
        ensures members { IfOk result (λ it. (last : F) × AnswersEach F.step map self.fields it.fields last) }
    {
        let fields = map_members(alloc, self.fields, map)?;
        Ok(Fields {
            style: self.style,
            fields,
            span: self.span,
        })
    }
}

/// The members in order, by value.
impl<T: Drop> IntoIterator for Fields<T> {
    ghost use Rattle.std.specs.Prelude.{◌≡◌};
    ghost use Rattle.std.specs.Iterator.Runs.{EveryRun, ItemsAre};
    ghost use Rattle.std.specs.Vec.Iter.{into_iter_items, into_iter_steps};
    ghost use Rattle.std.specs.declared.alloc.Global.{Global};

    type Item = T;

    type IntoIter = vec::IntoIter<T>;

    ghost into_iter_gives = { λ it members. (into_iter_items members ≡ it.fields)
        × EveryRun (into_iter_steps {X = T} {Z = Global}) (λ run. ItemsAre run (into_iter_items run.from)) };

    fn into_iter(self) -> vec::IntoIter<T> {
        self.fields.into_vec().into_iter()
    }
}

impl<T: TryClone + Drop> TryClone for Fields<T> {
    fn try_clone(&self, alloc: Global) -> Mem<Fields<T>> {
        let fields = self.fields.try_clone(alloc)?;
        Ok(Fields {
            style: self.style,
            fields,
            span: self.span,
        })
    }
}
