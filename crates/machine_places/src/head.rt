//! What the outermost name of a type reads of an element, and what the type is around.

ghost use Rattle.std.specs.Prelude.{◌≡◌};
ghost use Rattle.machine_rows.specs.Arguments.{seen};
ghost use Rattle.machine_rows.specs.Heads.{seen_head};
ghost use Rattle.machine_places.specs.Heads as spec;

use crate::name::OuterName;
use crate::part::Part;
use crate::table::named;
use machine_rows::{
    Arguments, Head, Leaf, Meant, Name, Names, Parsed, Wrapper, head_of, last_arguments, meant_by,
    segments_in,
};
use node_expr::{PathSegment, Type};

/// What a type is at its outermost name. What reads no element is another type.
#[derive(Clone, Copy)]
pub enum OuterHead<T> {
    Unit,
    Ignored,
    Part(Part),
    Declared(usize),
    SpannedValue(T),
    /// The type, and what it was read from.
    WithOriginal(T, Part),
    Result(T),
    /// The types of variants and of fields.
    Data(T, T),
    Fields(T),
    Generics(T),
    GenericParam(T),
    Other,
}

/// What the type is at its outermost name. It takes no memory.
pub fn outer_head_of<'a, N: Names>(decls: &N, ty: &'a Type) -> OuterHead<&'a Type>
    ensures { spec.seen_outer result ≡ spec.outer_head_of (N.idents decls.now) ty.now }
{
    match head_of(decls, ty) {
        Head::Unit => OuterHead::Unit,
        Head::Leaf(leaf) => leaf_head(leaf),
        Head::Around(wrapper, inner) => around_head(decls, wrapper, inner),
        Head::Declared(place) => OuterHead::Declared(place),
        Head::Host => named_head(decls, segments_in(ty)),
    }
}

/// A type of the table of conversions that holds no type.
fn leaf_head<'a>(leaf: Leaf) -> OuterHead<&'a Type>
    ensures { spec.seen_outer result ≡ spec.leaf_head leaf }
{
    match leaf {
        Leaf::Ignored => OuterHead::Ignored,
        _ => part_head(leaf_part(leaf)),
    }
}

/// The part that a type of the table of conversions takes.
fn leaf_part(leaf: Leaf) -> Option<Part>
    ensures { result ≡ spec.leaf_part leaf }
{
    match leaf {
        Leaf::Ident => Some(Part::Ident),
        Leaf::Parsed(Parsed::Type) => Some(Part::Type),
        Leaf::Parsed(Parsed::TypeParam) => Some(Part::TypeParam),
        Leaf::Parsed(Parsed::Visibility) => Some(Part::Visibility),
        _ => None,
    }
}

fn part_head<'a>(part: Option<Part>) -> OuterHead<&'a Type>
    ensures { spec.seen_outer result ≡ spec.part_head part }
{
    match part {
        Some(part) => OuterHead::Part(part),
        None => OuterHead::Other,
    }
}

/// A type of the table of conversions that is around another.
fn around_head<'a, N: Names>(decls: &N, wrapper: Wrapper, inner: &'a Type) -> OuterHead<&'a Type>
    ensures { spec.seen_outer result ≡ spec.around_head (N.idents decls.now) wrapper inner.now }
{
    match wrapper {
        Wrapper::Result => OuterHead::Result(inner),
        Wrapper::SpannedValue => OuterHead::SpannedValue(inner),
        Wrapper::Option => part_head(optional_part(head_of(decls, inner))),
        Wrapper::Vec => part_head(listed_part(outer_name(decls, segments_in(inner)))),
        _ => OuterHead::Other,
    }
}

/// The part that an `Option` takes.
fn optional_part(inner: Head<&Type>) -> Option<Part>
    ensures { result ≡ spec.optional_part (seen_head inner.entry) }
{
    match inner {
        Head::Leaf(Leaf::Ident) => Some(Part::OptionalIdent),
        Head::Leaf(Leaf::Expr) => Some(Part::OptionalExpr),
        Head::Leaf(Leaf::Parsed(Parsed::Type)) => Some(Part::OptionalType),
        _ => None,
    }
}

/// The part that a `Vec` takes.
fn listed_part(item: Option<OuterName>) -> Option<Part>
    ensures { result ≡ spec.listed_part item }
{
    match item {
        Some(OuterName::Attribute) => Some(Part::Attributes),
        Some(OuterName::TypeParamBound) => Some(Part::Bounds),
        _ => None,
    }
}

/// What the segments name that are neither a declaration's name nor of the table of conversions.
fn outer_name<N: Names>(decls: &N, segments: &[PathSegment]) -> Option<OuterName>
    ensures { result ≡ spec.outer_name (N.idents decls.now) segments.now }
{
    match meant_by(decls, segments) {
        Meant::Nothing => name_at(segments),
        _ => None,
    }
}

/// What the table has at the last of the segments. A raw identifier is no name of it.
fn name_at(segments: &[PathSegment]) -> Option<OuterName>
    ensures { result ≡ spec.name_at segments.now }
{
    match segments.last() {
        Some(last) if !last.ident.raw => {
            let before = &segments[..segments.len() - 1];
            name_behind(before, last.ident.text.as_str(), last_arguments(segments))
        }
        _ => None,
    }
}

fn name_behind(before: &[PathSegment], name: &str, arguments: Arguments<&Type>) -> Option<OuterName>
    ensures { result ≡ spec.name_behind before.now name.now (seen arguments.entry) }
{
    match arguments {
        Arguments::Bare => named(before, name, 0),
        Arguments::One(_) => named(before, name, 1),
        Arguments::Two(_, _) => named(before, name, 2),
        Arguments::Other => None,
    }
}

/// A name with its arguments, that is no declaration's alone and no row of conversions.
fn named_head<'a, N: Names>(decls: &N, segments: &'a [PathSegment]) -> OuterHead<&'a Type>
    ensures { spec.seen_outer result ≡ spec.named_head (N.idents decls.now) segments.now }
{
    match (meant_by(decls, segments), last_arguments(segments)) {
        (Meant::Table(Name::WithOriginal), Arguments::Two(inner, original)) => {
            original_head(inner, bare_part(decls, original))
        }
        (Meant::Nothing, arguments) => head_by(name_at(segments), arguments),
        _ => OuterHead::Other,
    }
}

fn head_by<'a>(name: Option<OuterName>, arguments: Arguments<&'a Type>) -> OuterHead<&'a Type>
    ensures { spec.seen_outer result ≡ spec.head_by name (seen arguments.entry) }
{
    match (name, arguments) {
        (Some(OuterName::Part(part)), Arguments::Bare) => OuterHead::Part(part),
        (Some(OuterName::Data), Arguments::Two(variant, field)) => OuterHead::Data(variant, field),
        (Some(OuterName::Fields), Arguments::One(field)) => OuterHead::Fields(field),
        (Some(OuterName::Generics), Arguments::One(param)) => OuterHead::Generics(param),
        (Some(OuterName::GenericParam), Arguments::One(ty)) => OuterHead::GenericParam(ty),
        _ => OuterHead::Other,
    }
}

fn original_head(inner: &Type, original: Option<Part>) -> OuterHead<&Type>
    ensures { spec.seen_outer result ≡ spec.original_head inner.now original }
{
    match original {
        Some(part) => OuterHead::WithOriginal(inner, part),
        None => OuterHead::Other,
    }
}

/// The part that a type takes as it stands which is around no other.
fn bare_part<N: Names>(decls: &N, ty: &Type) -> Option<Part>
    ensures { result ≡ spec.bare_part (N.idents decls.now) ty.now }
{
    match head_of(decls, ty) {
        Head::Leaf(leaf) => leaf_part(leaf),
        Head::Host => named_part(outer_name(decls, segments_in(ty))),
        _ => None,
    }
}

fn named_part(name: Option<OuterName>) -> Option<Part>
    ensures { result ≡ spec.named_part name }
{
    match name {
        Some(OuterName::Part(part)) => Some(part),
        _ => None,
    }
}
