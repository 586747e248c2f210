//! What the path of a type names.

ghost use Rattle.std.specs.Prelude.{◌≡◌, ◌∷◌, []};
ghost use Rattle.machine_rows.specs.Paths as spec;
ghost use Rattle.machine_rows.specs.Table.{home_path};

use crate::name::{Home, Name};
use crate::names::Names;
use crate::table::named;
use node_expr::{PathArguments, PathSegment, Type};
use tok_types::Ident;

/// What a path names: a declaration by its number, a name of the table, or neither.
#[derive(Clone, Copy)]
pub enum Meant {
    Declared(usize),
    Table(Name),
    Nothing,
}

/// The segments of a path that has no type in front. A leading `::` is not looked at.
pub fn segments_in(ty: &Type) -> &[PathSegment]
    ensures { result.now ≡ spec.segments_in ty.now }
{
    match ty {
        Type::Path(path) if path.qself.is_none() => path.path.segments.as_slice(),
        _ => &[],
    }
}

/// Whether the type is this name alone. A leading `::` is not looked at.
pub fn is_named(ty: &Type, name: &str) -> bool
    ensures { result ≡ spec.are_bare (name.now ∷ []) (spec.segments_in ty.now) }
{
    are_one(segments_in(ty), name)
}

/// What the segments name: the last is the name.
pub fn meant_by<N: Names>(decls: &N, segments: &[PathSegment]) -> Meant
    ensures { result ≡ spec.meant_by (N.idents decls.now) segments.now }
{
    match segments.last() {
        Some(last) => meant_after(decls, &segments[..segments.len() - 1], &last.ident),
        None => Meant::Nothing,
    }
}

/// A bare name is a declaration's before it is the table's.
fn meant_after<N: Names>(decls: &N, before: &[PathSegment], name: &Ident) -> Meant
    ensures { result ≡ spec.meant_after (N.idents decls.now) before.now name.now }
{
    if !before.is_empty() {
        return in_table(before, name);
    }
    match decls.place_of(name) {
        Some(place) => Meant::Declared(place),
        None => in_table(before, name),
    }
}

fn in_table(before: &[PathSegment], name: &Ident) -> Meant
    ensures { result ≡ spec.in_table before.now name.now }
{
    if name.raw {
        return Meant::Nothing;
    }
    match named(name.text.as_str()) {
        Some((home, found)) if stands_after(home, before) => Meant::Table(found),
        _ => Meant::Nothing,
    }
}

/// Whether a name of this home may stand behind these segments.
pub fn stands_after(home: Home, before: &[PathSegment]) -> bool
    ensures { result ≡ spec.stands_after home before.now }
{
    before.is_empty() || are_home(home, before)
}

fn are_home(home: Home, segments: &[PathSegment]) -> bool
    ensures { result ≡ spec.are_bare (home_path home) segments.now }
{
    match home {
        Home::Nowhere => segments.is_empty(),
        Home::StdString => are_two(segments, "std", "string"),
        Home::StdPath => are_two(segments, "std", "path"),
        Home::StdOption => are_two(segments, "std", "option"),
        Home::StdBoxed => are_two(segments, "std", "boxed"),
        Home::StdVec => are_two(segments, "std", "vec"),
        Home::StdCollections => are_two(segments, "std", "collections"),
        Home::StdNum => are_two(segments, "std", "num"),
        Home::Syn => are_one(segments, "syn"),
        Home::DarlingUtil => are_two(segments, "darling", "util"),
        Home::Darling => are_one(segments, "darling"),
        Home::DarlingAst => are_two(segments, "darling", "ast"),
    }
}

fn are_one(segments: &[PathSegment], only: &str) -> bool
    ensures { result ≡ spec.are_bare (only.now ∷ []) segments.now }
{
    match segments {
        [a] => is_bare(a, only),
        _ => false,
    }
}

fn are_two(segments: &[PathSegment], first: &str, second: &str) -> bool
    ensures { result ≡ spec.are_bare (first.now ∷ second.now ∷ []) segments.now }
{
    match segments {
        [a, b] => is_bare(a, first) && is_bare(b, second),
        _ => false,
    }
}

/// Whether the segment is this name alone.
fn is_bare(segment: &PathSegment, name: &str) -> bool
    ensures { result ≡ spec.is_bare name.now segment.now }
{
    !segment.ident.raw
        && segment.ident.text.is(name)
        && matches!(segment.arguments, PathArguments::None)
}
