//! What the outermost name of a type is: a type of the table, and what it is around.

ghost use Rattle.std.specs.Prelude.{◌≡◌};
ghost use Rattle.machine_rows.specs.Arguments.{seen};
ghost use Rattle.machine_rows.specs.Heads as spec;

use crate::arguments::{Arguments, last_arguments};
use crate::items::{hash_key, punctuated_item, set_item, tree_key, vec_item};
use crate::leaf::Leaf;
use crate::name::Name;
use crate::names::Names;
use crate::path::{Meant, meant_by, segments_in};
use crate::wrapper::Wrapper;
use node_expr::Type;

/// What a type is at its outermost name. What is neither of the table nor a declaration is the host's.
#[derive(Clone, Copy)]
pub enum Head<T> {
    Unit,
    Leaf(Leaf),
    Around(Wrapper, T),
    Declared(usize),
    Host,
}

/// What the type is at its outermost name. It takes no memory.
pub fn head_of<'a, N: Names>(decls: &N, ty: &'a Type) -> Head<&'a Type>
    ensures { spec.seen_head result ≡ spec.head_of (N.idents decls.now) ty.now }
{
    if is_unit(ty) {
        return Head::Unit;
    }
    let segments = segments_in(ty);
    named_head(decls, meant_by(decls, segments), last_arguments(segments))
}

fn is_unit(ty: &Type) -> bool
    ensures { result ≡ spec.is_unit ty.now }
{
    match ty {
        Type::Tuple(it) => it.elems.as_slice().is_empty(),
        _ => false,
    }
}

fn named_head<'a, N: Names>(
    decls: &N,
    meant: Meant,
    arguments: Arguments<&'a Type>,
) -> Head<&'a Type>
    ensures { spec.seen_head result ≡ spec.named_head (N.idents decls.now) meant (seen arguments.entry) }
{
    match (meant, arguments) {
        (Meant::Declared(place), Arguments::Bare) => Head::Declared(place),
        (Meant::Table(Name::Leaf(leaf)), Arguments::Bare) => Head::Leaf(leaf),
        (Meant::Table(name), Arguments::One(inner)) => head_of_one(decls, name, inner),
        (Meant::Table(name), Arguments::Two(first, inner)) => {
            head_of_two(decls, name, first, inner)
        }
        _ => Head::Host,
    }
}

/// The name of the table that a type without arguments is.
fn bare_name<N: Names>(decls: &N, ty: &Type) -> Option<Name>
    ensures { result ≡ spec.bare_name (N.idents decls.now) ty.now }
{
    let segments = segments_in(ty);
    match (meant_by(decls, segments), last_arguments(segments)) {
        (Meant::Table(name), Arguments::Bare) => Some(name),
        _ => None,
    }
}

/// A name with one argument.
fn head_of_one<'a, N: Names>(decls: &N, name: Name, inner: &'a Type) -> Head<&'a Type>
    ensures { spec.seen_head result ≡ spec.head_of_one (spec.bare_name (N.idents decls.now) inner.now) name inner.now }
{
    match name {
        Name::Vec => list_head(bare_name(decls, inner), inner),
        Name::HashSet => set_head(bare_name(decls, inner)),
        Name::Option => Head::Around(Wrapper::Option, inner),
        Name::Box => Head::Around(Wrapper::Box, inner),
        Name::Result => Head::Around(Wrapper::Result, inner),
        Name::Override => Head::Around(Wrapper::Override, inner),
        Name::SpannedValue => Head::Around(Wrapper::SpannedValue, inner),
        _ => Head::Host,
    }
}

/// A `Vec` that is read as a whole, or else item by item.
fn list_head(item: Option<Name>, inner: &Type) -> Head<&Type>
    ensures { spec.seen_head result ≡ spec.list_head item inner.now }
{
    match vec_item(item) {
        Some(item) => Head::Leaf(Leaf::Vec(item)),
        None => Head::Around(Wrapper::Vec, inner),
    }
}

fn set_head<'a>(item: Option<Name>) -> Head<&'a Type>
    ensures { spec.seen_head result ≡ spec.set_head item }
{
    match set_item(item) {
        Some(item) => Head::Leaf(Leaf::HashSet(item)),
        None => Head::Host,
    }
}

/// A name with two arguments.
fn head_of_two<'a, N: Names>(
    decls: &N,
    name: Name,
    first: &'a Type,
    second: &'a Type,
) -> Head<&'a Type>
    ensures { spec.seen_head result ≡ spec.head_of_two (spec.bare_name (N.idents decls.now) first.now) (spec.bare_name (N.idents decls.now) second.now) name first.now second.now }
{
    match name {
        Name::Punctuated => punctuated_head(bare_name(decls, first), bare_name(decls, second)),
        Name::Result => beside_meta(Wrapper::ResultMeta, first, bare_name(decls, second)),
        Name::WithOriginal => beside_meta(Wrapper::WithOriginal, first, bare_name(decls, second)),
        Name::HashMap => hash_map_head(bare_name(decls, first), second),
        Name::BTreeMap => tree_map_head(bare_name(decls, first), second),
        _ => Head::Host,
    }
}

fn punctuated_head<'a>(item: Option<Name>, mark: Option<Name>) -> Head<&'a Type>
    ensures { spec.seen_head result ≡ spec.punctuated_head item mark }
{
    match (punctuated_item(item), mark) {
        (Some(item), Some(Name::Comma)) => Head::Leaf(Leaf::Punctuated(item)),
        _ => Head::Host,
    }
}

/// The wrapper, where its second argument is `Meta`.
fn beside_meta(wrapper: Wrapper, inner: &Type, second: Option<Name>) -> Head<&Type>
    ensures { spec.seen_head result ≡ spec.beside_meta wrapper inner.now second }
{
    match second {
        Some(Name::Leaf(Leaf::Meta)) => Head::Around(wrapper, inner),
        _ => Head::Host,
    }
}

fn hash_map_head(key: Option<Name>, inner: &Type) -> Head<&Type>
    ensures { spec.seen_head result ≡ spec.hash_map_head key inner.now }
{
    match hash_key(key) {
        Some(key) => Head::Around(Wrapper::HashMap(key), inner),
        None => Head::Host,
    }
}

fn tree_map_head(key: Option<Name>, inner: &Type) -> Head<&Type>
    ensures { spec.seen_head result ≡ spec.tree_map_head key inner.now }
{
    match tree_key(key) {
        Some(key) => Head::Around(Wrapper::BTreeMap(key), inner),
        None => Head::Host,
    }
}
