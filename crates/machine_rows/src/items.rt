//! What lists, sets and maps of the table hold.

ghost use Rattle.std.specs.Prelude.{◌≡◌};
ghost use Rattle.machine_rows.specs.Items as spec;

use crate::leaf::{Integer, Leaf, PunctuatedItem, SetItem, Unsigned, VecItem};
use crate::name::Name;
use crate::wrapper::{HashKey, TreeKey};

/// What a `Vec` holds that is read as a whole.
pub fn vec_item(item: Option<Name>) -> Option<VecItem>
    ensures { result ≡ spec.vec_item item }
{
    match item {
        Some(Name::WherePredicate) => Some(VecItem::WherePredicate),
        Some(Name::Leaf(leaf)) => vec_leaf(leaf),
        _ => None,
    }
}

fn vec_leaf(leaf: Leaf) -> Option<VecItem>
    ensures { result ≡ spec.vec_leaf leaf }
{
    match leaf {
        Leaf::LitOf(kind) => Some(VecItem::Lit(kind)),
        Leaf::Integer(integer) => vec_integer(integer),
        Leaf::Ident => Some(VecItem::Ident),
        Leaf::Path => Some(VecItem::Path),
        _ => None,
    }
}

fn vec_integer(integer: Integer) -> Option<VecItem>
    ensures { result ≡ spec.vec_integer integer }
{
    match integer {
        Integer::U8 => Some(VecItem::Unsigned(Unsigned::U8)),
        Integer::U16 => Some(VecItem::Unsigned(Unsigned::U16)),
        Integer::U32 => Some(VecItem::Unsigned(Unsigned::U32)),
        Integer::U64 => Some(VecItem::Unsigned(Unsigned::U64)),
        Integer::Usize => Some(VecItem::Unsigned(Unsigned::Usize)),
        _ => None,
    }
}

/// What a `HashSet` may hold.
pub fn set_item(item: Option<Name>) -> Option<SetItem>
    ensures { result ≡ spec.set_item item }
{
    match item {
        Some(Name::Leaf(Leaf::Ident)) => Some(SetItem::Ident),
        Some(Name::Leaf(Leaf::Path)) => Some(SetItem::Path),
        _ => None,
    }
}

/// What a `Punctuated` may hold.
pub fn punctuated_item(item: Option<Name>) -> Option<PunctuatedItem>
    ensures { result ≡ spec.punctuated_item item }
{
    match item {
        Some(Name::Leaf(Leaf::Expr)) => Some(PunctuatedItem::Expr),
        Some(Name::Leaf(Leaf::Ident)) => Some(PunctuatedItem::Ident),
        Some(Name::Leaf(Leaf::Path)) => Some(PunctuatedItem::Path),
        Some(Name::FnArg) => Some(PunctuatedItem::FnArg),
        _ => None,
    }
}

/// What the keys of a `HashMap` may be.
pub fn hash_key(key: Option<Name>) -> Option<HashKey>
    ensures { result ≡ spec.hash_key key }
{
    match key {
        Some(Name::Leaf(Leaf::String)) => Some(HashKey::String),
        Some(Name::Leaf(Leaf::Ident)) => Some(HashKey::Ident),
        Some(Name::Leaf(Leaf::Path)) => Some(HashKey::Path),
        _ => None,
    }
}

/// What the keys of a `BTreeMap` may be.
pub fn tree_key(key: Option<Name>) -> Option<TreeKey>
    ensures { result ≡ spec.tree_key key }
{
    match key {
        Some(Name::Leaf(Leaf::String)) => Some(TreeKey::String),
        Some(Name::Leaf(Leaf::Ident)) => Some(TreeKey::Ident),
        _ => None,
    }
}
