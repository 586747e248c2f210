//! What a type means: a row of the table of conversions, a declaration, or a type of the host.

ghost use Rattle.std.specs.Prelude.{◌≡◌, IfOk};
ghost use Rattle.machine_rows.specs.Rows as spec;

use crate::leaf::Leaf;
use crate::wrapper::{HashKey, TreeKey, Wrapper};
use base_core::{Boxed, Mem, TryClone};
use node_expr::Type;
use std::alloc::Global;

/// What a type means: a row of the table with the rows of what it holds, a declaration by its number, or
/// a type of the host. Two are equal where their names are, spans aside.
#[derive_where(PartialEq, Eq)]
pub enum Row {
    /// `()`
    Unit,
    /// A type that holds no type that is read on its own.
    Leaf(Leaf),
    /// `Option<T>`
    Option(Boxed<Row>),
    /// `Box<T>`
    Box(Boxed<Row>),
    /// `Result<T>`, whose error is darling's
    Result(Boxed<Row>),
    /// `Result<T, Meta>`
    ResultMeta(Boxed<Row>),
    /// `Override<T>`
    Override(Boxed<Row>),
    /// `SpannedValue<T>`
    SpannedValue(Boxed<Row>),
    /// `WithOriginal<T, Meta>`
    WithOriginal(Boxed<Row>),
    /// `HashMap<String, T>`
    HashMap(HashKey, Boxed<Row>),
    /// `BTreeMap<String, T>`
    BTreeMap(TreeKey, Boxed<Row>),
    /// A `Vec<T>` that is not read as a whole. It is the type of a field of many items.
    Vec(Boxed<Row>),
    /// The declaration of this number, from 0 on.
    Declared(usize),
    /// A type of this name is the host's, where it knows one.
    Host(Type),
}

/// The row of a type that holds one type.
pub fn around(alloc: Global, wrapper: Wrapper, inner: Row) -> Mem<Row>
    ensures { IfOk result (λ row. row ≡ spec.around wrapper inner) }
{
    let inner = Boxed::new(alloc, inner)?;
    Ok(around_boxed(wrapper, inner))
}

fn around_boxed(wrapper: Wrapper, inner: Boxed<Row>) -> Row
    ensures { result ≡ spec.around wrapper inner }
{
    match wrapper {
        Wrapper::Option => Row::Option(inner),
        Wrapper::Box => Row::Box(inner),
        Wrapper::Result => Row::Result(inner),
        Wrapper::ResultMeta => Row::ResultMeta(inner),
        Wrapper::Override => Row::Override(inner),
        Wrapper::SpannedValue => Row::SpannedValue(inner),
        Wrapper::WithOriginal => Row::WithOriginal(inner),
        Wrapper::HashMap(key) => Row::HashMap(key, inner),
        Wrapper::BTreeMap(key) => Row::BTreeMap(key, inner),
        Wrapper::Vec => Row::Vec(inner),
    }
}

impl TryClone for Row {
    fn try_clone(&self, alloc: Global) -> Mem<Row> {
        match self {
            Row::Unit => Ok(Row::Unit),
            Row::Leaf(leaf) => Ok(Row::Leaf(*leaf)),
            Row::Option(it) => around(alloc, Wrapper::Option, it.get().try_clone(alloc)?),
            Row::Box(it) => around(alloc, Wrapper::Box, it.get().try_clone(alloc)?),
            Row::Result(it) => around(alloc, Wrapper::Result, it.get().try_clone(alloc)?),
            Row::ResultMeta(it) => around(alloc, Wrapper::ResultMeta, it.get().try_clone(alloc)?),
            Row::Override(it) => around(alloc, Wrapper::Override, it.get().try_clone(alloc)?),
            Row::SpannedValue(it) => {
                around(alloc, Wrapper::SpannedValue, it.get().try_clone(alloc)?)
            }
            Row::WithOriginal(it) => {
                around(alloc, Wrapper::WithOriginal, it.get().try_clone(alloc)?)
            }
            Row::HashMap(key, it) => {
                around(alloc, Wrapper::HashMap(*key), it.get().try_clone(alloc)?)
            }
            Row::BTreeMap(key, it) => {
                around(alloc, Wrapper::BTreeMap(*key), it.get().try_clone(alloc)?)
            }
            Row::Vec(it) => around(alloc, Wrapper::Vec, it.get().try_clone(alloc)?),
            Row::Declared(place) => Ok(Row::Declared(*place)),
            Row::Host(ty) => Ok(Row::Host(ty.try_clone(alloc)?)),
        }
    }
}

impl Drop for Row {
    fn drop(self) {
        match self {
            Row::Unit => {}
            Row::Leaf(_) => {}
            Row::Option(_it) => {}
            Row::Box(_it) => {}
            Row::Result(_it) => {}
            Row::ResultMeta(_it) => {}
            Row::Override(_it) => {}
            Row::SpannedValue(_it) => {}
            Row::WithOriginal(_it) => {}
            Row::HashMap(_, _it) => {}
            Row::BTreeMap(_, _it) => {}
            Row::Vec(_it) => {}
            Row::Declared(_) => {}
            Row::Host(_ty) => {}
        }
    }
}
