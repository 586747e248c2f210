//! The outermost layer of a row.

ghost use Rattle.machine_read.specs.Layers.{IsLayerOf};

use machine_rows::{Leaf, Row, Wrapper};
use node_expr::Type;

/// What a row is at its outermost layer.
#[derive(Clone, Copy)]
pub(crate) enum Layer<'a> {
    Unit,
    Leaf(&'a Leaf),
    Around(Wrapper, &'a Row),
    Declared(usize),
    Host(&'a Type),
}

/// The outermost layer of the row.
pub(crate) fn layer_of(row: &Row) -> Layer<'_>
    ensures { IsLayerOf row.now result }
{
    match row {
        Row::Unit => Layer::Unit,
        Row::Leaf(leaf) => Layer::Leaf(leaf),
        Row::Option(inner) => Layer::Around(Wrapper::Option, inner.get()),
        Row::Box(inner) => Layer::Around(Wrapper::Box, inner.get()),
        Row::Result(inner) => Layer::Around(Wrapper::Result, inner.get()),
        Row::ResultMeta(inner) => Layer::Around(Wrapper::ResultMeta, inner.get()),
        Row::Override(inner) => Layer::Around(Wrapper::Override, inner.get()),
        Row::SpannedValue(inner) => Layer::Around(Wrapper::SpannedValue, inner.get()),
        Row::WithOriginal(inner) => Layer::Around(Wrapper::WithOriginal, inner.get()),
        Row::HashMap(key, inner) => Layer::Around(Wrapper::HashMap(*key), inner.get()),
        Row::BTreeMap(key, inner) => Layer::Around(Wrapper::BTreeMap(*key), inner.get()),
        Row::Vec(inner) => Layer::Around(Wrapper::Vec, inner.get()),
        Row::Declared(number) => Layer::Declared(*number),
        Row::Host(ty) => Layer::Host(ty),
    }
}
