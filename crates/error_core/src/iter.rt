//! The children of an error, by value.

ghost use Rattle.std.specs.Prelude.{◌≡◌, length, IfOk};
ghost use Rattle.std.specs.Iterator.{YieldsFirst, item_count};
ghost use Rattle.error_core.specs.ErrorView.{children_of};
ghost use Rattle.error_core.specs.Split.{IsForest, trees, is_whole};

use crate::error::{Error, Node};
use base_core::{Items, Mem};
use std::alloc::Global;
use std::iter::FusedIterator;
use std::marker::Model;
use std::vec;

/// The children of an error, by value. A contract sees those that are still to come.
pub struct IntoIter {
    inner: vec::IntoIter<Error>,
}

impl Model for IntoIter {
    ghost use Rattle.std.specs.Prelude.{List};
    ghost use Rattle.std.specs.Vec.Iter.{into_iter_items};
    ghost use Rattle.error_core.specs.ErrorView.{ErrorView};
    ghost use Rattle.std.specs.Coded.{coded_list};
    ghost use Rattle.error_core.specs.contracts.error.Error as error;

    ghost Value = { List ErrorView };

    ghost coded = { coded_list error.the_row.coded };

    ghost view = { λ it. into_iter_items it.inner };
}

impl Iterator for IntoIter {
    type Item = Error;

    ghost next_gives = { YieldsFirst (λ rest. rest) };

    ghost remaining = { item_count (λ rest. rest) };

    fn next(&mut self) -> Option<Error> {
        self.inner.next()
    }
}

impl FusedIterator for IntoIter {}

impl Error {
    /// The children of the root in order, or the one leaf itself.
    pub fn into_iter(self, alloc: Global) -> Mem<IntoIter>
        ensures { IfOk result (λ it. it ≡ children_of self) }
    {
        let children = self.into_children(alloc)?;
        Ok(IntoIter {
            inner: children.into_iter(),
        })
    }

    /// The children all at once, so that `next` takes no memory.
    fn into_children(self, alloc: Global) -> Mem<Vec<Error>>
        ensures { IfOk result (λ children. children.items ≡ children_of self) }
    {
        if self.nodes.len() == 1 {
            let mut one = Vec::new(alloc);
            one.push(self)?;
            return Ok(one);
        }
        let mut nodes = self.into_nodes();
        let _root = nodes.remove(0);
        split(alloc, nodes)
    }
}

/// The errors whose nodes stand one after another.
fn split(alloc: Global, nodes: Items<Node>) -> Mem<Vec<Error>>
    requires { IsForest nodes }
    ensures { IfOk result (λ errors. errors.items ≡ trees nodes) }
{
    let mut errors = Vec::new(alloc);
    let mut grown = Items::new(alloc);
    for node in nodes.into_vec() {
        grown.push(node)?;
        if is_whole(&grown) {
            let nodes = std::mem::replace(&mut grown, Items::new(alloc));
            errors.push(Error { nodes, alloc })?;
        }
    }
    Ok(errors)
}

/// Whether these are as many nodes as the first says.
fn is_whole(grown: &Items<Node>) -> bool
    ensures { result ≡ is_whole grown.now }
{
    match grown.first() {
        Some(node) => node.size == grown.len(),
        None => false,
    }
}

impl Drop for IntoIter {
    fn drop(self) {
        let Self { inner: _inner } = self;
    }
}
