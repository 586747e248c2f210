//! The faults of an error from left to right.

ghost use Rattle.std.specs.Prelude.{◌≡◌, ◌++◌, [], map, IfOk, OnOk};
ghost use Rattle.error_core.specs.Changes.{flat};
ghost use Rattle.error_core.specs.ErrorView.{leaves};
ghost use Rattle.error_core.specs.Preorder.{leaf_node, over_several};
ghost use Rattle.error_core.specs.Walk.{run, told_by, opened};

use crate::error::{Error, Node, under_root};
use crate::roots::Roots;
use base_core::{Items, Mem};
use error_fault::Fault;
use std::alloc::{AllocError, Global};

impl Error {
    /// The faults from left to right, each with the locations from the root inwards and with its own
    /// place.
    pub fn into_faults(self, alloc: Global) -> Mem<Items<Fault>>
        ensures { IfOk result (λ faults. faults ≡ leaves self) }
    {
        walk(alloc, self.into_nodes().into_vec())
    }

    /// The same faults, each a child of the root; a single fault alone. Want of memory drops the error.
    pub fn flatten(self, alloc: Global) -> Mem<Error>
        ensures told { IfOk result (λ error. error ≡ flat self) }
        ensures leaves { IfOk result (λ error. leaves error ≡ leaves self) }
    {
        let faults = self.into_faults(alloc)?;
        let nodes = leaves(alloc, faults.into_vec())?;
        let all = over_several(alloc, nodes)?;
        Ok(Error { nodes: all, alloc })
    }
}

/// The nodes of the faults.
fn leaves(alloc: Global, faults: Vec<Fault>) -> Mem<Items<Node>>
    ensures { IfOk result (λ nodes. nodes ≡ map leaf_node faults.items) }
{
    let mut nodes = Items::new(alloc);
    for fault in faults {
        nodes.push(Node::leaf(fault))?;
    }
    Ok(nodes)
}

/// Nodes below a root; a single one alone.
fn over_several(alloc: Global, nodes: Items<Node>) -> Mem<Items<Node>>
    ensures { IfOk result (λ all. all ≡ over_several nodes) }
{
    if nodes.len() == 1 {
        return Ok(nodes);
    }
    under_root(alloc, nodes)
}

fn walk(alloc: Global, nodes: Vec<Node>) -> Mem<Items<Fault>>
    ensures { IfOk result (λ faults. faults ≡ run 0 [] nodes.items) }
{
    let mut roots = Roots::new(alloc);
    let mut faults = Items::new(alloc);
    let mut at: usize = 0;
    for node in nodes {
        roots.close(at);
        take(alloc, &mut roots, &mut faults, at, node)?;
        at = at.checked_add(1).ok_or(AllocError)?;
    }
    Ok(faults)
}

/// A leaf is a fault below the inner nodes that the pass is in; into an inner node it goes, with the
/// whole path that leads there.
fn take(
    alloc: Global,
    roots: &mut Roots,
    faults: &mut Items<Fault>,
    at: usize,
    node: Node,
) -> Mem<()>
    ensures faults { OnOk result (faults.new ≡ faults.old ++ told_by node.kind roots.old node) }
    ensures roots { OnOk result (roots.new ≡ opened node.kind at roots.old node) }
{
    let (size, locations, span, kind) = node.into_parts();
    let path = roots.path_to(alloc, &locations)?;
    match kind {
        Some(kind) => faults.push(Fault { kind, path, span }),
        None => roots.push(at.checked_add(size).ok_or(AllocError)?, path),
    }
}
