//! The alternatives of siblings, for unknown fields that stand in no field.

ghost use Rattle.std.specs.Prelude.{◌≡◌, List, IfOk};
ghost use Rattle.base_core.specs.declared.text.Text.{Text as TextSeen};
ghost use Rattle.error_fault.specs.Faults.{siblings};
ghost use Rattle.error_fault.specs.Kind.{set_of};
ghost use Rattle.error_core.specs.ErrorView.{leaves, span_of};
ghost use Rattle.error_core.specs.Changes.{widened};
ghost use Rattle.error_core.specs.Wider.{widen, changed, passed, with_kind_widened};

use crate::error::{Error, Node};
use base_core::{Items, Mem, Text};
use error_fault::{Shared, name_set};
use std::alloc::Global;
use std::collections::BTreeSet;

impl Error {
    /// An unknown field that stands in no field has these alternatives too; all else stays. Want of
    /// memory drops the error.
    pub fn add_sibling_alts_for_unknown_field(self, alloc: Global, alts: &[Text]) -> Mem<Error>
        ensures told { IfOk result (λ error. error ≡ widened self alts.now) }
        ensures leaves { IfOk result (λ error. leaves error ≡ siblings (leaves self) alts.now) }
        ensures span { IfOk result (λ error. span_of error ≡ span_of self) }
    {
        let shared = Shared::new(alloc, name_set(alloc, alts)?)?;
        self.add_sibling_alts_among(alloc, &shared)
    }

    /// As [`Error::add_sibling_alts_for_unknown_field`], where many errors share the set of the alternatives.
    pub fn add_sibling_alts_among(self, alloc: Global, alts: &Shared<BTreeSet<Text>>) -> Mem<Error>
        ensures told { (names : List TextSeen) → alts.now ≡ set_of names → IfOk result (λ error. error ≡ widened self names) }
        ensures leaves { (names : List TextSeen) → alts.now ≡ set_of names → IfOk result (λ error. leaves error ≡ siblings (leaves self) names) }
        ensures span { IfOk result (λ error. span_of error ≡ span_of self) }
    {
        let nodes = widen(alloc, self.into_nodes().into_vec(), alts)?;
        Ok(Error { nodes, alloc })
    }
}

/// The nodes, each widened or passed by. Those below a node in a field are passed by.
fn widen(alloc: Global, nodes: Vec<Node>, alts: &Shared<BTreeSet<Text>>) -> Mem<Items<Node>>
    ensures { IfOk result (λ wider. wider ≡ widen alts.now.keys 0 nodes.items) }
{
    let mut wider = Items::new(alloc);
    let mut left: usize = 0;
    for node in nodes {
        let next = passed(&node, left);
        wider.push(changed(alloc, node, left, alts)?)?;
        left = next;
    }
    Ok(wider)
}

/// How many nodes behind this one are passed by, where `left` are from this one on.
fn passed(node: &Node, left: usize) -> usize
    ensures { result ≡ passed left node.now }
{
    if left > 0 {
        return left - 1;
    }
    if node.locations.is_empty() {
        return 0;
    }
    node.size.saturating_sub(1)
}

/// The node, widened where none are passed by and it stands in no field.
fn changed(alloc: Global, node: Node, left: usize, alts: &Shared<BTreeSet<Text>>) -> Mem<Node>
    ensures { IfOk result (λ it. it ≡ changed alts.now.keys left node) }
{
    if left > 0 || !node.locations.is_empty() {
        return Ok(node);
    }
    widened(alloc, node, alts)
}

/// A leaf with these alternatives too; an inner node as it is.
fn widened(alloc: Global, node: Node, alts: &Shared<BTreeSet<Text>>) -> Mem<Node>
    ensures { IfOk result (λ it. it ≡ with_kind_widened alts.now.keys node.kind node) }
{
    let (size, locations, span, kind) = node.into_parts();
    let kind = match kind {
        Some(kind) => Some(kind.with_alternatives(alloc, alts)?),
        None => None,
    };
    Ok(Node {
        size,
        locations,
        span,
        kind,
    })
}
