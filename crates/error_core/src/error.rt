//! An error: the nodes of a tree of faults in preorder, and the calls on its root.

ghost use Rattle.std.specs.Prelude.{◌≡◌, ◌<◌, ◌++◌, ◌∷◌, [], length, flat_map, IfOk, OnOk, IsTrue, ◌↔◌, IsSome};
ghost use Rattle.std.specs.Option.{unwrap_or};
ghost use Rattle.error_fault.specs.Faults.{span_one, at};
ghost use Rattle.error_core.specs.ErrorView.{One, leaves, span_of};
ghost use Rattle.error_core.specs.Changes.{spanned, located, joined};
ghost use Rattle.error_core.specs.Preorder.{nodes_of, all_nodes, leaf_node, root_node, rooted, leaf_count, placed, set_at, root_span};

use base_core::{Items, Mem, Text};
use error_fault::{Fault, FaultKind};
use std::alloc::{AllocError, Global};
use std::marker::Model;
use tok_types::Span;

/// What is wrong with an input: at least one fault. An error is a leaf with one fault, or a root over
/// at least two errors; either has the names of the fields that lead to it, and perhaps a place.
///
/// The nodes of this tree stand in one vector, each in front of its children, so that a tree of any
/// depth is read, copied and dropped without stack.
#[derive_where(Debug)]
pub struct Error {
    pub(crate) nodes: Items<Node>,
    // `Display` is handed no allocator.
    #[derive_where(skip(Debug))]
    pub(crate) alloc: Global,
}

/// A leaf, which has a kind, or an inner node, which has none.
#[derive(Debug)]
pub(crate) struct Node {
    /// How many nodes its subtree has, itself counted.
    pub size: usize,
    /// The names of the fields that lead to it from the node above.
    pub locations: Items<Text>,
    pub span: Option<Span>,
    pub kind: Option<FaultKind>,
}

impl Model for Error {
    ghost use Rattle.std.specs.Coded.{codes};
    ghost use Rattle.error_core.specs.ErrorView.{ErrorView};
    ghost use Rattle.error_core.specs.Coded.{error_code};

    ghost Value = { ErrorView };

    ghost coded = { error_code (Prim.hlevel (codes)) };

    ghost use Rattle.error_core.specs.Preorder.{shown, IsPreorder};

    ghost view = { λ inside. shown inside.nodes };

    ghost invariant = { λ inside. IsPreorder inside.nodes };
}

impl Error {
    /// The error of a fault, with its place and the fields that it is in. Want of memory drops the
    /// fault.
    pub fn from_fault(alloc: Global, fault: Fault) -> Mem<Error>
        ensures { IfOk result (λ error. error ≡ One fault) }
    {
        let nodes = Items::of(alloc, Node::leaf(fault))?;
        Ok(Error { nodes, alloc })
    }

    /// The one error of a list of one; the errors of a longer list as the children of one root. Want
    /// of memory drops the errors.
    pub fn multiple(alloc: Global, errors: Vec<Error>) -> Mem<Error>
        requires { 0 < length errors.items }
        ensures told { IfOk result (λ error. error ≡ joined errors.items error) }
        ensures leaves { IfOk result (λ error. leaves error ≡ flat_map leaves errors.items) }
    {
        if errors.len() == 1 {
            return Ok(only(errors));
        }
        let inside = joined_nodes(alloc, errors)?;
        let nodes = under_root(alloc, inside)?;
        Ok(Error { nodes, alloc })
    }

    /// The number of faults; never 0.
    pub fn len(&self) -> usize
        ensures { result ≡ length (leaves self.now) }
    {
        count_leaves(self.nodes.as_slice())
    }

    /// Whether the root has a place.
    pub fn has_span(&self) -> bool
        ensures { IsTrue result ↔ IsSome (span_of self.now) }
    {
        self.explicit_span().is_some()
    }

    /// The place of the root, where it has one.
    pub fn explicit_span(&self) -> Option<Span>
        ensures { result ≡ span_of self.now }
    {
        root_span(&self.nodes)
    }

    /// The place of the root, or [`Span::CallSite`].
    pub fn span(&self) -> Span
        ensures { result ≡ unwrap_or (span_of self.now) Span.CallSite }
    {
        self.explicit_span().unwrap_or(Span::CallSite)
    }

    /// Puts the root at this place, where it has none; children keep theirs.
    pub fn with_span_at(self, span: Span) -> Error
        ensures told { result ≡ spanned self span }
        ensures leaves { leaves result ≡ span_one (leaves self) span }
    {
        let alloc = self.alloc;
        let mut nodes = self.into_nodes();
        set_span(&mut nodes, span);
        Error { nodes, alloc }
    }

    /// The error one field further in: the location stands in front of the root's. Want of memory
    /// drops the error.
    pub fn at(self, alloc: Global, location: &str) -> Mem<Error>
        ensures told { IfOk result (λ error. error ≡ located self location.now) }
        ensures leaves { IfOk result (λ error. leaves error ≡ at (leaves self) location.now) }
    {
        let name = Text::from_str(alloc, location)?;
        let mut nodes = self.into_nodes();
        locate(&mut nodes, name)?;
        Ok(Error { nodes, alloc })
    }

    /// The nodes in preorder.
    pub(crate) fn into_nodes(self) -> Items<Node>
        ensures { result ≡ nodes_of self }
    {
        let Error { nodes, alloc: _ } = self;
        nodes
    }
}

impl Node {
    /// The node of a fault.
    pub(crate) fn leaf(fault: Fault) -> Node
        ensures { result ≡ leaf_node fault }
    {
        let (kind, locations, span) = fault.into_parts();
        Node {
            size: 1,
            locations,
            span,
            kind: Some(kind),
        }
    }

    /// A root in no field and at no place, with so many nodes in its subtree.
    fn root(alloc: Global, size: usize) -> Node
        ensures { result ≡ root_node size [] None }
    {
        Node {
            size,
            locations: Items::new(alloc),
            span: None,
            kind: None,
        }
    }

    /// The size, the locations, the place and the kind.
    pub(crate) fn into_parts(self) -> (usize, Items<Text>, Option<Span>, Option<FaultKind>)
        ensures { result ≡ (self.size, self.locations, self.span, self.kind) }
    {
        let Node {
            size,
            locations,
            span,
            kind,
        } = self;
        (size, locations, span, kind)
    }
}

fn only(errors: Vec<Error>) -> Error
    requires { length errors.items ≡ 1 }
    ensures { errors.items ≡ result ∷ [] }
{
    let mut errors = errors;
    match errors.pop() {
        Some(error) => error,
        None => unreachable!(),
    }
}

/// The nodes of the errors, one after another.
fn joined_nodes(alloc: Global, errors: Vec<Error>) -> Mem<Items<Node>>
    ensures { IfOk result (λ nodes. nodes ≡ all_nodes errors.items) }
{
    let mut nodes = Items::new(alloc);
    for error in errors {
        put_behind(&mut nodes, error.into_nodes())?;
    }
    Ok(nodes)
}

/// Puts the nodes behind the others. Where there are no others their vector is kept: it may hold most of a tree.
fn put_behind(nodes: &mut Items<Node>, more: Items<Node>) -> Mem<()>
    ensures { OnOk result (nodes.new ≡ nodes.old ++ more) }
{
    if nodes.is_empty() {
        *nodes = more;
        return Ok(());
    }
    nodes.append(more)
}

/// A root in no field and at no place, and behind it these nodes.
pub(crate) fn under_root(alloc: Global, nodes: Items<Node>) -> Mem<Items<Node>>
    ensures { IfOk result (λ all. all ≡ rooted [] None nodes) }
{
    let mut nodes = nodes;
    let size = nodes.len().checked_add(1).ok_or(AllocError)?;
    nodes.insert(0, Node::root(alloc, size))?;
    Ok(nodes)
}

// A call on a root changes the nodes beside the error, since only a whole tree is an error.

fn set_span(nodes: &mut Items<Node>, span: Span)
    ensures { nodes.new ≡ set_at nodes.old span }
{
    if let Some(root) = nodes.get_mut(0) {
        root.span = Some(root.span.unwrap_or(span));
    }
}

fn locate(nodes: &mut Items<Node>, name: Text) -> Mem<()>
    ensures { OnOk result (nodes.new ≡ placed nodes.old name) }
{
    if let Some(root) = nodes.get_mut(0) {
        root.locations.insert(0, name)?;
    }
    Ok(())
}

fn root_span(nodes: &Items<Node>) -> Option<Span>
    ensures { result ≡ root_span nodes.now }
{
    match nodes.first() {
        Some(root) => root.span,
        None => None,
    }
}

fn count_leaves(nodes: &[Node]) -> usize
    ensures { result ≡ leaf_count nodes.now }
{
    let mut count = 0;
    for node in nodes {
        if node.size == 1 {
            count += 1;
        }
    }
    count
}

impl Drop for Error {
    fn drop(self) {
        let Self {
            nodes: _nodes,
            alloc: _,
        } = self;
    }
}

impl Drop for Node {
    fn drop(self) {
        let Self {
            size: _,
            locations: _locations,
            span: _,
            kind: _kind,
        } = self;
    }
}
