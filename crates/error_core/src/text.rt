//! The text of an error.

ghost use Rattle.std.specs.Prelude.{◌≡◌, ◌++◌, [], true, IfOk, OnOk};
ghost use Rattle.error_core.specs.ErrorView.{error_text};
ghost use Rattle.error_core.specs.Walk.{closed};
ghost use Rattle.error_core.specs.Written.{written, endings, ending, gap, own_text, is_inner, entered};

use crate::error::{Error, Node};
use crate::roots::Roots;
use base_core::{Items, Mem, Text};
use error_fault::{kind_text, path_text};
use std::alloc::{AllocError, Global};
use std::fmt::{self, Display};

impl Error {
    /// The text of the one fault, or `Multiple errors: (a, b)` with those of the children, and then
    /// the fields that lead to the root, as ` at x/y`.
    pub fn to_text(&self, alloc: Global) -> Mem<Text>
        ensures { IfOk result (λ text. text ≡ error_text self.now) }
    {
        written(alloc, self.nodes.as_slice())
    }
}

/// The text of [`to_text`](Error::to_text), which takes memory: want of it is an `fmt::Error`.
impl Display for Error {
    ghost use Rattle.std.specs.Prelude.{Some};

    ghost output = { λ error. Some (error_text error) };

    fn fmt<W: fmt::Write>(&self, f: &mut fmt::Formatter<W>) -> fmt::Result {
        let text = self.to_text(self.alloc)?;
        f.write_str(text.as_str())
    }
}

/// The text that one pass over the nodes writes.
fn written(alloc: Global, nodes: &[Node]) -> Mem<Text>
    ensures { IfOk result (λ text. text ≡ written 0 true [] nodes.now) }
{
    let mut out = Text::new(alloc);
    let mut roots = Roots::new(alloc);
    let mut at: usize = 0;
    let mut first = true;
    for node in nodes {
        end_roots(alloc, &mut out, &mut roots, at)?;
        push_gap(&mut out, first)?;
        push_own(alloc, &mut out, node)?;
        enter(alloc, &mut roots, at, node)?;
        first = is_inner(node);
        at = at.checked_add(1).ok_or(AllocError)?;
    }
    end_roots(alloc, &mut out, &mut roots, at)?;
    Ok(out)
}

/// Writes the ends of the inner nodes that end here, and leaves these.
fn end_roots(alloc: Global, out: &mut Text, roots: &mut Roots, at: usize) -> Mem<()>
    ensures text { OnOk result (out.new ≡ out.old ++ endings at roots.old) }
    ensures roots { OnOk result (roots.new ≡ closed at roots.old) }
{
    'ends: while roots.is_over(at) {
        push_end(alloc, out, roots.path())?;
        roots.leave();
    }
    Ok(())
}

fn push_end(alloc: Global, out: &mut Text, path: &[Text]) -> Mem<()>
    ensures { OnOk result (out.new ≡ out.old ++ ending path.now) }
{
    out.push_str(")")?;
    out.push_str(path_text(alloc, path)?.as_str())
}

/// Writes what stands between a node and the one before it.
fn push_gap(out: &mut Text, first: bool) -> Mem<()>
    ensures { OnOk result (out.new ≡ out.old ++ gap first) }
{
    if first { Ok(()) } else { out.push_str(", ") }
}

/// Writes a leaf, or the begin of an inner node.
fn push_own(alloc: Global, out: &mut Text, node: &Node) -> Mem<()>
    ensures { OnOk result (out.new ≡ out.old ++ own_text node.now.kind node.now) }
{
    match &node.kind {
        Some(kind) => {
            out.push_str(kind_text(alloc, kind)?.as_str())?;
            out.push_str(path_text(alloc, node.locations.as_slice())?.as_str())
        }
        None => out.push_str("Multiple errors: ("),
    }
}

/// Goes into an inner node, whose path is its own.
fn enter(alloc: Global, roots: &mut Roots, at: usize, node: &Node) -> Mem<()>
    ensures { OnOk result (roots.new ≡ entered node.now.kind at roots.old node.now) }
{
    if !is_inner(node) {
        return Ok(());
    }
    let end = at.checked_add(node.size).ok_or(AllocError)?;
    roots.push(end, Items::from_slice(alloc, node.locations.as_slice())?)
}

fn is_inner(node: &Node) -> bool
    ensures { result ≡ is_inner node.now.kind }
{
    node.kind.is_none()
}
