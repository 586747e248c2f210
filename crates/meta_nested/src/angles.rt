//! Whether the angles of a value close, for all values of a list: a table that one pass from right to left makes.

ghost use Rattle.std.specs.Prelude.{◌≡◌, ◌&&◌, ◌+◌, ◌<◌, ◌≤◌, ℕ, List, ◌∷◌, [], drop, length, IfOk, OnOk, slice_index_or, false};
ghost use Rattle.tok_types.specs.declared.tree.TokenTree.{TokenTree as Tree};
ghost use Rattle.tok_types.specs.Ascii.{minus};
ghost use Rattle.syn_grammar.specs.Token.{is_joint, is_mark};
ghost use Rattle.law_angles.specs.Ends.{Before, behind, nothing};
ghost use Rattle.meta_nested.specs.Angles.{RowTells, Tells, before_at, role_of};

use base_core::{Items, Mem};
use std::alloc::Global;
use syn_grammar::{is_colons, is_comma, is_greater, is_joint, is_less, is_mark};
use syn_types::MAX_DEPTH;
use tok_types::TokenTree;

/// How many angles may be open in each other.
const MAX_ANGLES: usize = 2 * MAX_DEPTH;

/// What a token is to the angles round it.
#[derive(Clone, Copy)]
enum Role {
    Comma,
    /// A `<` behind `::`.
    Turbofish,
    /// Another `<`.
    Less,
    /// A `>` that ends no arrow.
    Greater,
    Other,
}

/// Whether the angles close that are open at a place of the list.
#[derive(Drop)]
struct Row {
    /// Where none is open.
    none: bool,
    /// Where one is open, where two are, and so on. Where more are, they do not close.
    some: Items<bool>,
}

fn behind_colons(trees: &[TokenTree], index: usize) -> bool
    requires { index ≤ length trees.now }
    ensures { result ≡ (before_at nothing index trees.now).colons }
{
    if index < 2 {
        return false;
    }
    is_colons(&trees[index - 2..])
}

fn is_joint_minus(trees: &[TokenTree]) -> bool
    ensures { result ≡ (is_joint trees.now && is_mark minus trees.now) }
{
    is_joint(trees) && is_mark('-', trees)
}

fn behind_minus(trees: &[TokenTree], index: usize) -> bool
    requires { index ≤ length trees.now }
    ensures { result ≡ (before_at nothing index trees.now).minus }
{
    if index < 1 {
        return false;
    }
    is_joint_minus(&trees[index - 1..])
}

/// The role of the token at `index`.
fn role_at(trees: &[TokenTree], index: usize) -> Role
    requires { index ≤ length trees.now }
    ensures { result ≡ role_of (before_at nothing index trees.now) (drop index trees.now) }
{
    let next = &trees[index..];
    if is_comma(next) {
        Role::Comma
    } else if is_less(next) {
        if behind_colons(trees, index) {
            Role::Turbofish
        } else {
            Role::Less
        }
    } else if is_greater(next) && !behind_minus(trees, index) {
        Role::Greater
    } else {
        Role::Other
    }
}

impl Row {
    /// Takes the answer for one open angle: what was the answer for one more is the answer then.
    fn shift(&mut self) -> bool
        ensures answer { result ≡ slice_index_or self.old.some 0 false }
        ensures none { self.new.none ≡ self.old.none }
        ensures some { self.new.some ≡ drop 1 self.old.some }
    {
        if self.some.is_empty() {
            false
        } else {
            self.some.remove(0)
        }
    }

    /// Goes to the place before a token of this role.
    fn step(&mut self, role: Role) -> Mem<()>
        ensures { OnOk result ((before : Before) (tree : Tree) (trees : List Tree) → role ≡ role_of before (tree ∷ trees)
            → RowTells (behind before (tree ∷ trees)) trees self.old → RowTells before (tree ∷ trees) self.new) }
    {
        match role {
            Role::Comma => self.none = true,
            Role::Turbofish => self.none = self.shift(),
            Role::Less => {
                self.shift();
            }
            Role::Greater => {
                self.some.insert(0, self.none)?;
                self.some.truncate(MAX_ANGLES);
            }
            Role::Other => {}
        }
        Ok(())
    }
}

/// A table that says of each value of the list whether its angles close, at the number of tokens left there.
pub(crate) fn closings_of(alloc: Global, trees: &[TokenTree]) -> Mem<Items<bool>>
    ensures { IfOk result (λ table. Tells table trees.now) }
{
    let mut row = Row {
        none: true,
        some: Items::new(alloc),
    };
    let mut table = Items::of(alloc, true)?;
    for left in 0..trees.len() {
        row.step(role_at(trees, trees.len() - left - 1))?;
        table.push(row.none)?;
    }
    Ok(table)
}
