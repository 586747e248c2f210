//! Lists of anything.

ghost use Rattle.std.specs.Prelude.{◌≡◌, ◌≤◌, ◌∷◌, ◌++◌, [], ℕ, List, Some, IfOk};
ghost use Rattle.syn_grammar.specs.Input as input;
ghost use Rattle.syn_grammar.specs.Input.{Parser};
ghost use Rattle.syn_grammar.specs.Reads.{Gives, Reads};
ghost use Rattle.syn_lists.specs.Lists.{CountsDepth, eat_joint};

use base_core::Items;
use std::alloc::Global;
use syn_grammar::{Cursor, ReadFail};

/// A tree and its depth, or why there is none.
pub type Parsed<A> = Result<(A, usize), ReadFail>;

/// What reads the items of a list.
pub trait ReadItem<T> {
    /// The rule of the grammar that an item is read by.
    ghost reader: { Self → Parser T };

    /// Whether it may read: always, where an `impl` does not say.
    ghost ready: { Self → Type 0 } = { λ it. Unit {0} };

    /// What it knows of the items that were read since it was the first of two: nothing, where an
    /// `impl` does not say.
    ghost knows: { Self → Self → List T → Type 0 } = { λ begun it found. Unit {0} };

    /// One item.
    fn read(&mut self, tokens: &mut Cursor<'_>) -> Result<T, ReadFail>
        requires { ready self.old }
        ensures gives { Gives (reader self.old tokens.old) result tokens.new }
        ensures same { reader self.new ≡ reader self.old }
        ensures ready { ready self.new }
        ensures knows { IfOk result (λ item. (begun : Self) (found : List T) → knows begun self.old found → knows begun self.new (found ++ item ∷ [])) };
}

/// What reads the items of a list, which have a depth.
pub trait ReadDeepItem<T> {
    /// The rule of the grammar that an item is read by.
    ghost reader: { Self → Parser T };

    /// Whether it may read.
    ghost ready: { Self → Type 0 };

    /// How deep an item is.
    ghost size: { Self → T → ℕ };

    /// How deep it may be.
    ghost limit: { Self → ℕ };

    /// One item and its depth.
    fn read(&self, tokens: &mut Cursor<'_>) -> Parsed<T>
        requires { ready self.now }
        ensures { Reads (size self.now) (limit self.now) (reader self.now tokens.old) result tokens.new };
}

/// Reads the items of a list and keeps how deep the deepest of them is.
#[derive(Drop)]
pub struct Deepest<'a, P> {
    pub inner: &'a P,
    pub depth: usize,
}

impl<T: Drop, P: ReadDeepItem<T>> ReadItem<T> for Deepest<'_, P> {
    ghost reader = { λ it. P.reader it.inner.now };

    ghost ready = { λ it. P.ready it.inner.now };

    ghost knows = { λ begun it found. CountsDepth P.size P.limit begun.inner.now it.inner.now it.depth found };

    fn read(&mut self, tokens: &mut Cursor<'_>) -> Result<T, ReadFail> {
        let (item, depth) = self.inner.read(tokens)?;
        self.depth = self.depth.max(depth);
        Ok(item)
    }
}

/// More items of a list that ends with its tokens, behind those that are `found`, with at most one
/// comma at its end.
pub fn items_after<T: Drop, P: ReadItem<T>>(
    tokens: &mut Cursor<'_>,
    item: &mut P,
    mut found: Items<T>,
) -> Result<Items<T>, ReadFail>
    requires { P.ready item.old }
    ensures gives { Gives (input.items_after (P.reader item.old) found tokens.old) result tokens.new }
    ensures knows { IfOk result (λ all. P.knows item.old item.old found → P.knows item.old item.new all) }
{
    for _turn in 0..tokens.left() {
        if tokens.at_end() {
            return Ok(found);
        }
        let next = item.read(tokens)?;
        found.push(next)?;
        if !tokens.eat_mark(',') {
            return Ok(found);
        }
    }
    if tokens.at_end() {
        Ok(found)
    } else {
        Err(ReadFail::Syntax)
    }
}

/// What is left of a list that the mark `closing` ends, with at most one comma before it.
pub fn until<T: Drop, P: ReadItem<T>>(
    alloc: Global,
    tokens: &mut Cursor<'_>,
    closing: char,
    item: &mut P,
) -> Result<Items<T>, ReadFail>
    requires { P.ready item.old }
    ensures gives { Gives (input.until closing (P.reader item.old) tokens.old) result tokens.new }
    ensures knows { IfOk result (λ all. P.knows item.old item.old [] → P.knows item.old item.new all) }
{
    let mut found = Items::new(alloc);
    for _turn in 0..tokens.left() {
        if tokens.eat_mark(closing) {
            return Ok(found);
        }
        let next = item.read(tokens)?;
        found.push(next)?;
        if !tokens.eat_mark(',') {
            tokens.expect_mark(closing)?;
            return Ok(found);
        }
    }
    Err(ReadFail::Syntax)
}

/// Items that `+` or `::` joins: one at least, and one after each mark.
pub fn joined_by<T: Drop, P: ReadItem<T>>(
    alloc: Global,
    tokens: &mut Cursor<'_>,
    joint: Joint,
    item: &mut P,
) -> Result<Items<T>, ReadFail>
    requires { P.ready item.old }
    ensures gives { Gives (input.joined_by (eat_joint joint) (P.reader item.old) tokens.old) result tokens.new }
    ensures knows { IfOk result (λ all. P.knows item.old item.old [] → P.knows item.old item.new all) }
{
    let mut found = Items::new(alloc);
    for _turn in 0..tokens.left() {
        let next = item.read(tokens)?;
        found.push(next)?;
        if !eat_joint(tokens, joint) {
            return Ok(found);
        }
    }
    Err(ReadFail::Syntax)
}

/// The mark between two items.
#[derive(Clone, Copy, Debug, PartialEq, Eq)]
pub enum Joint {
    /// `+`
    Plus,
    /// `::`
    Colons,
}

fn eat_joint(tokens: &mut Cursor<'_>, joint: Joint) -> bool
    ensures { eat_joint joint tokens.old ≡ Some (result, tokens.new) }
{
    match joint {
        Joint::Plus => tokens.eat_mark('+'),
        Joint::Colons => tokens.eat_colons(),
    }
}
