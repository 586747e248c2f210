//! A list: a vector that a contract sees as the list of its items.

ghost use Rattle.std.specs.Prelude.{◌≡◌, ◌↔◌, ◌++◌, ◌∷◌, [], ◌<◌, ◌≤◌, ◌-◌, IsTrue, IsSome, IfOk, OnOk, OnErr, MatchOption, length, option_map, slice_get, slice_set, insert, remove, take, reverse};
ghost use Rattle.std.specs.Option.{option_copied};
ghost use Rattle.std.specs.Borrow.{LendsIf, sem};
ghost use Rattle.base_core.specs.contracts.items.Items.{the_row as items_row};
ghost use Rattle.std.specs.Cmp.Lexicographic.{pointwise};
ghost use Rattle.std.specs.Cmp.Rules.{comparing};
ghost use Rattle.std.specs.Hash as fed;
ghost use Rattle.std.proofs.Common.{rules};

use crate::clone::{Mem, TryClone};
use std::alloc::Global;
use std::hash::{Hash, Hasher};
use std::marker::Model;

/// A `Vec` that contracts see as the list of its items.
#[derive(Debug)]
pub struct Items<T> {
    vec: Vec<T>,
}

impl<T> Model for Items<T> {
    ghost use Rattle.std.specs.Prelude.{List};
    ghost use Rattle.std.specs.Coded.{coded_list};

    ghost Value = { List T };

    ghost coded = { coded_list T.code };

    ghost view = { λ it. it.vec.items };
}

impl<T> Items<T> {
    /// The empty list. It takes no memory.
    pub fn new(alloc: Global) -> Items<T>
        ensures { result ≡ [] }
    {
        Items {
            vec: Vec::new(alloc),
        }
    }

    pub fn from_vec(vec: Vec<T>) -> Items<T>
        ensures { result ≡ vec.items }
    {
        Items { vec }
    }

    /// The items as a `Vec`, which a loop can take by value.
    pub fn into_vec(self) -> Vec<T>
        ensures { result.items ≡ self }
    {
        let Items { vec } = self;
        vec
    }

    pub fn as_slice(&self) -> &[T]
        ensures { result.now ≡ self.now }
    {
        self.vec.as_slice()
    }

    pub fn len(&self) -> usize
        ensures { result ≡ length self.now }
    {
        self.vec.len()
    }

    pub fn is_empty(&self) -> bool
        ensures { IsTrue result ↔ (self.now ≡ []) }
    {
        self.vec.is_empty()
    }

    pub fn get(&self, at: usize) -> Option<&T>
        ensures value { option_copied result ≡ slice_get self.now at }
        ensures within { IsSome result ↔ (at < length self.now) }
    {
        self.vec.get(at)
    }

    /// The place of the item at `at`, to write there.
    pub fn get_mut(&mut self, at: usize) -> Option<&mut T>
        ensures value { option_map (λ it. it.now) result ≡ slice_get self.old at }
        ensures* writes_back { sem 𝓛 (LendsIf (items_row T.row) T.row self.entry result (slice_set self.old at) self.old) }
    {
        self.vec.get_mut(at)
    }

    pub fn first(&self) -> Option<&T>
        ensures value { option_copied result ≡ slice_get self.now 0 }
    {
        self.get(0)
    }

    pub fn last(&self) -> Option<&T>
        ensures value { option_copied result ≡ slice_get self.now (length self.now - 1) }
    {
        if self.vec.is_empty() {
            return None;
        }
        self.get(self.vec.len() - 1)
    }

    pub fn pop(&mut self) -> Option<T>
        ensures { MatchOption result ((self.old ≡ []) × (self.new ≡ [])) (λ last. self.old ≡ self.new ++ last ∷ []) }
    {
        self.vec.pop()
    }

    pub fn reverse(&mut self)
        ensures { self.new ≡ reverse self.old }
    {
        self.vec.as_mut_slice().reverse();
    }
}

impl<T: Drop> Items<T> {
    /// The list of `item` alone.
    pub fn of(alloc: Global, item: T) -> Mem<Items<T>>
        ensures { IfOk result (λ it. it ≡ item ∷ []) }
    {
        let mut items = Items::new(alloc);
        items.push(item)?;
        Ok(items)
    }

    /// Adds `item` at the end. The first item takes room for one: most lists of a tree stay that short.
    pub fn push(&mut self, item: T) -> Mem<()>
        ensures ok { OnOk result (self.new ≡ self.old ++ item ∷ []) }
        ensures err { OnErr result (self.new ≡ self.old) }
    {
        if self.vec.is_empty() {
            self.vec.reserve_exact(1)?;
        }
        self.vec.push(item)?;
        Ok(())
    }

    /// Moves the items of `more` to the end. Want of memory drops them.
    pub fn append(&mut self, more: Items<T>) -> Mem<()>
        ensures ok { OnOk result (self.new ≡ self.old ++ more) }
        ensures err { OnErr result (self.new ≡ self.old) }
    {
        let Items { mut vec } = more;
        self.vec.append(&mut vec)
    }

    pub fn insert(&mut self, at: usize, item: T) -> Mem<()>
        requires { at ≤ length self.old }
        ensures ok { OnOk result (self.new ≡ insert self.old at item) }
        ensures err { OnErr result (self.new ≡ self.old) }
    {
        self.vec.insert(at, item)?;
        Ok(())
    }

    pub fn remove(&mut self, at: usize) -> T
        requires { at < length self.old }
        ensures item { slice_get self.old at ≡ Some result }
        ensures rest { self.new ≡ remove self.old at }
    {
        self.vec.remove(at)
    }

    /// Puts `item` in the place of the one at `at`, which is handed out. It takes no memory.
    pub fn replace(&mut self, at: usize, item: T) -> T
        requires { at < length self.old }
        ensures item { slice_get self.old at ≡ Some result }
        ensures rest { self.new ≡ slice_set self.old at item }
    {
        std::mem::replace(&mut self.vec[at], item)
    }

    pub fn set(&mut self, at: usize, item: T)
        requires { at < length self.old }
        ensures { self.new ≡ slice_set self.old at item }
    {
        self.vec[at] = item;
    }

    /// Drops what stands after the first `count` items.
    pub fn truncate(&mut self, count: usize)
        ensures { self.new ≡ take count self.old }
    {
        self.vec.truncate(count);
    }

    pub fn clear(&mut self)
        ensures { self.new ≡ [] }
    {
        self.vec.clear();
    }
}

impl<T: TryClone + Drop> Items<T> {
    /// A copy of `items`.
    pub fn from_slice(alloc: Global, items: &[T]) -> Mem<Items<T>>
        ensures { IfOk result (λ it. it ≡ items.now) }
    {
        let mut copies = Items::new(alloc);
        copies.extend_from_slice(alloc, items)?;
        Ok(copies)
    }

    /// Copies `more` to the end. Want of memory leaves the list as it was.
    pub fn extend_from_slice(&mut self, alloc: Global, more: &[T]) -> Mem<()>
        ensures ok { OnOk result (self.new ≡ self.old ++ more.now) }
        ensures err { OnErr result (self.new ≡ self.old) }
    {
        let mut copies = Items::new(alloc);
        for item in more {
            let copy = item.try_clone(alloc)?;
            copies.push(copy)?;
        }
        self.append(copies)
    }
}

impl<T: TryClone + Drop> TryClone for Items<T> {
    fn try_clone(&self, alloc: Global) -> Mem<Items<T>> {
        Items::from_slice(alloc, self.as_slice())
    }
}

impl<T: PartialEq> PartialEq for Items<T> {
    ghost eq = { pointwise T.eq };

    ghost laws = { Prim.search (comparing, rules) };

    fn eq(&self, other: &Items<T>) -> bool {
        self.as_slice() == other.as_slice()
    }
}

impl<T: Eq> Eq for Items<T> {
    ghost laws = { Prim.search (comparing, rules) };
}

impl<T: Hash> Hash for Items<T> {
    ghost hash_input = { fed.slice T.hash_input };

    ghost respects_eq = { (fed.items_Alike (record { fed = T.respects_eq })).fed };

    fn hash<H: Hasher>(&self, state: &mut H) {
        self.as_slice().hash(state);
    }
}

impl<T: Drop> Drop for Items<T> {
    fn drop(self) {
        let Self { vec: _vec } = self;
    }
}
