//! Names by their order.

ghost use Rattle.std.specs.Prelude.{◌≡◌, ◌<◌, ◌≤◌, ◌+◌, ◌*◌, ◌^◌, ◌⊎◌, ℕ, true, false, Some, length, map, position};
ghost use Rattle.std.specs.Str.{bytes_eq};
ghost use Rattle.base_index.specs.Count.{last, raised};
ghost use Rattle.base_index.specs.Index.{IsIndex, below_at, place_at, same_at};

use crate::name_of::NameOf;
use crate::tally::Tally;
use base_core::{Items, Mem, TryClone};
use std::alloc::Global;
use std::marker::Model;

/// The places of a list's names, sorted by name and then by place. A contract sees the places.
pub struct NameIndex {
    places: Items<usize>,
}

impl Model for NameIndex {
    ghost use Rattle.std.specs.Prelude.{ℕ, List};

    ghost Value = { List ℕ };

    ghost view = { λ it. it.places };
}

impl Drop for NameIndex {
    fn drop(self) {
        let Self { places: _places } = self;
    }
}

impl TryClone for NameIndex {
    fn try_clone(&self, alloc: Global) -> Mem<NameIndex> {
        Ok(NameIndex {
            places: Items::from_slice(alloc, self.places.as_slice())?,
        })
    }
}

impl NameIndex {
    pub(crate) fn of_places(places: Items<usize>) -> NameIndex
        ensures { result ≡ places }
    {
        NameIndex { places }
    }

    /// The first place of the name. The list is that which the index was made of. With `d` the least number such that
    /// fewer than 2^d names are there, the count rises by at most 2 `d`.
    pub fn find<T, N: NameOf<T>>(&self, items: &[T], name: &str, tally: &mut Tally) -> Option<usize>
        requires { IsIndex self.now (map N.name_of items.now) }
        ensures place { result ≡ position (λ other. bytes_eq other name.now) (map N.name_of items.now) }
        ensures most { (d : ℕ) → length items.now < 2 ^ d → tally.new ≤ tally.old + 2 * d }
        ensures grows { tally.old ≤ tally.new }
        ensures stays { tally.old ≡ last → tally.new ≡ last }
        ensures least { 0 < length items.now → (tally.old + 1 ≤ tally.new) ⊎ (tally.new ≡ last) }
    {
        let low = self.low::<T, N>(items, name, tally);
        if low < self.places.len() && self.is_named::<T, N>(low, items, name, tally) {
            return self.place(low);
        }
        None
    }

    fn place(&self, at: usize) -> Option<usize>
        ensures { at < length self.now → result ≡ Some (place_at self.now at) }
    {
        match self.places.get(at) {
            Some(place) => Some(*place),
            None => None,
        }
    }

    /// The first in the order whose name is not below the name.
    fn low<T, N: NameOf<T>>(&self, items: &[T], name: &str, tally: &mut Tally) -> usize
        requires { IsIndex self.now (map N.name_of items.now) }
        ensures within { result ≤ length self.now }
        ensures before { (i : ℕ) → i < result → below_at self.now (map N.name_of items.now) name.now i ≡ true }
        ensures behind { (i : ℕ) → result ≤ i → i < length self.now → below_at self.now (map N.name_of items.now) name.now i ≡ false }
        ensures most { (d : ℕ) → length self.now < 2 ^ d → tally.new ≤ tally.old + d }
        ensures grows { tally.old ≤ tally.new }
        ensures stays { tally.old ≡ last → tally.new ≡ last }
        ensures least { ((length self.now ≡ 0) × (tally.new ≡ tally.old)) ⊎ ((tally.old + 1 ≤ tally.new) ⊎ (tally.new ≡ last)) }
    {
        let mut low = 0;
        let mut size = self.places.len();
        let mut steps: usize = 0;
        while size > 0 {
            let half = size / 2;
            steps += 1;
            if self.is_below::<T, N>(low + half, items, name, tally) {
                low += half + 1;
                size -= half + 1;
            } else {
                size = half;
            }
        }
        low
    }

    fn is_below<T, N: NameOf<T>>(
        &self,
        at: usize,
        items: &[T],
        name: &str,
        tally: &mut Tally,
    ) -> bool
        requires index { IsIndex self.now (map N.name_of items.now) }
        requires within { at < length self.now }
        ensures answer { result ≡ below_at self.now (map N.name_of items.now) name.now at }
        ensures count { tally.new ≡ raised tally.old }
    {
        tally.step();
        let place = self.places.as_slice()[at];
        N::name(&items[place]).cmp(name).is_lt()
    }

    fn is_named<T, N: NameOf<T>>(
        &self,
        at: usize,
        items: &[T],
        name: &str,
        tally: &mut Tally,
    ) -> bool
        requires index { IsIndex self.now (map N.name_of items.now) }
        requires within { at < length self.now }
        ensures answer { result ≡ same_at self.now (map N.name_of items.now) name.now at }
        ensures count { tally.new ≡ raised tally.old }
    {
        tally.step();
        let place = self.places.as_slice()[at];
        N::name(&items[place]) == name
    }
}
