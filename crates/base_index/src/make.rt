//! The index of a list of names.

ghost use Rattle.std.specs.Prelude.{◌≡◌, map, IfOk};
ghost use Rattle.base_index.specs.Index.{IsIndex, indexed};

use crate::index::NameIndex;
use crate::name_of::NameOf;
use base_core::{Items, Mem};
use std::alloc::Global;

impl NameIndex {
    /// The index of the names of these.
    pub fn new<T, N: NameOf<T>>(alloc: Global, items: &[T]) -> Mem<NameIndex>
        ensures { IfOk result (λ index. IsIndex index (map N.name_of items.now)) }
    {
        let mut pairs = paired::<T, N>(alloc, items)?;
        pairs.sort()?;
        let places = places_of(alloc, pairs.as_slice())?;
        Ok(NameIndex::of_places(places))
    }
}

/// Each name with its place.
fn paired<T, N: NameOf<T>>(alloc: Global, items: &[T]) -> Mem<Vec<(&str, usize)>>
    ensures { IfOk result (λ pairs. map (λ it. (it.0.now, it.1)) pairs.items ≡ indexed 0 (map N.name_of items.now)) }
{
    let mut pairs = Vec::new(alloc);
    let mut at: usize = 0;
    for item in items {
        pairs.push((N::name(item), at))?;
        at += 1;
    }
    Ok(pairs)
}

fn places_of(alloc: Global, pairs: &[(&str, usize)]) -> Mem<Items<usize>>
    ensures { IfOk result (λ places. places ≡ map (λ it. it.1) pairs.now) }
{
    let mut places = Items::new(alloc);
    for pair in pairs {
        places.push(pair.1)?;
    }
    Ok(places)
}
