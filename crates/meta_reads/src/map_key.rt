//! Keys whose equality is that of what is seen of them, and sets of them.

ghost use Rattle.std.specs.Prelude.{◌≡◌, ◌||◌, IfOk, OnOk, false};

use crate::key::KeyFromPath;
use base_core::{Mem, Text, TryClone};
use node_expr::Path;
use std::alloc::Global;
use std::collections::{BTreeSet, HashSet};
use std::hash::Hash;
use tok_types::Ident;

/// A key that a map compares by what is seen of it.
pub trait MapKey: KeyFromPath + Eq {
    ghost use Rattle.std.specs.Cmp.{IsEquivalence};

    /// Another key that is seen as this one.
    fn copy(&self, alloc: Global) -> Mem<Self>
        ensures { IfOk result (λ copy. Self.seen copy ≡ Self.seen self.now) };

    ghost same_is: { (a b : Self) → Self.eq a b ≡ Self.same (Self.seen a) (Self.seen b) };

    ghost same_laws: { IsEquivalence Self.same };
}

impl MapKey for Text {
    ghost use Rattle.std.specs.Prelude.{refl};
    ghost use Rattle.std.specs.Cmp.Lexicographic.{nat_list_eq_equiv};

    ghost same_is = { λ a b. refl };

    ghost same_laws = { nat_list_eq_equiv };

    fn copy(&self, alloc: Global) -> Mem<Text> {
        self.try_clone(alloc)
    }
}

impl MapKey for String {
    ghost use Rattle.std.specs.Prelude.{refl};
    ghost use Rattle.std.specs.Cmp.Lexicographic.{nat_list_eq_equiv};

    ghost same_is = { λ a b. refl };

    ghost same_laws = { nat_list_eq_equiv };

    fn copy(&self, alloc: Global) -> Mem<String> {
        String::from_str(alloc, self.as_str())
    }
}

impl MapKey for Ident {
    ghost use Rattle.std.specs.Prelude.{refl};
    ghost use Rattle.tok_types.specs.contracts.ident.IdentEq.TheImpl.Laws as ident;

    ghost same_is = { λ a b. refl };

    ghost same_laws = { ident.laws-law };

    fn copy(&self, alloc: Global) -> Mem<Ident> {
        self.try_clone(alloc)
    }
}

impl MapKey for Path {
    ghost use Rattle.std.specs.Prelude.{refl};
    ghost use Rattle.node_expr.specs.contracts.path.PathEq.TheImpl.Laws as path;

    ghost same_is = { λ a b. refl };

    ghost same_laws = { path.laws-law };

    fn copy(&self, alloc: Global) -> Mem<Path> {
        self.try_clone(alloc)
    }
}

/// A key that a sorted map compares by what is seen of it.
pub trait SortedKey: MapKey + Ord {
    ghost use Rattle.meta_reads.specs.KnownKeys.{IsOrder};

    ghost order_is: { IsOrder Self.cmp Self.seen Self.order };
}

impl SortedKey for Text {
    ghost use Rattle.std.specs.Prelude.{refl};

    ghost order_is = { λ a b. refl };
}

impl SortedKey for String {
    ghost use Rattle.std.specs.Prelude.{refl};

    ghost order_is = { λ a b. refl };
}

impl SortedKey for Ident {
    ghost use Rattle.std.specs.Prelude.{refl};

    ghost order_is = { λ a b. refl };
}

/// A set of keys, by which a repeated one is found.
pub trait KeySet<K: Eq>: Sized {
    ghost use Rattle.std.specs.Prelude.{Bool};

    ghost has: { Self → K → Bool };

    /// A set without keys.
    fn empty(alloc: Global) -> Self
        ensures { (key : K) → has result key ≡ false };

    /// Puts the key in. Answers whether it was there.
    fn put(&mut self, key: K) -> Mem<bool>
        ensures again { IfOk result (λ again. again ≡ has self.old key) }
        ensures has { OnOk result ((other : K) → has self.new other ≡ (K.eq key other || has self.old other)) };
}

impl<K: Ord + Drop> KeySet<K> for BTreeSet<K> {
    ghost use Rattle.std.specs.BTreeSet.{contains};

    ghost has = { contains K.cmp };

    fn empty(alloc: Global) -> BTreeSet<K> {
        BTreeSet::new(alloc)
    }

    fn put(&mut self, key: K) -> Mem<bool> {
        let is_new = self.insert(key)?;
        Ok(!is_new)
    }
}

impl<K: Hash + Drop> KeySet<K> for HashSet<K> {
    ghost use Rattle.std.specs.HashSet.{contains};

    ghost has = { contains K.eq };

    fn empty(alloc: Global) -> HashSet<K> {
        HashSet::new(alloc)
    }

    fn put(&mut self, key: K) -> Mem<bool> {
        let is_new = self.insert(key)?;
        Ok(!is_new)
    }
}
