//! The lifetimes that a node uses.

use crate::list::push_all;
use crate::mentions::Mentions;
use crate::options::Options;
use crate::searched::Searched;
use crate::sets::{LifetimeRefSet, LifetimeSet, copies};
use base_core::Mem;
use std::alloc::Global;

/// Searcher for lifetimes in a node.
pub trait UsesLifetimes: Searched {
    ghost use Rattle.std.specs.Prelude.{false, IfOk};
    ghost use Rattle.body_usage.specs.Occurs.{AreUsedLifetimes};
    ghost use Rattle.body_usage.specs.Selected.{shown};

    /// The members of the set that are used directly. What bounds or predicates of a used lifetime
    /// use does not count.
    final fn uses_lifetimes<'a>(
        &self,
        alloc: Global,
        options: &Options,
        lifetimes: &'a LifetimeSet,
    ) -> Mem<LifetimeRefSet<'a>>
        ensures { IfOk result (λ used. AreUsedLifetimes options.now lifetimes.now (Self.mentions self.now false) (shown used.keys)) }
    {
        let mut found = Mentions::new(alloc);
        self.push_mentions(false, &mut found)?;
        found.lifetimes(alloc, options, lifetimes)
    }

    /// Copies of the members that [`uses_lifetimes`](UsesLifetimes::uses_lifetimes) finds.
    final fn uses_lifetimes_cloned<'a>(
        &self,
        alloc: Global,
        options: &Options,
        lifetimes: &'a LifetimeSet,
    ) -> Mem<LifetimeSet>
        ensures { IfOk result (λ used. AreUsedLifetimes options.now lifetimes.now (Self.mentions self.now false) used.keys) }
    {
        let used = self.uses_lifetimes(alloc, options, lifetimes)?;
        copies(alloc, &used)
    }
}

impl<T: Searched> UsesLifetimes for T {}

/// Searcher for lifetimes in the elements of a slice.
pub trait CollectLifetimes {
    ghost use Rattle.std.specs.Prelude.{false, IfOk};
    ghost use Rattle.body_usage.specs.Mentions.{Mentioned};
    ghost use Rattle.body_usage.specs.Occurs.{AreUsedLifetimes};
    ghost use Rattle.body_usage.specs.Selected.{shown};

    ghost elements_mention: { Self → Mentioned };

    /// The members of the set that an element uses.
    fn collect_lifetimes<'a>(
        &self,
        alloc: Global,
        options: &Options,
        lifetimes: &'a LifetimeSet,
    ) -> Mem<LifetimeRefSet<'a>>
        ensures { IfOk result (λ used. AreUsedLifetimes options.now lifetimes.now (elements_mention self.now false) (shown used.keys)) };

    /// Copies of the members that [`collect_lifetimes`](CollectLifetimes::collect_lifetimes)
    /// finds.
    final fn collect_lifetimes_cloned<'a>(
        &self,
        alloc: Global,
        options: &Options,
        lifetimes: &'a LifetimeSet,
    ) -> Mem<LifetimeSet>
        ensures { IfOk result (λ used. AreUsedLifetimes options.now lifetimes.now (elements_mention self.now false) used.keys) }
    {
        let used = self.collect_lifetimes(alloc, options, lifetimes)?;
        copies(alloc, &used)
    }
}

impl<'r, T: Searched> CollectLifetimes for &'r [T] {
    ghost use Rattle.std.specs.Prelude.{map};
    ghost use Rattle.body_usage.specs.Mentions.{all_of};

    ghost elements_mention = { λ elements. all_of (map T.mentions elements.now) };

    fn collect_lifetimes<'a>(
        &self,
        alloc: Global,
        options: &Options,
        lifetimes: &'a LifetimeSet,
    ) -> Mem<LifetimeRefSet<'a>> {
        let mut found = Mentions::new(alloc);
        push_all(*self, false, &mut found)?;
        found.lifetimes(alloc, options, lifetimes)
    }
}
