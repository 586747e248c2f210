//! The type parameters that a node uses.

use crate::list::push_all;
use crate::mentions::Mentions;
use crate::options::Options;
use crate::searched::Searched;
use crate::sets::{IdentRefSet, IdentSet, copies};
use base_core::Mem;
use std::alloc::Global;

/// Searcher for type parameters in a node.
pub trait UsesTypeParams: Searched {
    ghost use Rattle.std.specs.Prelude.{false, IfOk};
    ghost use Rattle.body_usage.specs.Occurs.{AreUsedTypeParams};
    ghost use Rattle.body_usage.specs.Selected.{shown};

    /// The members of the set that are used directly. What bounds or predicates of a used parameter
    /// use does not count.
    final fn uses_type_params<'a>(
        &self,
        alloc: Global,
        options: &Options,
        type_set: &'a IdentSet,
    ) -> Mem<IdentRefSet<'a>>
        ensures { IfOk result (λ used. AreUsedTypeParams options.now type_set.now (Self.mentions self.now false) (shown used.keys)) }
    {
        let mut found = Mentions::new(alloc);
        self.push_mentions(false, &mut found)?;
        found.type_params(alloc, options, type_set)
    }

    /// Copies of the members that [`uses_type_params`](UsesTypeParams::uses_type_params) finds.
    final fn uses_type_params_cloned<'a>(
        &self,
        alloc: Global,
        options: &Options,
        type_set: &'a IdentSet,
    ) -> Mem<IdentSet>
        ensures { IfOk result (λ used. AreUsedTypeParams options.now type_set.now (Self.mentions self.now false) used.keys) }
    {
        let used = self.uses_type_params(alloc, options, type_set)?;
        copies(alloc, &used)
    }
}

impl<T: Searched> UsesTypeParams for T {}

/// Searcher for type parameters in the elements of a slice.
pub trait CollectTypeParams {
    ghost use Rattle.std.specs.Prelude.{false, IfOk};
    ghost use Rattle.body_usage.specs.Mentions.{Mentioned};
    ghost use Rattle.body_usage.specs.Occurs.{AreUsedTypeParams};
    ghost use Rattle.body_usage.specs.Selected.{shown};

    ghost elements_mention: { Self → Mentioned };

    /// The members of the set that an element uses.
    fn collect_type_params<'a>(
        &self,
        alloc: Global,
        options: &Options,
        type_set: &'a IdentSet,
    ) -> Mem<IdentRefSet<'a>>
        ensures { IfOk result (λ used. AreUsedTypeParams options.now type_set.now (elements_mention self.now false) (shown used.keys)) };

    /// Copies of the members that [`collect_type_params`](CollectTypeParams::collect_type_params)
    /// finds.
    final fn collect_type_params_cloned<'a>(
        &self,
        alloc: Global,
        options: &Options,
        type_set: &'a IdentSet,
    ) -> Mem<IdentSet>
        ensures { IfOk result (λ used. AreUsedTypeParams options.now type_set.now (elements_mention self.now false) used.keys) }
    {
        let used = self.collect_type_params(alloc, options, type_set)?;
        copies(alloc, &used)
    }
}

impl<'r, T: Searched> CollectTypeParams for &'r [T] {
    ghost use Rattle.std.specs.Prelude.{map};
    ghost use Rattle.body_usage.specs.Mentions.{all_of};

    ghost elements_mention = { λ elements. all_of (map T.mentions elements.now) };

    fn collect_type_params<'a>(
        &self,
        alloc: Global,
        options: &Options,
        type_set: &'a IdentSet,
    ) -> Mem<IdentRefSet<'a>> {
        let mut found = Mentions::new(alloc);
        push_all(*self, false, &mut found)?;
        found.type_params(alloc, options, type_set)
    }
}
