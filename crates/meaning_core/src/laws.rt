//! Laws of the meaning. These functions do nothing: their clauses are the laws.

ghost use Rattle.meaning_core.specs.ElementLaws.{ItemsAreAll};
ghost use Rattle.meaning_core.specs.Walk.{WalkIsFilters};

/// Behind any entries, the slots, the faults and the kept items of the machine are filters of those entries.
pub fn walk_is_filters()
    ensures { WalkIsFilters }
{}

/// An element of which nothing but its items is taken means what these mean, whatever derive reads it.
pub fn items_are_all()
    ensures { ItemsAreAll }
{}
