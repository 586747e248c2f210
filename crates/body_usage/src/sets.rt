//! Sets of names.

ghost use Rattle.std.specs.Prelude.{◌&&◌, ◌++◌, ◌∷◌, [], OnOk, IfOk};
ghost use Rattle.body_usage.specs.Selected.{IsExtended, IsSetOf, shown};

use base_core::{Mem, TryClone};
use std::alloc::Global;
use std::collections::HashSet;
use std::hash::Hash;
use tok_types::{Ident, Lifetime};

/// A set of identifiers.
pub type IdentSet = HashSet<Ident>;

/// A set of references to identifiers.
pub type IdentRefSet<'a> = HashSet<&'a Ident>;

/// A set of lifetimes.
pub type LifetimeSet = HashSet<Lifetime>;

/// A set of references to lifetimes.
pub type LifetimeRefSet<'a> = HashSet<&'a Lifetime>;

/// Adds the member of `set` that is equal to the name, where there is one.
fn add_member<'a, T: Eq + Hash>(
    set: &'a HashSet<T>,
    name: &T,
    answer: &mut HashSet<&'a T>,
) -> Mem<()>
    ensures { OnOk result (IsExtended T.eq set.now (λ other. T.eq other name.now) (shown answer.old.keys) (shown answer.new.keys)) }
{
    if let Some(member) = set.get(name) {
        answer.insert(member)?;
    }
    Ok(())
}

/// Adds the member of `set` that is equal to the name, if the name counts.
pub fn add_counted<'a, T: Eq + Hash>(
    counts: bool,
    name: &T,
    set: &'a HashSet<T>,
    answer: &mut HashSet<&'a T>,
) -> Mem<()>
    ensures { OnOk result (IsExtended T.eq set.now (λ other. counts && T.eq other name.now) (shown answer.old.keys) (shown answer.new.keys)) }
{
    if counts {
        add_member(set, name, answer)?;
    }
    Ok(())
}

/// Adds a copy of the name.
pub fn add_copy<T: TryClone + Eq + Hash + Drop>(
    alloc: Global,
    name: &T,
    answer: &mut HashSet<T>,
) -> Mem<()>
    ensures { OnOk result (IsSetOf T.eq (answer.old.keys ++ name.now ∷ []) answer.new.keys) }
{
    let copy = name.try_clone(alloc)?;
    answer.insert(copy)?;
    Ok(())
}

/// A copy of each name.
pub fn copies<T: TryClone + Eq + Hash + Drop>(alloc: Global, names: &HashSet<&T>) -> Mem<HashSet<T>>
    ensures { IfOk result (λ answer. IsSetOf T.eq (shown names.now.keys) answer.keys) }
{
    let mut answer = HashSet::new(alloc);
    for name in names {
        add_copy(alloc, *name, &mut answer)?;
    }
    Ok(answer)
}
