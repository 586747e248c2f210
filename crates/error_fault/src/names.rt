//! Sets of names.

ghost use Rattle.std.specs.Prelude.{◌≡◌, ◌<◌, ◌≤◌, length, IfOk, MatchOption};
ghost use Rattle.error_fault.specs.Kind.{set_of, with_names};

use base_core::{Mem, Text, TryClone};
use std::alloc::Global;
use std::collections::BTreeSet;

/// The set of copies of the names.
pub fn name_set(alloc: Global, names: &[Text]) -> Mem<BTreeSet<Text>>
    ensures { IfOk result (λ all. all ≡ set_of names.now) }
{
    let mut all = BTreeSet::new(alloc);
    for name in names {
        let name = name.try_clone(alloc)?;
        all.insert(name)?;
    }
    Ok(all)
}

pub(crate) fn clone_names(alloc: Global, names: &BTreeSet<Text>) -> Mem<BTreeSet<Text>>
    ensures { IfOk result (λ copy. copy ≡ names.now) }
{
    let mut copy = BTreeSet::new(alloc);
    for name in names {
        let name = name.try_clone(alloc)?;
        copy.insert(name)?;
    }
    Ok(copy)
}

/// The set with copies of `more` too, where it has at most `most` names then. It stops at the first
/// name above these.
pub(crate) fn add_names_up_to(
    alloc: Global,
    names: BTreeSet<Text>,
    more: &BTreeSet<Text>,
    most: usize,
) -> Mem<Option<BTreeSet<Text>>>
    requires { length names.keys ≤ most }
    ensures { IfOk result (λ few. MatchOption few (most < length (with_names names more.now.keys).keys)
        (λ all. (all ≡ with_names names more.now.keys) × (length all.keys ≤ most))) }
{
    let mut names = names;
    for name in more {
        let name = name.try_clone(alloc)?;
        names.insert(name)?;
        if names.len() > most {
            return Ok(None);
        }
    }
    Ok(Some(names))
}
