//! The names that a fault offers.

ghost use Rattle.std.specs.Prelude.{◌≡◌, ◌<◌, ◌≤◌, length, IfOk, MatchOption};
ghost use Rattle.error_fault.specs.Kind.{with_names};

use crate::names::{add_names_up_to, clone_names};
use crate::shared::Shared;
use base_core::{Items, Mem, Text, TryClone};
use std::alloc::Global;
use std::collections::BTreeSet;
use std::marker::Model;

/// The names that a fault offers. A contract sees their set.
///
/// A fault that gets the names of siblings too holds one more owner of these: a set of its own in each
/// fault would take the count of names times the count of faults.
#[derive(Debug)]
pub struct Alts {
    own: Shared<BTreeSet<Text>>,
    more: Items<Shared<BTreeSet<Text>>>,
}

impl Model for Alts {
    ghost use Rattle.std.specs.Prelude.{fold};
    ghost use Rattle.std.specs.BTreeSet.{BTreeSet, insert_key};
    ghost use Rattle.std.specs.Cmp.Lexicographic.{slice_cmp};
    ghost use Rattle.std.specs.Ordering.{nat_cmp};
    ghost use Rattle.base_core.specs.declared.text.Text.{Text};

    ghost Value = { BTreeSet Text };

    ghost view = { λ alts. record
        { keys = fold (λ keys more. fold (insert_key (slice_cmp nat_cmp)) keys more.keys) alts.own.keys alts.more } };
}

impl Alts {
    pub fn of(alloc: Global, own: Shared<BTreeSet<Text>>) -> Alts
        ensures { result ≡ own }
    {
        Alts {
            own,
            more: Items::new(alloc),
        }
    }

    /// The names with `names` too. Want of memory drops them.
    pub fn widen(self, names: Shared<BTreeSet<Text>>) -> Mem<Alts>
        ensures { IfOk result (λ alts. alts ≡ with_names self names.keys) }
    {
        let Alts { own, mut more } = self;
        more.push(names)?;
        Ok(Alts { own, more })
    }

    /// The set of the names, where these are at most `most`. It reads no more names than tell that there
    /// are more.
    pub fn up_to(&self, alloc: Global, most: usize) -> Mem<Option<BTreeSet<Text>>>
        ensures { IfOk result (λ few. MatchOption few (most < length self.now.keys)
            (λ names. (names ≡ self.now) × (length names.keys ≤ most))) }
    {
        if self.own.get().len() > most {
            return Ok(None);
        }
        let mut names = clone_names(alloc, self.own.get())?;
        for more in self.more.as_slice() {
            let few = add_names_up_to(alloc, names, more.get(), most)?;
            names = match few {
                Some(few) => few,
                None => return Ok(None),
            };
        }
        Ok(Some(names))
    }
}

/// One more owner of the same names.
impl TryClone for Alts {
    fn try_clone(&self, alloc: Global) -> Mem<Alts> {
        let own = self.own.try_clone(alloc)?;
        let more = self.more.try_clone(alloc)?;
        Ok(Alts { own, more })
    }
}

impl Drop for Alts {
    fn drop(self) {
        let Self {
            own: _own,
            more: _more,
        } = self;
    }
}
