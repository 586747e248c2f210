//! Names that faults offer.

ghost use Rattle.std.specs.Prelude.{◌≡◌, IfOk};
ghost use Rattle.error_fault.specs.Kind.{set_of};

use base_core::{Items, Mem, Text, TryClone};
use error_fault::{Shared, name_set};
use std::alloc::Global;
use std::collections::BTreeSet;
use std::marker::Model;

/// Names that faults may offer, and their set, which all these faults share. A contract sees the list of names.
///
/// The set is made once: a copy of it in each fault would take the count of names times the count of faults.
pub struct Alternatives {
    names: Items<Text>,
    set: Shared<BTreeSet<Text>>,
}

impl Model for Alternatives {
    ghost use Rattle.std.specs.Prelude.{◌≡◌, List};
    ghost use Rattle.base_core.specs.declared.text.Text.{Text};
    ghost use Rattle.error_fault.specs.Kind.{set_of};

    ghost Value = { List Text };

    ghost view = { λ it. it.names };

    ghost invariant = { λ it. it.set ≡ set_of it.names };
}

impl Drop for Alternatives {
    fn drop(self) {
        let Self {
            names: _names,
            set: _set,
        } = self;
    }
}

impl TryClone for Alternatives {
    fn try_clone(&self, alloc: Global) -> Mem<Alternatives> {
        let names = self.names.try_clone(alloc)?;
        let set = self.set.try_clone(alloc)?;
        Ok(Alternatives { names, set })
    }
}

impl Alternatives {
    /// The names with their set.
    pub fn new(alloc: Global, names: Items<Text>) -> Mem<Alternatives>
        ensures { IfOk result (λ it. it ≡ names) }
    {
        let set = name_set(alloc, names.as_slice())?;
        let set = Shared::new(alloc, set)?;
        Ok(Alternatives { names, set })
    }

    pub fn as_slice(&self) -> &[Text]
        ensures { result.now ≡ self.now }
    {
        self.names.as_slice()
    }

    /// The set of the names, of which a fault holds one more owner.
    pub fn set(&self) -> &Shared<BTreeSet<Text>>
        ensures { result.now ≡ set_of self.now }
    {
        &self.set
    }
}
