//! What is checked of options once all members are read.

ghost use Rattle.std.specs.Prelude.{◌≡◌, ◌++◌, List, OnOk, OnErr};
ghost use Rattle.error_core.specs.ErrorView.{held};

use base_core::Mem;
use error_core::{Accumulator, Error};
use std::alloc::Global;

/// What is checked once all members are read.
pub trait Checks: Sized {
    ghost use Rattle.error_fault.specs.declared.fault.Fault.{Fault};

    /// What is wrong.
    ghost wrong: { Self → List Fault };

    /// The faults that are found before memory is wanting may stand behind the others.
    fn push_checks(&self, alloc: Global, errors: &mut Accumulator) -> Mem<()>
        ensures { OnOk result (held errors.new ≡ held errors.old ++ wrong self.now) };
}

/// Collects all that is wrong or, for want of memory, nothing.
pub fn validate<T: Checks>(options: &T, alloc: Global, errors: &mut Accumulator) -> Mem<()>
    ensures ok { OnOk result (held errors.new ≡ held errors.old ++ T.wrong options.now) }
    ensures err { OnErr result (errors.new ≡ errors.old) }
{
    let mut found = Error::accumulator(alloc);
    match options.push_checks(alloc, &mut found) {
        Ok(()) => errors.extend(alloc, found.into_inner()),
        Err(fail) => {
            drop(found.into_inner());
            Err(fail)
        }
    }
}
