//! What a host answers.

ghost use Rattle.std.specs.Prelude.{◌≡◌, IfOk};

use base_core::{Items, Mem, TryClone};
use error_fault::Fault;
use machine_value::Value;
use std::alloc::Global;

/// What a host answers.
pub enum Said {
    Given(Value),
    /// There is no value and no fault, which a place may say that asks for the value of no item.
    Absent,
    /// A fault, and more of them.
    Faults(Fault, Items<Fault>),
}

impl Said {
    ghost use Rattle.machine_host.specs.Said.{said_of};

    /// The value, where there is one, or the faults.
    pub fn into_result(self) -> std::result::Result<Option<Value>, (Fault, Items<Fault>)>
        ensures { said_of result ≡ self }
    {
        match self {
            Said::Given(value) => Ok(Some(value)),
            Said::Absent => Ok(None),
            Said::Faults(fault, more) => Err((fault, more)),
        }
    }
}

impl TryClone for Said {
    fn try_clone(&self, alloc: Global) -> Mem<Said> {
        match self {
            Said::Given(value) => Ok(Said::Given(value.try_clone(alloc)?)),
            Said::Absent => Ok(Said::Absent),
            Said::Faults(fault, more) => clone_faults(alloc, fault, more),
        }
    }
}

impl Drop for Said {
    fn drop(self) {
        match self {
            Said::Given(_value) => {}
            Said::Absent => {}
            Said::Faults(_fault, _more) => {}
        }
    }
}

fn clone_faults(alloc: Global, fault: &Fault, more: &Items<Fault>) -> Mem<Said>
    ensures { IfOk result (λ said. said ≡ Said.Faults fault.now more.now) }
{
    let fault = fault.try_clone(alloc)?;
    let more = more.try_clone(alloc)?;
    Ok(Said::Faults(fault, more))
}
