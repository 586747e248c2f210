//! What a unit makes of an element: a value, or faults.

ghost use Rattle.std.specs.Prelude.{◌≡◌, ◌≢◌, [], Some, IfOk, option_map};
ghost use Rattle.std.specs.Option.{option_copied};
ghost use Rattle.error_fault.specs.Outcome as outcome;

use base_core::{Items, Mem, TryClone};
use error_fault::Fault;
use machine_value::Value;
use std::alloc::Global;
use std::marker::Model;

/// What a unit makes of an element: one value, or at least one fault.
///
/// Only a run of a unit makes one; elsewhere it can be cloned.
pub struct Outcome {
    answer: Option<Value>,
    faults: Items<Fault>,
}

impl Model for Outcome {
    ghost use Rattle.std.specs.Prelude.{IsTrue};
    ghost use Rattle.error_fault.specs.Outcome.{Outcome};
    ghost use Rattle.machine_value.specs.declared.value.Value.{Value as Datum};
    ghost use Rattle.machine_value.specs.contracts.value.Value as contents;
    ghost use Rattle.std.specs.Coded.{codes};

    ghost Value = { Outcome Datum };

    ghost coded = { Prim.hlevel (codes, contents.the_row.coded) };

    ghost use Rattle.machine_execute.specs.Outcome.{seen, is_one};

    ghost view = { λ it. seen it.answer it.faults };

    ghost invariant = { λ it. IsTrue (is_one it.answer it.faults) };
}

impl Outcome {
    ghost use Rattle.error_fault.specs.Outcome.{Value, value_of, faults_of};

    /// The value, where there is one. It takes no memory.
    pub fn value(&self) -> Option<&Value>
        ensures { option_copied result ≡ value_of self.now }
    {
        self.answer.as_ref()
    }

    /// The faults, none of which a value has. It takes no memory.
    pub fn faults(&self) -> &[Fault]
        ensures { result.now ≡ faults_of self.now }
    {
        self.faults.as_slice()
    }

    pub(crate) fn of(alloc: Global, value: Value) -> Outcome
        ensures { result ≡ outcome.Value value }
    {
        Outcome {
            answer: Some(value),
            faults: Items::new(alloc),
        }
    }

    pub(crate) fn refused(faults: Items<Fault>) -> Outcome
        requires { faults ≢ [] }
        ensures { faults_of result ≡ faults }
    {
        Outcome {
            answer: None,
            faults,
        }
    }
}

impl TryClone for Outcome {
    fn try_clone(&self, alloc: Global) -> Mem<Outcome> {
        Ok(Outcome {
            answer: self.answer.try_clone(alloc)?,
            faults: self.faults.try_clone(alloc)?,
        })
    }
}

impl Drop for Outcome {
    fn drop(self) {
        let Self {
            answer: _answer,
            faults: _faults,
        } = self;
    }
}
