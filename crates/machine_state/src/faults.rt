//! Faults of answers.

ghost use Rattle.std.specs.Prelude.{◌≡◌, ◌≢◌, [], IfOk, List};
ghost use Rattle.std.specs.Option.{option_copied};
ghost use Rattle.error_core.specs.Answers.{Answers, Fails};
ghost use Rattle.error_core.specs.ErrorView.{leaves};
ghost use Rattle.error_fault.specs.Faults.{at};
ghost use Rattle.error_fault.specs.Outcome.{Outcome, faults_of};
ghost use Rattle.machine_read.specs.Statements.{placed};
ghost use Rattle.machine_value.specs.declared.value.Value.{Value as Datum};
ghost use Rattle.machine_read.specs.NestedMeta.{NestedMeta as NestedSeen};
ghost use Rattle.machine_state.specs.Seen.{answered};

use base_core::{Items, Mem, Text};
use error_core::{Error, Fail};
use error_fault::Fault;
use machine_value::Value;
use std::alloc::{AllocError, Global};
use std::result::Result;

/// The faults of a list that is none.
pub fn faults_in(alloc: Global, fail: Fail) -> Mem<Items<Fault>>
    ensures { (outcome : Outcome (List NestedSeen)) → Fails fail outcome → IfOk result (λ faults. faults ≡ faults_of outcome) }
{
    match fail.into_error() {
        Some(error) => error.into_faults(alloc),
        None => Err(AllocError),
    }
}

/// The faults of an answer without value, in the field of the name.
pub fn faults_at(alloc: Global, fail: Fail, name: &Text) -> Mem<Items<Fault>>
    ensures { (outcome : Outcome Datum) → Fails fail outcome → IfOk result (λ faults. faults ≡ at (faults_of outcome) name.now) }
{
    match fail.into_error() {
        Some(error) => error.at(alloc, name.as_str())?.into_faults(alloc),
        None => Err(AllocError),
    }
}

/// The error of faults, of which there is one. They stand in the field of the name, where one is given.
pub fn error_of(alloc: Global, faults: Items<Fault>, location: Option<&Text>) -> Mem<Error>
    requires { faults ≢ [] }
    ensures { IfOk result (λ error. leaves error ≡ placed (option_copied location.entry) faults) }
{
    let error = error_among(alloc, faults)?;
    match location {
        Some(name) => error.at(alloc, name.as_str()),
        None => Ok(error),
    }
}

/// The error of faults, of which there is one.
fn error_among(alloc: Global, faults: Items<Fault>) -> Mem<Error>
    requires { faults ≢ [] }
    ensures { IfOk result (λ error. leaves error ≡ faults) }
{
    let mut errors = Vec::new(alloc);
    for fault in faults.into_vec() {
        errors.push(Error::from_fault(alloc, fault)?)?;
    }
    Error::multiple(alloc, errors)
}

/// The answer, where it is no want of memory.
pub fn known(answer: error_core::Result<Value>) -> Mem<Result<Value, Error>>
    ensures { (outcome : Outcome Datum) → Answers (λ it. it) answer outcome → IfOk result (λ it. answered it ≡ outcome) }
{
    match answer {
        Ok(value) => Ok(Ok(value)),
        Err(fail) => match fail.into_error() {
            Some(error) => Ok(Err(error)),
            None => Err(AllocError),
        },
    }
}

/// A known answer as any.
pub fn again(answer: Result<Value, Error>) -> error_core::Result<Value>
    ensures { Answers (λ it. it) result (answered answer) }
{
    match answer {
        Ok(value) => Ok(value),
        Err(error) => Err(Fail::Faults(error)),
    }
}
