//! How far a run has come.

ghost use Rattle.std.specs.Prelude.{◌≡◌, MatchOption, option_map};
ghost use Rattle.error_core.specs.Answers.{Answers};
ghost use Rattle.error_fault.specs.Outcome.{Outcome};
ghost use Rattle.machine_read.specs.Progress.{Built, outcome};
ghost use Rattle.machine_state.specs.Seen.{AsideSeen, IsBuilt, IsStopped, StateSeen, answered, progress_of};
ghost use Rattle.machine_state.specs.Steps.{Comes};
ghost use Rattle.machine_value.specs.declared.value.Value.{Value as Datum};

use crate::faults::known;
use base_core::Mem;
use error_core::Error;
use machine_value::Value;
use std::result::Result;

/// How far a run of a function has come. Its state stands beside it.
pub enum Progress {
    /// It goes on.
    Going,
    /// It has built the receiver, or met the faults of a default.
    Built(Result<Value, Error>),
    /// It has ended with faults.
    Ended(Error),
    /// It has no outcome: a slot had no value, or a statement stood where it may not.
    Stuck,
}

impl Progress {
    /// It has built what is answered.
    pub fn of(answer: error_core::Result<Value>) -> Mem<Progress>
        ensures { (outcome : Outcome Datum) → Answers (λ it. it) answer outcome → Comes (Built outcome) result }
    {
        Ok(Progress::Built(known(answer)?))
    }

    /// What a statement leaves that asks for a run that goes on, where this one does not. `None` where it goes on.
    pub fn over(self) -> Option<Progress>
        ensures { MatchOption result (self ≡ Progress.Going) (λ over. IsStopped self over) }
    {
        match self {
            Progress::Going => None,
            Progress::Built(_) => Some(Progress::Stuck),
            Progress::Ended(error) => Some(Progress::Ended(error)),
            Progress::Stuck => Some(Progress::Stuck),
        }
    }

    /// What was built, or else what a statement leaves that asks for it.
    pub fn built(self) -> Result<Result<Value, Error>, Progress>
        ensures { IsBuilt self result }
    {
        match self {
            Progress::Going => Err(Progress::Stuck),
            Progress::Built(answer) => Ok(answer),
            Progress::Ended(error) => Err(Progress::Ended(error)),
            Progress::Stuck => Err(Progress::Stuck),
        }
    }

    /// The outcome of a run that is over.
    pub fn outcome(self) -> Option<Result<Value, Error>>
        ensures { (state : StateSeen) (aside : AsideSeen) → option_map answered result ≡ outcome (progress_of state aside self) }
    {
        match self {
            Progress::Going | Progress::Stuck => None,
            Progress::Built(answer) => Some(answer),
            Progress::Ended(error) => Some(Err(error)),
        }
    }
}

impl Drop for Progress {
    fn drop(self) {
        match self {
            Progress::Going | Progress::Stuck => {}
            Progress::Built(_answer) => {}
            Progress::Ended(_error) => {}
        }
    }
}
