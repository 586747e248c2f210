//! Errors that are collected while an input is read.

ghost use Rattle.std.specs.Prelude.{◌≡◌, ◌↔◌, ◌++◌, ◌∷◌, [], OnOk, OnErr, IsOk, IfErr};
ghost use Rattle.error_fault.specs.Outcome.{Value, settle};
ghost use Rattle.error_core.specs.ErrorView.{held};
ghost use Rattle.error_core.specs.Answers.{Answers, Handles, IsJoined};

use crate::error::Error;
use crate::fail::{Fail, Result};
use base_core::Mem;
use std::alloc::{AllocError, Global};
use std::marker::Model;

/// The errors of a reading, in order. It is no `Drop`: a program in which one is let go does not
/// compile, so it is spent by [`finish`](Accumulator::finish),
/// [`finish_with`](Accumulator::finish_with), [`checkpoint`](Accumulator::checkpoint) or
/// [`into_inner`](Accumulator::into_inner).
///
/// A function whose calls answer by `?` cannot own one meanwhile. So the owner makes it and spends it,
/// and lends it to the function that reads.
///
/// ```
/// let mut errors = Error::accumulator(alloc);
/// match collect(alloc, fields.as_slice(), &mut errors) {
///     Ok(()) => errors.finish_with(fields),
///     Err(_) => {
///         let _errors = errors.into_inner();
///         Err(Fail::NoMemory)
///     }
/// }
/// ```
pub struct Accumulator {
    errors: Vec<Error>,
    alloc: Global,
}

impl Model for Accumulator {
    ghost use Rattle.std.specs.Prelude.{List};
    ghost use Rattle.error_core.specs.ErrorView.{ErrorView};
    ghost use Rattle.std.specs.Coded.{coded_list};
    ghost use Rattle.error_core.specs.contracts.error.Error as error;

    ghost Value = { List ErrorView };

    ghost coded = { coded_list error.the_row.coded };

    ghost view = { λ accumulator. accumulator.errors.items };
}

impl Error {
    /// No error yet. It takes no memory, and keeps `alloc` for the calls that spend it.
    pub fn accumulator(alloc: Global) -> Accumulator
        ensures { result ≡ [] }
    {
        Accumulator {
            errors: Vec::new(alloc),
            alloc,
        }
    }
}

impl Accumulator {
    /// Puts the error behind the others. Want of memory drops it, and the others stay.
    pub fn push(&mut self, _alloc: Global, error: Error) -> Mem<()>
        ensures ok { OnOk result (self.new ≡ self.old ++ error ∷ []) }
        ensures err { OnErr result (self.new ≡ self.old) }
    {
        self.errors.push(error)?;
        Ok(())
    }

    /// Puts the errors behind the others: all of them or, for want of memory, none.
    pub fn extend(&mut self, _alloc: Global, errors: Vec<Error>) -> Mem<()>
        ensures ok { OnOk result (self.new ≡ self.old ++ errors.items) }
        ensures err { OnErr result (self.new ≡ self.old) }
    {
        let mut errors = errors;
        self.errors.append(&mut errors)
    }

    /// The value. Where the outcome has faults, these are collected and the answer is `None`; want of
    /// memory is handed on.
    pub fn handle<T>(&mut self, alloc: Global, outcome: Result<T>) -> Mem<Option<T>>
        ensures { Handles outcome self.old result self.new }
    {
        match outcome {
            Ok(value) => Ok(Some(value)),
            Err(fail) => {
                let Some(error) = fail.into_error() else {
                    return Err(AllocError);
                };
                self.push(alloc, error)?;
                Ok(None)
            }
        }
    }

    /// [`handle`](Accumulator::handle) of what the function answers, so that `?` can be written in it.
    pub fn handle_in<T, F: FnOnce() -> Result<T>>(&mut self, alloc: Global, f: F) -> Mem<Option<T>>
        requires { F.IsAlwaysCallable f }
        ensures { (answer : _) × F.post f answer × Handles answer self.old result self.new }
    {
        self.handle(alloc, f())
    }

    /// The errors in order.
    pub fn into_inner(self) -> Vec<Error>
        ensures { result.items ≡ self }
    {
        let Accumulator { errors, alloc: _ } = self;
        errors
    }

    /// `()` where no error was collected; else all of them as one, by [`Error::multiple`].
    pub fn finish(self) -> Result<()>
        ensures answer { Answers (λ value. value) result (settle (held self) (Value tt)) }
        ensures error { IfErr result (IsJoined self) }
        ensures value { IsOk result ↔ (self ≡ []) }
    {
        self.finish_with(())
    }

    /// The value where no error was collected; else all of them as one, by [`Error::multiple`].
    pub fn finish_with<T: Drop>(self, success: T) -> Result<T>
        ensures answer { Answers (λ value. value) result (settle (held self) (Value success)) }
        ensures error { IfErr result (IsJoined self) }
        ensures value { IsOk result ↔ (self ≡ []) }
    {
        let Accumulator { errors, alloc } = self;
        if errors.is_empty() {
            return Ok(success);
        }
        Err(Fail::Faults(Error::multiple(alloc, errors)?))
    }

    /// A fresh accumulator where no error was collected; else all of them as one.
    pub fn checkpoint(self) -> Result<Accumulator>
        ensures answer { Answers (λ fresh. fresh) result (settle (held self) (Value [])) }
        ensures error { IfErr result (IsJoined self) }
        ensures value { IsOk result ↔ (self ≡ []) }
    {
        let alloc = self.alloc;
        self.finish()?;
        Ok(Error::accumulator(alloc))
    }
}
