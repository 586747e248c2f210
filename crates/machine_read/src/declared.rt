//! What declarations read.

ghost use Rattle.machine_read.specs.Answers.{AnswersAsked};

use error_core::Result;
use machine_steps::Asked;
use machine_value::Value;
use std::alloc::Global;

/// What the declarations read that types may name, by their numbers.
pub trait Declared {
    ghost use Rattle.std.specs.Prelude.{ℕ, ◌≤◌};
    ghost use Rattle.machine_steps.specs.Reads.{Before};

    /// What they read.
    ghost earlier: { Self → Before };

    /// Whether they may be asked to read no deeper than a number of levels.
    ghost reads_within: { Self → ℕ → Type 0 };

    /// What may be read so deep may be read less deep.
    ghost reads_less: { (it : Self) (less room : ℕ) → less ≤ room → reads_within it room → reads_within it less };

    /// What the declaration of this number reads from what it is asked, no deeper than `room` levels. What would be deeper
    /// is want of memory. Nothing is read from a call that the declaration does not answer itself.
    fn read(
        &self,
        alloc: Global,
        room: usize,
        number: usize,
        asked: Asked<'_>,
    ) -> Result<Option<Value>>
        requires { reads_within self.now room }
        ensures { AnswersAsked result (earlier self.now number) asked.entry };
}
