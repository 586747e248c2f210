//! Where bytes go: the trait of sinks.

ghost use Rattle.std.specs.Prelude.{ℕ, ◌^◌, ◌<◌, ◌≤◌, List, [], take, length, Bool, true, Option, IfOk, OnErr};
ghost use Rattle.std.specs.Result.{result_ok};
ghost use Rattle.edge_core.specs.Faults.{HasRisen};
ghost use Rattle.edge_core.specs.Sink.{Takes};

use crate::input::Failed;

/// Where bytes go.
pub trait Sink {
    // The bytes taken so far, where the sink tells them.
    ghost taken: { Self → Option (List ℕ) };

    // Whether a sink that tells may cease to. Where one tells after a write, it told before that
    // write. A sink for which this is false never ceases, but may begin to tell, as std's writers.
    ghost may_fall_silent: { Bool } = { true };

    // How many writes failed. The count stands still at the last value of a `u64`.
    ghost faults: { Self → ℕ };

    // What else holds of a write that was handed some bytes, and took a number of them or failed.
    ghost write_gives: { Self → List ℕ → Option ℕ → Self → Type 0 } = { λ _ _ _ _. Unit {0} };

    /// Takes bytes from the front of `bytes` and says how many.
    fn write(&mut self, bytes: &[u8]) -> Result<usize, Failed>
        requires { 0 < length bytes.now }

        // The bytes, where they are told.
        ensures progress { IfOk result (λ count. 0 < count) }
        ensures within { IfOk result (λ count. count ≤ length bytes.now) }
        ensures taken { IfOk result (λ count.
            Takes may_fall_silent (taken self.old) (taken self.new) (take count bytes.now)) }
        ensures none_taken { OnErr result (Takes may_fall_silent (taken self.old) (taken self.new) []) }

        // The faults.
        ensures fault { OnErr result (HasRisen (faults self.old) (faults self.new)) }
        ensures never_falls { faults self.old ≤ faults self.new }
        ensures fits { faults self.new < 2 ^ 64 }

        ensures gives { write_gives self.old bytes.now (result_ok result) self.new };
}
