//! Where bytes come from: the trait of sources.

ghost use Rattle.std.specs.Prelude.{◌≡◌, ℕ, ◌^◌, ◌<◌, ◌≤◌, List, take, length, Option, IfOk, OnErr};
ghost use Rattle.std.specs.Io.KnownBytes.{Consumes, IsAtEnd};
ghost use Rattle.edge_core.specs.Faults.{HasRisen};
ghost use Rattle.edge_core.specs.Source.{IsUnread, given_bytes};

/// A read or a write failed. The source or the sink may be used again.
#[derive(Clone, Copy, Debug, PartialEq, Eq)]
pub struct Failed;

/// Where bytes come from.
///
/// After `Ok(0)` there is nothing more to read. After `Failed` the buffer may hold any bytes.
pub trait Source {
    // The bytes still to come, where the source tells them.
    ghost left: { Self → Option (List ℕ) };

    // How many reads failed. The count stands still at the last value of a `u64`.
    ghost faults: { Self → ℕ };

    // What else holds of a read into a buffer of some length, which gave some bytes or failed.
    ghost read_gives: { Self → ℕ → Option (List ℕ) → Self → Type 0 } = { λ _ _ _ _. Unit {0} };

    /// Puts bytes at the front of `buf` and says how many.
    fn read(&mut self, buf: &mut [u8]) -> Result<usize, Failed>
        requires { 0 < length buf.old }

        // The bytes, where they are told.
        ensures within { IfOk result (λ count. count ≤ length buf.new) }
        ensures given { IfOk result (λ count.
            Consumes (left self.old) (left self.new) (take count buf.new)) }
        ensures end { IfOk result (λ count. count ≡ 0 → IsAtEnd (left self.new)) }
        ensures unread { OnErr result (IsUnread (left self.old) (left self.new)) }

        // The faults.
        ensures fault { OnErr result (HasRisen (faults self.old) (faults self.new)) }
        ensures never_falls { faults self.old ≤ faults self.new }
        ensures fits { faults self.new < 2 ^ 64 }

        ensures gives { read_gives self.old (length buf.old) (given_bytes result buf.new) self.new };
}
