//! A count of comparisons.

ghost use Rattle.std.specs.Prelude.{◌≡◌};
ghost use Rattle.base_index.specs.Count.{raised};

use std::marker::Model;

/// A count of comparisons, which never falls and stays at its last value, 2^64 - 1.
#[derive(Drop)]
pub struct Tally {
    count: u64,
}

impl Model for Tally {
    ghost use Rattle.std.specs.Prelude.{ℕ};

    ghost Value = { ℕ };

    ghost view = { λ it. it.count };
}

impl Tally {
    /// A count of none.
    pub fn new() -> Tally
        ensures { result ≡ 0 }
    {
        Tally { count: 0 }
    }

    pub fn count(&self) -> u64
        ensures { result ≡ self.now }
    {
        self.count
    }

    /// One comparison more.
    pub(crate) fn step(&mut self)
        ensures { self.new ≡ raised self.old }
    {
        self.count = self.count.saturating_add(1);
    }
}
