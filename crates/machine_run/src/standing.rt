//! How a run stands.

ghost use Rattle.std.specs.Prelude.{◌≡◌};
ghost use Rattle.machine_read.specs.Progress.{Going, no_aside, start};
ghost use Rattle.machine_run.specs.Steps.{reached};
ghost use Rattle.machine_state.specs.declared.progress.Progress.TheVariants as come;

use machine_outer::Aside;
use machine_state::State;
use std::alloc::Global;

/// How a run stands: its state, and what stands beside it.
pub struct Standing<'p> {
    pub state: State<'p>,
    pub aside: Aside,
}

impl<'p> Standing<'p> {
    /// No slot is declared yet, and nothing is kept or read.
    pub fn new(alloc: Global) -> Standing<'p>
        ensures { reached result come.Going ≡ Going start no_aside }
    {
        Standing {
            state: State::new(alloc),
            aside: Aside::new(alloc),
        }
    }

    /// Begins anew.
    pub(crate) fn restart(&mut self, alloc: Global)
        ensures { reached self.new come.Going ≡ Going start no_aside }
    {
        *self = Standing::new(alloc);
    }
}

impl Drop for Standing<'_> {
    fn drop(self) {
        let Self {
            state: _state,
            aside: _aside,
        } = self;
    }
}
