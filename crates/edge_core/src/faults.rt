//! The count of a sink's failed writes.

ghost use Rattle.std.specs.Prelude.{◌≡◌};
ghost use Rattle.edge_core.specs.Faults.{next_count};

use crate::input::Failed;

/// Counts a fault. The count stands still at its last value.
pub(crate) fn count_fault(faults: &mut u64) -> Failed
    ensures { faults.new ≡ next_count faults.old }
{
    *faults = faults.saturating_add(1);
    Failed
}
