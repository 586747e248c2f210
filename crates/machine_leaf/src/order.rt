//! Entries in the order of their texts.

ghost use Rattle.std.specs.Prelude.{◌≡◌, IfOk};
ghost use Rattle.machine_cells.specs.Texts.{by_text};

use base_core::{Items, Mem, Text};

/// The entries in the order of their texts; those of one text stay in theirs.
pub fn in_order<A: Drop>(entries: Items<(Text, A)>) -> Mem<Items<(Text, A)>>
    ensures { IfOk result (λ it. it ≡ by_text entries) }
{
    let mut sorted = entries.into_vec();
    sorted.sort_by(|a, b| a.0.cmp(&b.0))?;
    Ok(Items::from_vec(sorted))
}
