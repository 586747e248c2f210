//! Derives that stand twice in a list.

ghost use Rattle.std.specs.Prelude.{◌≡◌, ◌<◌, IfOk};
ghost use Rattle.codegen_program.specs.Traits.{index_of};
ghost use Rattle.run_accepted.specs.Repeated as spec;

use crate::derives::Derived;
use base_core::{Items, Mem};
use codegen_program::Derive;
use std::alloc::Global;
use tok_types::Span;

/// Where the list repeats a derive that stands before.
pub fn repeated_derives(alloc: Global, derives: &[Derived]) -> Mem<Items<Span>>
    ensures { IfOk result (λ it. it ≡ spec.repeated_derives derives.now) }
{
    let mut seen = [false; 6];
    let mut repeated = Items::new(alloc);
    for it in derives {
        let index = index_of(it.derive);
        if seen[index] {
            repeated.push(it.span)?;
        }
        seen[index] = true;
    }
    Ok(repeated)
}

/// The derive's number among the six.
fn index_of(derive: Derive) -> usize
    ensures value { result ≡ index_of derive }
    ensures within { result < 6 }
{
    derive as usize
}
