//! Tokens that a reader takes whole.

ghost use Rattle.std.specs.Prelude.{◌≡◌, IfOk};
ghost use Rattle.syn_grammar.specs.Input.{Outcome};
ghost use Rattle.syn_grammar.specs.Reads.{Gives};
ghost use Rattle.syn_grammar.specs.Trees.{all};

use base_core::Mem;
use std::alloc::AllocError;
use syn_grammar::{Cursor, ReadFail};

/// What was read, if `left` says that nothing is left behind it.
pub fn all_of<A: Drop>(read: Result<A, ReadFail>, left: &Cursor<'_>) -> Mem<Option<A>>
    ensures { (outcome : Outcome A) → Gives outcome read left.now → IfOk result (λ found. found ≡ all outcome) }
{
    match read {
        Ok(found) => {
            if left.at_end() {
                Ok(Some(found))
            } else {
                Ok(None)
            }
        }
        Err(ReadFail::Syntax) => Ok(None),
        Err(ReadFail::NoMemory) => Err(AllocError),
    }
}
