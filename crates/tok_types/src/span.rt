//! Spans: where tokens stand.

ghost use Rattle.std.specs.Prelude.{◌≡◌};

use base_core::{Mem, TryClone};
use std::alloc::Global;

/// Where a token stands: nowhere in a text, or at the bytes from `start` to before `end` of the
/// text with the number `source`.
#[derive(Clone, Copy, Debug, PartialEq, Eq, Hash)]
pub enum Span {
    CallSite,
    At { source: u32, start: u32, end: u32 },
}

impl Span {
    ghost use Rattle.tok_types.specs.Span.{joined};

    pub fn call_site() -> Span
        ensures { result ≡ Span.CallSite }
    {
        Span::CallSite
    }

    /// From the start of this span to the end of `last`, where both are in one text; else this one.
    pub fn join(self, last: Span) -> Span
        ensures { result ≡ joined self last }
    {
        match (self, last) {
            (
                Span::At { source, start, .. },
                Span::At {
                    source: other,
                    end,
                    ..
                },
            ) => {
                if source == other {
                    Span::At { source, start, end }
                } else {
                    self
                }
            }
            _ => self,
        }
    }
}

impl TryClone for Span {
    fn try_clone(&self, _alloc: Global) -> Mem<Span> {
        Ok(*self)
    }
}
