//! A type of one's own that an attribute is read as.

ghost use Rattle.meta_core.specs.Answers.{Answers};
ghost use Rattle.meta_core.specs.Dispatch.{from_nested_meta};
ghost use Rattle.uses.specs.Verbosity.{verbosity_cells};

use meta_core::{Call, FromMeta, Lit, NestedMeta, Result};
use std::alloc::Global;

/// How much a program tells: `verbose` is 1, `verbose = "quiet"` is 0, and `verbose = 3` is 3.
pub struct Verbosity {
    pub level: u8,
}

impl Drop for Verbosity {
    fn drop(self) {
        let Self { level: _ } = self;
    }
}

impl FromMeta for Verbosity {
    ghost use Rattle.std.specs.Prelude.{ℕ};

    ghost Seen = { ℕ };

    ghost seen = { λ verbosity. verbosity.level };

    ghost cells = { verbosity_cells };

    fn cell(alloc: Global, call: Call<'_>) -> Result<Option<Verbosity>> {
        let level = match call {
            Call::Word => 1,
            Call::String("quiet", _) => 0,
            Call::Value(lit @ Lit::Int(_)) => u8::from_value(alloc, lit)?,
            _ => return Ok(None),
        };
        Ok(Some(Verbosity { level }))
    }
}

/// The verbosity that an item of an attribute asks for, or what is wrong with it.
pub fn verbosity_of(alloc: Global, item: &NestedMeta) -> Result<Verbosity>
    ensures { Answers (λ verbosity. verbosity.level) result (from_nested_meta verbosity_cells item.now) }
{
    Verbosity::from_nested_meta(alloc, item)
}
