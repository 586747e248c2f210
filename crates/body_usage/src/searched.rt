//! What can be searched for names: the trait.

use crate::mentions::Mentions;
use base_core::Mem;

/// What can be searched for type parameters and lifetimes.
pub trait Searched {
    ghost use Rattle.std.specs.Prelude.{◌≡◌, ◌++◌, OnOk};
    ghost use Rattle.body_usage.specs.Mentions.{Mentioned};

    ghost mentions: { Self → Mentioned };

    /// Adds the names that it mentions behind those that were found. Inside of the type in front of
    /// a path, as in `<Self as Trait>::Item`, `in_qself` is true.
    fn push_mentions<'n>(&'n self, in_qself: bool, found: &mut Mentions<'n>) -> Mem<()>
        ensures { OnOk result (found.new ≡ found.old ++ mentions self.now in_qself) };
}
