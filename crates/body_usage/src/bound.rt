//! What bounds mention.

ghost use Rattle.std.specs.Prelude.{◌≡◌, ◌++◌, map, OnOk};
ghost use Rattle.body_usage.specs.Mentions.{all_of};
ghost use Rattle.body_usage.specs.Nodes.{bound_mentions, trait_bound_mentions};

use crate::list::push_all;
use crate::mentions::Mentions;
use crate::searched::Searched;
use base_core::Mem;
use node_expr::{TraitBound, TypeParamBound};

impl Searched for TypeParamBound {
    ghost mentions = { bound_mentions };

    #[cycle(search)]
    fn push_mentions<'n>(&'n self, in_qself: bool, found: &mut Mentions<'n>) -> Mem<()> {
        match self {
            TypeParamBound::Trait(bound) => bound.push_mentions(in_qself, found),
            TypeParamBound::Lifetime(it) => found.push_lifetime(it, in_qself),
        }
    }
}

impl Searched for TraitBound {
    ghost mentions = { trait_bound_mentions };

    #[cycle(search)]
    fn push_mentions<'n>(&'n self, in_qself: bool, found: &mut Mentions<'n>) -> Mem<()> {
        push_all(self.lifetimes.as_slice(), in_qself, found)?;
        self.path.push_mentions(in_qself, found)
    }
}

/// Adds what each bound mentions.
#[cycle(search)]
pub fn push_bounds<'n>(
    bounds: &'n [TypeParamBound],
    in_qself: bool,
    found: &mut Mentions<'n>,
) -> Mem<()>
    ensures { OnOk result (found.new ≡ found.old ++ all_of (map bound_mentions bounds.now) in_qself) }
{
    for bound in bounds {
        bound.push_mentions(in_qself, found)?;
    }
    Ok(())
}
