//! Which attributes are handed on, as an option says it.

ghost use Rattle.std.specs.Prelude.{◌↔◌, IsTrue};
ghost use Rattle.options_types.specs.ForwardAttrs.{ForwardsNone};

use base_core::{Mem, TryClone};
use error_core::Result;
use std::alloc::Global;
use util_core::{Call, FromMeta, PathList};

/// The attributes that are handed on: all, or those of these paths.
#[derive(PartialEq, Eq)]
pub enum ForwardAttrsFilter {
    /// `forward_attrs` alone.
    All,
    /// `forward_attrs(path, ..)`
    Only(PathList),
}

impl ForwardAttrsFilter {
    /// Whether no attribute is handed on.
    pub fn is_empty(&self) -> bool
        ensures { IsTrue result ↔ ForwardsNone self.now }
    {
        match self {
            ForwardAttrsFilter::All => false,
            ForwardAttrsFilter::Only(paths) => paths.is_empty(),
        }
    }
}

impl Drop for ForwardAttrsFilter {
    fn drop(self) {
        match self {
            ForwardAttrsFilter::All => {}
            ForwardAttrsFilter::Only(_paths) => {}
        }
    }
}

impl TryClone for ForwardAttrsFilter {
    fn try_clone(&self, alloc: Global) -> Mem<ForwardAttrsFilter> {
        match self {
            ForwardAttrsFilter::All => Ok(ForwardAttrsFilter::All),
            ForwardAttrsFilter::Only(paths) => {
                Ok(ForwardAttrsFilter::Only(paths.try_clone(alloc)?))
            }
        }
    }
}

/// A word, or the paths of a list.
impl FromMeta for ForwardAttrsFilter {
    ghost use Rattle.options_types.specs.ForwardAttrs.{forward_cells};
    ghost use Rattle.options_types.specs.declared.forward_attrs.ForwardAttrsFilter.{ForwardAttrsFilter};

    ghost Seen = { ForwardAttrsFilter };

    ghost seen = { λ it. it };

    ghost cells = { forward_cells };

    fn cell(alloc: Global, call: Call<'_>) -> Result<Option<ForwardAttrsFilter>> {
        match call {
            Call::Word => Ok(Some(ForwardAttrsFilter::All)),
            Call::List(items) => {
                let paths = PathList::from_list(alloc, items)?;
                Ok(Some(ForwardAttrsFilter::Only(paths)))
            }
            _ => Ok(None),
        }
    }
}
