//! Types around a type that is read: `Option`, `Boxed`, and `Result` that keeps an error or a meta.

use crate::by_type::ByType;
use crate::from_meta::FromMeta;
use base_core::Boxed;
use error_core::{Error, Result};
use meta_nested::Call;
use meta_reads::{box_cell, option_cell, result_cell, result_meta_cell};
use node_core::Meta;
use std::alloc::Global;
use std::result;

/// What the type inside reads. No item is `None`.
impl<T: FromMeta> FromMeta for Option<T> {
    ghost use Rattle.std.specs.Prelude.{Option, option_map};
    ghost use Rattle.meta_reads.specs.Wrappers.{option_cells};

    ghost Seen = { Option T.Seen };

    ghost seen = { option_map T.seen };

    ghost cells = { option_cells T.cells };

    fn cell(alloc: Global, call: Call<'_>) -> Result<Option<Option<T>>> {
        option_cell(alloc, &ByType::<T>::new(), call)
    }
}

/// What the type inside reads.
impl<T: FromMeta + Drop> FromMeta for Boxed<T> {
    ghost use Rattle.meta_reads.specs.Wrappers.{box_cells};

    ghost Seen = { T.Seen };

    ghost seen = { T.seen };

    ghost cells = { box_cells T.cells };

    fn cell(alloc: Global, call: Call<'_>) -> Result<Option<Boxed<T>>> {
        match box_cell(alloc, &ByType::<T>::new(), call)? {
            Some(value) => Ok(Some(Boxed::new(alloc, value)?)),
            None => Ok(None),
        }
    }
}

/// The answer with its error, where the type inside refuses the item.
impl<T: FromMeta> FromMeta for result::Result<T, Error> {
    ghost use Rattle.error_fault.specs.Outcome.{Outcome};
    ghost use Rattle.meta_reads.specs.Wrappers.{outcome_of, result_cells};

    ghost Seen = { Outcome T.Seen };

    ghost seen = { outcome_of T.seen };

    ghost cells = { result_cells T.cells };

    fn cell(alloc: Global, call: Call<'_>) -> Result<Option<result::Result<T, Error>>> {
        result_cell(alloc, &ByType::<T>::new(), call)
    }
}

/// The meta itself, where the type inside refuses it.
impl<T: FromMeta> FromMeta for result::Result<T, Meta> {
    ghost use Rattle.std.specs.Prelude.{Result};
    ghost use Rattle.node_core.specs.declared.attr.Meta.{Meta};
    ghost use Rattle.meta_reads.specs.Wrappers.{either_of, result_meta_cells};

    ghost Seen = { Result T.Seen Meta };

    ghost seen = { either_of T.seen };

    ghost cells = { result_meta_cells T.cells };

    fn cell(alloc: Global, call: Call<'_>) -> Result<Option<result::Result<T, Meta>>> {
        result_meta_cell(alloc, &ByType::<T>::new(), call)
    }
}
