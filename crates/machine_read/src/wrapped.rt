//! What a type that holds one type answers to a call itself.

ghost use Rattle.meta_nested.specs.Cells.{AnswersCell, cell_at};
ghost use Rattle.machine_leaf.specs.Wrapped.{hash_map_cells};
ghost use Rattle.machine_read.specs.Wrapped.{wrapper_cells};

use crate::declared::Declared;
use crate::inside::Inside;
use crate::scope::Scope;
use crate::shown::as_value;
use base_core::Text;
use error_core::Result;
use machine_leaf::{
    Reader, box_cell, entries_cell, option_cell, override_cell, result_cell, result_meta_cell,
    value_and_meta_cell, value_and_span_cell,
};
use machine_rows::{HashKey, Row, TreeKey, Wrapper};
use machine_steps::Host;
use machine_value::Value;
use meta_nested::Call;
use node_expr::Path;
use std::alloc::Global;
use std::collections::{BTreeSet, HashSet};
use tok_types::Ident;

/// By the name of the type, around the type that `inner` reads: what the type of Rust reads, shown.
pub(crate) fn wrapper_cell<H: Host, D: Declared, F>(
    alloc: Global,
    wrapper: Wrapper,
    inner: &Inside<'_, '_, H, D, F>,
    call: Call<'_>,
) -> Result<Option<Value>>
where
    F: Fn(&Scope<'_, H, D>, usize, &Row, Call<'_>) -> Result<Option<Value>>,
    requires { ⟦<Inside<'static, 'static, H, D, F> as Reader>⟧.is_callable inner.now }
    ensures { AnswersCell (λ it. it) result (cell_at (wrapper_cells wrapper (⟦<Inside<'static, 'static, H, D, F> as Reader>⟧.cells inner.now)) call.entry) }
{
    match wrapper {
        Wrapper::Option => as_value(alloc, option_cell(alloc, inner, call)),
        Wrapper::Box => box_cell(alloc, inner, call),
        Wrapper::Result => as_value(alloc, result_cell(alloc, inner, call)),
        Wrapper::ResultMeta => as_value(alloc, result_meta_cell(alloc, inner, call)),
        Wrapper::Override => as_value(alloc, override_cell(alloc, inner, call)),
        Wrapper::SpannedValue => as_value(alloc, value_and_span_cell(alloc, inner, call)),
        Wrapper::WithOriginal => as_value(alloc, value_and_meta_cell(alloc, inner, call)),
        Wrapper::HashMap(key) => map_cell(alloc, key, inner, call),
        Wrapper::BTreeMap(TreeKey::String) => map_cell(alloc, HashKey::String, inner, call),
        Wrapper::BTreeMap(TreeKey::Ident) => map_cell(alloc, HashKey::Ident, inner, call),
        Wrapper::Vec => Ok(None),
    }
}

/// A map, by the type of its keys.
fn map_cell<H: Host, D: Declared, F>(
    alloc: Global,
    key: HashKey,
    inner: &Inside<'_, '_, H, D, F>,
    call: Call<'_>,
) -> Result<Option<Value>>
where
    F: Fn(&Scope<'_, H, D>, usize, &Row, Call<'_>) -> Result<Option<Value>>,
    requires { ⟦<Inside<'static, 'static, H, D, F> as Reader>⟧.is_callable inner.now }
    ensures { AnswersCell (λ it. it) result (cell_at (hash_map_cells (⟦<Inside<'static, 'static, H, D, F> as Reader>⟧.cells inner.now) key) call.entry) }
{
    match key {
        HashKey::String => {
            as_value(
                alloc,
                entries_cell::<Text, BTreeSet<Text>, Inside<'_, '_, H, D, F>>(alloc, inner, call),
            )
        }
        HashKey::Ident => {
            as_value(
                alloc,
                entries_cell::<Ident, BTreeSet<Ident>, Inside<'_, '_, H, D, F>>(alloc, inner, call),
            )
        }
        HashKey::Path => {
            as_value(
                alloc,
                entries_cell::<Path, HashSet<Path>, Inside<'_, '_, H, D, F>>(alloc, inner, call),
            )
        }
    }
}
