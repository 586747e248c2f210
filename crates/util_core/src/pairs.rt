//! What a type reads, beside its place or the meta that it was read from, whatever reads the type.

ghost use Rattle.std.specs.Prelude.{◌≡◌};
ghost use Rattle.meta_core.specs.Cells.{AnswersCell, cell_at};
ghost use Rattle.util_core.specs.Pairs as spec;

use base_core::TryClone;
use error_core::Result;
use meta_core::{Call, Reader};
use node_core::Meta;
use node_span::Spanned;
use std::alloc::Global;
use tok_types::Span;

/// What the type inside reads, and where it stands: the word, the tokens of the list, the value behind the `=`, or the
/// whole item.
pub fn value_and_span_cell<R: Reader>(
    alloc: Global,
    inner: &R,
    call: Call<'_>,
) -> Result<Option<(R::Value, Span)>>
    requires { R.is_callable inner.now }
    ensures { AnswersCell (spec.seen_pair R.seen) result (cell_at (spec.value_and_span_cells (R.cells inner.now)) call.entry) }
{
    match call {
        Call::Value(lit) => Ok(Some((inner.from_value(alloc, lit)?, lit.spanned()))),
        Call::Expr(expr) => Ok(Some((inner.from_expr(alloc, expr)?, expr.spanned()))),
        Call::Meta(item) => Ok(Some((inner.from_meta(alloc, item)?, value_span(item)))),
        Call::NestedMeta(item) => Ok(Some((inner.from_nested_meta(alloc, item)?, item.spanned()))),
        _ => Ok(None),
    }
}

/// Where the value of a meta stands.
fn value_span(item: &Meta) -> Span
    ensures { result ≡ spec.value_span item.now }
{
    match item {
        Meta::Path(path) => path.spanned(),
        Meta::List(list) => list.tokens.spanned(),
        Meta::NameValue(pair) => pair.value.spanned(),
    }
}

/// Every meta that the type inside reads, and the meta.
pub fn value_and_meta_cell<R: Reader>(
    alloc: Global,
    inner: &R,
    call: Call<'_>,
) -> Result<Option<(R::Value, Meta)>>
    requires { R.is_callable inner.now }
    ensures { AnswersCell (spec.seen_pair R.seen) result (cell_at (spec.value_and_meta_cells (R.cells inner.now)) call.entry) }
{
    let Call::Meta(item) = call else {
        return Ok(None);
    };
    let original = item.try_clone(alloc)?;
    let value = inner.from_meta(alloc, item)?;
    Ok(Some((value, original)))
}
