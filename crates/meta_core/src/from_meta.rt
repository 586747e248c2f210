//! The trait of types that are read from a nested item.

ghost use Rattle.std.specs.Prelude.{◌≡◌, IfOk};
ghost use Rattle.error_core.specs.Answers.{Answers};
ghost use Rattle.meta_nested.specs.Cells.{AnswersCell, Cells, GivesNone, cell_at};
ghost use Rattle.meta_nested.specs.Dispatch as spec;

use crate::by_type::ByType;
use base_core::Mem;
use error_core::Result;
use meta_nested::{Call, MetaNameValueInvalidExpr, NestedMeta};
use meta_reads::Reader;
use node_core::Meta;
use node_expr::{Expr, Lit};
use std::alloc::Global;
use tok_types::Span;

/// A type that is read from a nested item of an attribute, as in `#[my(name = "x", count = 3)]`.
///
/// A type writes [`cell`](FromMeta::cell) alone: what it answers to each call itself. The calls are those of its reader,
/// [`ByType`], each with its default, and are the same for all types: so a reader of a type's cells knows what each of its
/// calls answers. A lone fault without a place gets that of the literal, the expression or the item that was read.
///
/// ```
/// fn cell(alloc: Global, call: Call<'_>) -> Result<Option<Verbosity>> {
///     let level = match call {
///         Call::Word => 1,
///         Call::String("quiet", _) => 0,
///         Call::Value(lit @ Lit::Int(_)) => u8::from_value(alloc, lit)?,
///         _ => return Ok(None),
///     };
///     Ok(Some(Verbosity { level }))
/// }
/// ```
pub trait FromMeta: Sized {
    /// What contracts see of a value.
    ghost Seen: { Type 0 };

    ghost seen: { Self → Seen };

    /// The cells in which the type differs from the defaults.
    ghost cells: { Cells Seen };

    /// What the type answers to the call itself. `None` where it has no cell for it, and the default stands.
    fn cell(alloc: Global, call: Call<'_>) -> Result<Option<Self>>
        ensures { AnswersCell seen result (cell_at cells call.entry) };

    /// `path` alone. By default it is no format of the type.
    final fn from_word(alloc: Global) -> Result<Self>
        ensures { Answers seen result (spec.from_word cells) }
    {
        ByType::<Self>::new().from_word(alloc)
    }

    /// The items of a list. By default it is no format of the type.
    final fn from_list(alloc: Global, items: &[NestedMeta]) -> Result<Self>
        ensures { Answers seen result (spec.from_list cells items.now) }
    {
        ByType::<Self>::new().from_list(alloc, items)
    }

    /// A string. What is parsed in it stands at `span`.
    final fn from_text(alloc: Global, value: &str, span: Span) -> Result<Self>
        ensures { Answers seen result (spec.from_text cells value.now span) }
    {
        ByType::<Self>::new().from_text(alloc, value, span)
    }

    /// A string that stands nowhere in a text.
    final fn from_string(alloc: Global, value: &str) -> Result<Self>
        ensures { Answers seen result (spec.from_string cells value.now) }
    {
        Self::from_text(alloc, value, Span::CallSite)
    }

    /// A character. By default it is no value of the type.
    final fn from_char(alloc: Global, value: char) -> Result<Self>
        ensures { Answers seen result (spec.from_char cells value) }
    {
        ByType::<Self>::new().from_char(alloc, value)
    }

    /// A Boolean. By default it is no value of the type.
    final fn from_bool(alloc: Global, value: bool) -> Result<Self>
        ensures { Answers seen result (spec.from_bool cells value) }
    {
        ByType::<Self>::new().from_bool(alloc, value)
    }

    /// A literal. By default a string, a character and a Boolean go by their calls, and no other is a value of the
    /// type.
    final fn from_value(alloc: Global, value: &Lit) -> Result<Self>
        ensures { Answers seen result (spec.from_value cells value.now) }
    {
        ByType::<Self>::new().from_value(alloc, value)
    }

    /// The value of `path = value`. By default invisible groups around it are looked through, a literal goes by
    /// [`from_value`](FromMeta::from_value), and no other expression is a value of the type.
    final fn from_expr(alloc: Global, expr: &Expr) -> Result<Self>
        ensures { Answers seen result (spec.from_expr cells expr.now) }
    {
        ByType::<Self>::new().from_expr(alloc, expr)
    }

    /// `path = tokens`, where the tokens are no expression. By default the answer is their stored fault.
    final fn from_invalid_expr(alloc: Global, value: &MetaNameValueInvalidExpr) -> Result<Self>
        ensures { Answers seen result (spec.from_invalid_expr cells value.now) }
    {
        ByType::<Self>::new().from_invalid_expr(alloc, value)
    }

    /// A meta. By default a word, a list and a value go by their calls.
    final fn from_meta(alloc: Global, item: &Meta) -> Result<Self>
        ensures { Answers seen result (spec.from_meta cells item.now) }
    {
        ByType::<Self>::new().from_meta(alloc, item)
    }

    /// A nested item. By default a meta, a literal and a bad value go by their calls.
    final fn from_nested_meta(alloc: Global, item: &NestedMeta) -> Result<Self>
        ensures { Answers seen result (spec.from_nested_meta cells item.now) }
    {
        ByType::<Self>::new().from_nested_meta(alloc, item)
    }

    /// No item at all: what the type is then, where it is something.
    final fn from_none(alloc: Global) -> Mem<Option<Self>>
        ensures { IfOk result (λ found. GivesNone seen found (spec.from_none cells)) }
    {
        ByType::<Self>::new().from_none(alloc)
    }
}
