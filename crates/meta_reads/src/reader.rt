//! The trait of what reads a type.

ghost use Rattle.std.specs.Prelude.{IfOk};
ghost use Rattle.error_core.specs.Answers.{Answers};
ghost use Rattle.meta_nested.specs.Cells.{AnswersCell, GivesNone, cell_at};
ghost use Rattle.meta_nested.specs.Dispatch as spec;
ghost use Rattle.meta_reads.specs.Asked.{answer};

use base_core::{Mem, TryClone};
use error_core::{Error, Fail, Result};
use meta_nested::{Call, MetaNameValueInvalidExpr, NestedMeta, items_of, spanned, without_groups};
use node_core::Meta;
use node_expr::{Expr, Lit};
use node_span::Spanned;
use std::alloc::{AllocError, Global};
use tok_types::Span;

/// What reads a type from a nested item of an attribute. A type of Rust is read by a reader without fields; a type that is
/// known when a run reads it is a reader with what is known of it.
///
/// A reader writes [`cell`](Reader::cell) alone: what its type answers to each call itself. The calls stand here, each with
/// its default, and are the same for all types: so a reader of a type's cells knows what each of its calls answers. A
/// lone fault without a place gets that of the literal, the expression or the item that was read.
pub trait Reader {
    ghost use Rattle.meta_nested.specs.Cells.{Cells};

    /// What is read.
    type Value;

    /// What contracts see of a value.
    ghost Seen: { Type 0 };

    ghost seen: { Self.Value → Seen };

    /// The cells in which the type differs from the defaults.
    ghost cells: { Self → Cells Seen };

    /// Whether it may be asked here.
    ghost is_callable: { Self → Type 0 };

    /// What the type answers to the call itself. `None` where it has no cell for it, and the default stands.
    fn cell(&self, alloc: Global, call: Call<'_>) -> Result<Option<Self::Value>>
        requires { is_callable self.now }
        ensures { AnswersCell seen result (cell_at (cells self.now) call.entry) };

    /// `path` alone. By default it is no format of the type.
    final fn from_word(&self, alloc: Global) -> Result<Self::Value>
        requires { is_callable self.now }
        ensures { Answers seen result (spec.from_word (cells self.now)) }
    {
        match self.cell(alloc, Call::Word)? {
            Some(it) => Ok(it),
            None => Err(Fail::Faults(Error::unsupported_format(alloc, "word")?)),
        }
    }

    /// The items of a list. By default it is no format of the type.
    final fn from_list(&self, alloc: Global, items: &[NestedMeta]) -> Result<Self::Value>
        requires { is_callable self.now }
        ensures { Answers seen result (spec.from_list (cells self.now) items.now) }
    {
        match self.cell(alloc, Call::List(items))? {
            Some(it) => Ok(it),
            None => Err(Fail::Faults(Error::unsupported_format(alloc, "list")?)),
        }
    }

    /// A string. What is parsed in it stands at `span`.
    final fn from_text(&self, alloc: Global, value: &str, span: Span) -> Result<Self::Value>
        requires { is_callable self.now }
        ensures { Answers seen result (spec.from_text (cells self.now) value.now span) }
    {
        match self.cell(alloc, Call::String(value, span))? {
            Some(it) => Ok(it),
            None => Err(Fail::Faults(Error::unexpected_type(alloc, "string")?)),
        }
    }

    /// A character. By default it is no value of the type.
    final fn from_char(&self, alloc: Global, value: char) -> Result<Self::Value>
        requires { is_callable self.now }
        ensures { Answers seen result (spec.from_char (cells self.now) value) }
    {
        match self.cell(alloc, Call::Char(value))? {
            Some(it) => Ok(it),
            None => Err(Fail::Faults(Error::unexpected_type(alloc, "char")?)),
        }
    }

    /// A Boolean. By default it is no value of the type.
    final fn from_bool(&self, alloc: Global, value: bool) -> Result<Self::Value>
        requires { is_callable self.now }
        ensures { Answers seen result (spec.from_bool (cells self.now) value) }
    {
        match self.cell(alloc, Call::Bool(value))? {
            Some(it) => Ok(it),
            None => Err(Fail::Faults(Error::unexpected_type(alloc, "bool")?)),
        }
    }

    /// A literal. By default a string, a character and a Boolean go by their calls, and no other is a value of the type.
    #[tactic(auto, using(meta_nested::proofs::PlaceLemmas::answers_at))]
    final fn from_value(&self, alloc: Global, value: &Lit) -> Result<Self::Value>
        requires { is_callable self.now }
        ensures { Answers seen result (spec.from_value (cells self.now) value.now) }
    {
        let answer = match self.cell(alloc, Call::Value(value)) {
            Ok(Some(it)) => Ok(it),
            Err(fail) => Err(fail),
            Ok(None) => match value {
                Lit::Str(it) => self.from_text(alloc, it.value.as_str(), it.span),
                Lit::Char(it) => self.from_char(alloc, it.value),
                Lit::Bool(it) => self.from_bool(alloc, it.value),
                other => Err(Fail::Faults(Error::unexpected_lit_type(alloc, other)?)),
            },
        };
        spanned(answer, value.spanned())
    }

    /// The value of `path = value`. By default invisible groups around it are looked through, a literal goes by
    /// [`from_value`](Reader::from_value), and no other expression is a value of the type.
    #[tactic(auto, using(meta_nested::proofs::PlaceLemmas::answers_at))]
    final fn from_expr(&self, alloc: Global, expr: &Expr) -> Result<Self::Value>
        requires { is_callable self.now }
        ensures { Answers seen result (spec.from_expr (cells self.now) expr.now) }
    {
        let answer = match self.cell(alloc, Call::Expr(expr)) {
            Ok(Some(it)) => Ok(it),
            Err(fail) => Err(fail),
            Ok(None) => match without_groups(expr) {
                Expr::Lit(it) => self.from_value(alloc, it),
                other => Err(Fail::Faults(Error::unexpected_expr_type(alloc, other)?)),
            },
        };
        spanned(answer, expr.spanned())
    }

    /// `path = tokens`, where the tokens are no expression. By default the answer is their stored fault.
    final fn from_invalid_expr(
        &self,
        alloc: Global,
        value: &MetaNameValueInvalidExpr,
    ) -> Result<Self::Value>
        requires { is_callable self.now }
        ensures { Answers seen result (spec.from_invalid_expr (cells self.now) value.now) }
    {
        match self.cell(alloc, Call::InvalidExpr(value))? {
            Some(it) => Ok(it),
            None => Err(Fail::Faults(value.error.try_clone(alloc)?)),
        }
    }

    /// A meta. By default a word, a list and a value go by their calls.
    #[tactic(auto, using(meta_nested::proofs::PlaceLemmas::answers_at))]
    final fn from_meta(&self, alloc: Global, item: &Meta) -> Result<Self::Value>
        requires { is_callable self.now }
        ensures { Answers seen result (spec.from_meta (cells self.now) item.now) }
    {
        let answer = match self.cell(alloc, Call::Meta(item)) {
            Ok(Some(it)) => Ok(it),
            Err(fail) => Err(fail),
            Ok(None) => match item {
                Meta::Path(_) => self.from_word(alloc),
                Meta::List(it) => match items_of(alloc, &it.tokens) {
                    Ok(items) => self.from_list(alloc, items.as_slice()),
                    Err(fail) => Err(fail),
                },
                Meta::NameValue(it) => self.from_expr(alloc, &it.value),
            },
        };
        spanned(answer, item.spanned())
    }

    /// A nested item. By default a meta, a literal and a bad value go by their calls.
    #[tactic(auto, using(meta_nested::proofs::PlaceLemmas::answers_at))]
    final fn from_nested_meta(&self, alloc: Global, item: &NestedMeta) -> Result<Self::Value>
        requires { is_callable self.now }
        ensures { Answers seen result (spec.from_nested_meta (cells self.now) item.now) }
    {
        let answer = match self.cell(alloc, Call::NestedMeta(item)) {
            Ok(Some(it)) => Ok(it),
            Err(fail) => Err(fail),
            Ok(None) => self.by_kind(alloc, item),
        };
        spanned(answer, item.spanned())
    }

    /// A nested item by its kind: a meta, a literal and a bad value by their calls.
    final fn by_kind(&self, alloc: Global, item: &NestedMeta) -> Result<Self::Value>
        requires { is_callable self.now }
        ensures { Answers seen result (spec.by_nested_meta (cells self.now) item.now) }
    {
        match item {
            NestedMeta::Meta(it) => self.from_meta(alloc, it),
            NestedMeta::Lit(it) => self.from_value(alloc, it),
            NestedMeta::NameValueInvalidExpr(it) => self.from_invalid_expr(alloc, it),
        }
    }

    /// No item at all: what the type is then, where it is something.
    final fn from_none(&self, alloc: Global) -> Mem<Option<Self::Value>>
        requires { is_callable self.now }
        ensures { IfOk result (λ found. GivesNone seen found (spec.from_none (cells self.now))) }
    {
        match self.cell(alloc, Call::Absent) {
            Ok(found) => Ok(found),
            Err(_) => Err(AllocError),
        }
    }

    /// The call, whichever it is. Of no item at all a type without a value for it answers that this is no format.
    final fn read(&self, alloc: Global, call: Call<'_>) -> Result<Self::Value>
        requires { is_callable self.now }
        ensures { Answers seen result (answer (cells self.now) call.entry) }
    {
        match call {
            Call::Word => self.from_word(alloc),
            Call::List(items) => self.from_list(alloc, items),
            Call::String(text, span) => self.from_text(alloc, text, span),
            Call::Char(value) => self.from_char(alloc, value),
            Call::Bool(value) => self.from_bool(alloc, value),
            Call::Value(value) => self.from_value(alloc, value),
            Call::Expr(expr) => self.from_expr(alloc, expr),
            Call::InvalidExpr(value) => self.from_invalid_expr(alloc, value),
            Call::Meta(item) => self.from_meta(alloc, item),
            Call::NestedMeta(item) => self.from_nested_meta(alloc, item),
            Call::Absent => match self.cell(alloc, call)? {
                Some(it) => Ok(it),
                None => Err(Fail::Faults(Error::unsupported_format(alloc, "nothing")?)),
            },
        }
    }
}
