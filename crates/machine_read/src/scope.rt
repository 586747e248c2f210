//! What types are read under.

ghost use Rattle.std.specs.Prelude.{◌≡◌, IfOk, Some, codes};
ghost use Rattle.std.specs.Option.{option_copied};
ghost use Rattle.std.specs.Str.{bytes_eq};
ghost use Rattle.error_core.specs.Answers.{Answers, refusal};
ghost use Rattle.error_fault.specs.Outcome as outcomes;
ghost use Rattle.error_fault.specs.Outcome.{Outcome};
ghost use Rattle.machine_read.specs.Answers.{Maps};
ghost use Rattle.machine_read.specs.Scopes.{under};
ghost use Rattle.machine_steps.specs.Asked.{called_on};
ghost use Rattle.machine_steps.specs.Calls.{by_call, none_or_absent};
ghost use Rattle.machine_steps.specs.Convert as convert;
ghost use Rattle.machine_steps.specs.Reading as spec;
ghost use Rattle.machine_steps.specs.Setting.{called};
ghost use Rattle.machine_value.specs.declared.value.Value.{Value as Datum};
ghost use Rattle.tok_types.specs.Ident.{ident_text};

use crate::declared::Declared;
use crate::inside::{Inside, row_cell};
use crate::setting::Setting;
use base_core::{Mem, TryClone};
use codegen_program::PostfixTransform;
use error_core::{Error, Fail, Result};
use machine_leaf::{Callable, Reader};
use machine_steps::{Arg, Host, Use};
use machine_value::Value;
use meta_nested::{Call, MetaNameValueInvalidExpr, NestedMeta, spanned};
use node_expr::{Path, Type};
use node_span::Spanned;
use std::alloc::Global;
use tok_types::Ident;

/// What types are read under: the setting, and what the declarations that they may name read.
pub struct Scope<'a, H, D> {
    pub alloc: Global,
    pub setting: Setting<'a, H>,
    pub declared: &'a D,
}

impl<H: Host, D: Declared> Scope<'_, H, D> {
    /// An item at a type: a meta and a bad value by their calls, a literal by its own.
    pub fn convert(&self, room: usize, ty: &Type, item: &NestedMeta) -> Result<Value>
        requires { D.reads_within self.now.declared.now room }
        ensures { Answers (λ it. it) result (under H.says D.earlier self.now convert.convert ty.now item.now) }
    {
        let row = self.setting.row(self.alloc, ty)?;
        let inside = Inside {
            scope: self,
            room,
            row: &row,
            cell: row_cell::<H, D>,
        };
        inside.by_kind(self.alloc, item)
    }

    /// The items of a list at a type.
    pub fn list(&self, room: usize, ty: &Type, items: &[NestedMeta]) -> Result<Value>
        requires { D.reads_within self.now.declared.now room }
        ensures { Answers (λ it. it) result (under H.says D.earlier self.now convert.list ty.now items.now) }
    {
        let row = self.setting.row(self.alloc, ty)?;
        let inside = Inside {
            scope: self,
            room,
            row: &row,
            cell: row_cell::<H, D>,
        };
        inside.from_list(self.alloc, items)
    }

    /// What a type is without any item, where it is something.
    pub fn none(&self, room: usize, ty: &Type) -> Mem<Option<Value>>
        requires { D.reads_within self.now.declared.now room }
        ensures { IfOk result (λ it. it ≡ under H.says D.earlier self.now convert.none ty.now) }
    {
        let row = self.setting.row(self.alloc, ty)?;
        let inside = Inside {
            scope: self,
            room,
            row: &row,
            cell: row_cell::<H, D>,
        };
        inside.from_none(self.alloc)
    }

    /// What a type answers to a call, whichever it is. One that is nothing without an item refuses then.
    pub fn answer(&self, room: usize, ty: &Type, call: Call<'_>) -> Result<Value>
        requires { D.reads_within self.now.declared.now room }
        ensures { (element : Outcome Datum) → Answers (λ it. it) result
            (by_call (under H.says D.earlier self.now convert.cells ty.now) element (called_on call.entry)) }
    {
        let row = self.setting.row(self.alloc, ty)?;
        let inside = Inside {
            scope: self,
            room,
            row: &row,
            cell: row_cell::<H, D>,
        };
        let alloc = self.alloc;
        match call {
            Call::Word => inside.from_word(alloc),
            Call::List(items) => inside.from_list(alloc, items),
            Call::String(text, span) => inside.from_text(alloc, text, span),
            Call::Char(value) => inside.from_char(alloc, value),
            Call::Bool(value) => inside.from_bool(alloc, value),
            Call::Value(value) => inside.from_value(alloc, value),
            Call::Expr(expr) => inside.from_expr(alloc, expr),
            Call::InvalidExpr(value) => inside.from_invalid_expr(alloc, value),
            Call::Meta(item) => inside.from_meta(alloc, item),
            Call::NestedMeta(item) => inside.from_nested_meta(alloc, item),
            Call::Absent => or_absent(alloc, inside.from_none(alloc)?),
        }
    }

    /// What a transform makes of an answer; faults pass it by.
    pub fn transformed(
        &self,
        transform: Option<&PostfixTransform>,
        ty: &Type,
        answer: Result<Value>,
    ) -> Result<Value>
        ensures { Maps (under H.says D.earlier self.now spec.transformed (option_copied transform.entry) ty.now) answer result }
    {
        match transform {
            Some(transform) => match answer {
                Ok(value) => self.transform(transform, ty, &value),
                Err(fail) => Err(fail),
            },
            None => answer,
        }
    }

    /// What a transform makes of a value.
    fn transform(&self, transform: &PostfixTransform, ty: &Type, value: &Value) -> Result<Value>
        ensures { Answers (λ it. it) result (under H.says D.earlier self.now spec.transformed (Some transform.now) ty.now (outcomes.Value value.now)) }
    {
        let callable = callable_of(self.alloc, &transform.function)?;
        self.setting.ask(
            self.alloc,
            &callable,
            transform_use(transform),
            ty,
            Arg::Value(value),
        )
    }

    /// An item at the type of one value: by the field's own reader, where it has one, and then through its transform. A lone
    /// fault without a place stands at the item.
    #[tactic(auto, using(meta_nested::proofs::PlaceLemmas::answers_at))]
    pub fn read_at(
        &self,
        room: usize,
        with: Option<&Callable>,
        transform: Option<&PostfixTransform>,
        ty: &Type,
        item: &NestedMeta,
    ) -> Result<Value>
        requires { D.reads_within self.now.declared.now room }
        ensures { Answers (λ it. it) result
            (under H.says D.earlier self.now spec.read_at (option_copied with.entry) (option_copied transform.entry) ty.now item.now) }
    {
        let read = self.read_with(room, with, self.converted(transform, ty), item);
        spanned(self.transformed(transform, ty, read), item.spanned())
    }

    /// The type that is read: what the transform takes, else the type itself.
    fn converted<'t>(&'t self, transform: Option<&PostfixTransform>, ty: &'t Type) -> &'t Type
        ensures { result.now ≡ under H.says D.earlier self.now spec.converted (option_copied transform.entry) ty.now }
    {
        match transform {
            Some(transform) => match self.setting.host.takes(&transform.function) {
                Some(taken) => taken,
                None => ty,
            },
            None => ty,
        }
    }

    /// An item, by the field's own reader where it has one.
    fn read_with(
        &self,
        room: usize,
        with: Option<&Callable>,
        ty: &Type,
        item: &NestedMeta,
    ) -> Result<Value>
        requires { D.reads_within self.now.declared.now room }
        ensures { Answers (λ it. it) result (under H.says D.earlier self.now spec.read_with (option_copied with.entry) ty.now item.now) }
    {
        let Some(callable) = with else {
            return self.convert(room, ty, item);
        };
        match item {
            NestedMeta::Meta(it) => {
                self.setting
                    .ask(self.alloc, callable, Use::With, ty, Arg::Meta(it))
            }
            NestedMeta::Lit(_) => self.convert(room, ty, item),
            NestedMeta::NameValueInvalidExpr(it) => stored_fault(self.alloc, it),
        }
    }
}

/// The value, or that there is none.
fn or_absent(alloc: Global, value: Option<Value>) -> Result<Value>
    ensures { Answers (λ it. it) result (none_or_absent value) }
{
    match value {
        Some(value) => Ok(value),
        None => Err(Fail::Faults(Error::custom(alloc, "absent")?)),
    }
}

/// The stored fault of tokens that are no expression.
fn stored_fault(alloc: Global, it: &MetaNameValueInvalidExpr) -> Result<Value>
    ensures { Answers (λ value. value) result (refusal it.now.error) }
{
    Err(Fail::Faults(it.error.try_clone(alloc)?))
}

/// What the path calls.
fn callable_of(alloc: Global, path: &Path) -> Mem<Callable>
    ensures { IfOk result (λ it. it ≡ called path.now) }
{
    Callable::from_path(alloc, path.try_clone(alloc)?)
}

/// Where a transform is asked for.
fn transform_use(transform: &PostfixTransform) -> Use
    ensures { result ≡ spec.transform_use transform.now }
{
    if is_and_then(&transform.transformer) {
        Use::AndThen
    } else {
        Use::Map
    }
}

fn is_and_then(ident: &Ident) -> bool
    ensures { result ≡ bytes_eq (ident_text ident.now) (codes "and_then") }
{
    !ident.raw && ident.text.is("and_then")
}
