//! The setting of a run, and what it says of types and functions.

ghost use Rattle.std.specs.Prelude.{◌≡◌, ◌∷◌, IfOk, Some};
ghost use Rattle.error_core.specs.Answers.{Answers};
ghost use Rattle.error_core.specs.ErrorView.{leaves};
ghost use Rattle.law_spans.specs.Erased.{erased_type};
ghost use Rattle.machine_leaf.specs.Defaults.{row_default};
ghost use Rattle.machine_steps.specs.Calls.{none_said};
ghost use Rattle.machine_steps.specs.Seen.{NothingSeen, seen_arg, seen_item};
ghost use Rattle.machine_read.specs.Scopes.{setting_in};
ghost use Rattle.machine_steps.specs.Convert as convert;
ghost use Rattle.machine_steps.specs.Convert.{declared_default, default_said};
ghost use Rattle.machine_steps.specs.Setting as spec;
ghost use Rattle.machine_steps.specs.Statements.{made_of_ident};
ghost use Rattle.meta_nested.specs.Cells.{AnswersCell, cell_at};

use crate::values::{inherit, spanned_value};
use base_core::{Items, Mem, Text, TryClone};
use codegen_program::Decls;
use error_core::{Error, Fail, Result};
use error_fault::Fault;
use machine_leaf::{Callable, leaf_default};
use machine_rows::{Row, element_among, row_among};
use machine_steps::{Arg, Host, HostItem, Place, Said, Use, named_type};
use machine_value::Value;
use meta_nested::Call;
use node_expr::Type;
use std::alloc::Global;
use tok_types::Span;

/// What a declaration is read under: the host, and the declarations of the program.
#[derive(Clone, Copy)]
pub struct Setting<'a, H> {
    pub host: &'a H,
    pub decls: &'a Decls,
}

impl<H: Host> Setting<'_, H> {
    /// The row that a type is.
    pub fn row(&self, alloc: Global, ty: &Type) -> Mem<Row>
        ensures { IfOk result (λ it. it ≡ spec.row (setting_in H.says self.now) ty.now) }
    {
        row_among(alloc, self.decls, ty)
    }

    /// The type of one value of a list that is read item by item.
    pub fn element<'t>(&self, ty: &'t Type) -> &'t Type
        ensures { result.now ≡ convert.element (setting_in H.says self.now) ty.now }
    {
        match element_among(self.decls, ty) {
            Some(inner) => inner,
            None => ty,
        }
    }

    /// What a function answers where it is asked for a type.
    pub fn ask(
        &self,
        alloc: Global,
        callable: &Callable,
        at: Use,
        ty: &Type,
        arg: Arg<'_>,
    ) -> Result<Value>
        ensures { Answers (λ it. it) result (spec.ask (setting_in H.says self.now) callable.now at ty.now (seen_arg arg.entry)) }
    {
        let place = Place {
            at,
            ty: ty.try_clone(alloc)?,
        };
        let said = self
            .host
            .answer(alloc, self.decls, Some(callable), &place, arg)?;
        said_outcome(alloc, said)
    }

    /// What a function answers in the place of no item; where it answers nothing, that is refused.
    pub fn ask_none(&self, alloc: Global, callable: &Callable, ty: &Type) -> Result<Value>
        ensures { Answers (λ it. it) result
            (none_said (spec.answer (setting_in H.says self.now) (Some (spec.without_places callable.now)) Use.FromNone ty.now NothingSeen)) }
    {
        let place = Place {
            at: Use::FromNone,
            ty: ty.try_clone(alloc)?,
        };
        let said = self
            .host
            .answer(alloc, self.decls, Some(callable), &place, Arg::Nothing)?;
        none_outcome(alloc, said)
    }

    /// What the host makes of the identifier that a type is read from.
    pub fn from_ident(&self, alloc: Global, ty: &Type, ident: Arg<'_>) -> Result<Value>
        ensures { Answers (λ it. it) result (made_of_ident (setting_in H.says self.now) ty.now (seen_arg ident.entry)) }
    {
        let place = Place {
            at: Use::FromIdent,
            ty: ty.try_clone(alloc)?,
        };
        let said = self.host.answer(alloc, self.decls, None, &place, ident)?;
        said_outcome(alloc, said)
    }

    /// The default of a type; the empty text, where it has none.
    pub fn default(&self, alloc: Global, ty: &Type) -> Mem<Value>
        ensures { IfOk result (λ it. it ≡ convert.default (setting_in H.says self.now) ty.now) }
    {
        let row = self.row(alloc, ty)?;
        match self.row_default(alloc, &row)? {
            Some(value) => Ok(value),
            None => Ok(Value::Text(Text::new(alloc))),
        }
    }

    /// The default of a row, where it has one.
    fn row_default(&self, alloc: Global, row: &Row) -> Mem<Option<Value>>
        ensures { IfOk result (λ it. it ≡ row_default (declared_default (setting_in H.says self.now)) (default_said (setting_in H.says self.now)) row.now) }
    {
        match row {
            Row::Unit => Ok(Some(Value::Unit)),
            Row::Leaf(leaf) => leaf_default(alloc, leaf),
            Row::Option(_) => Ok(Some(Value::Opt(None))),
            Row::Box(inner) => self.row_default(alloc, inner.get()),
            Row::Result(_) | Row::ResultMeta(_) | Row::WithOriginal(_) => Ok(None),
            Row::Override(_) => Ok(Some(inherit(alloc)?)),
            Row::SpannedValue(inner) => match self.row_default(alloc, inner.get())? {
                Some(value) => Ok(Some(spanned_value(alloc, value, Span::CallSite)?)),
                None => Ok(None),
            },
            Row::HashMap(_, _) | Row::BTreeMap(_, _) => Ok(Some(Value::Map(Items::new(alloc)))),
            Row::Vec(_) => Ok(Some(Value::List(Items::new(alloc)))),
            Row::Declared(number) => self.declared_default(alloc, *number),
            Row::Host(ty) => self.default_said(alloc, ty),
        }
    }

    /// The default of a declaration, where it has one.
    fn declared_default(&self, alloc: Global, number: usize) -> Mem<Option<Value>>
        ensures { IfOk result (λ it. it ≡ declared_default (setting_in H.says self.now) number) }
    {
        match self.decls.get(number) {
            Some(decl) => {
                let ty = named_type(alloc, decl.ident.text.as_str())?;
                self.default_said(alloc, &ty)
            }
            None => Ok(None),
        }
    }

    /// The default that the host says a type has, where it has one.
    fn default_said(&self, alloc: Global, ty: &Type) -> Mem<Option<Value>>
        ensures { IfOk result (λ it. it ≡ default_said (setting_in H.says self.now) ty.now) }
    {
        if !self.host.has_default(self.decls, ty) {
            return Ok(None);
        }
        Ok(Some(self.host.default_of(alloc, self.decls, ty)?))
    }

    /// What a type of the host answers to a call itself.
    pub(crate) fn host_cell(
        &self,
        alloc: Global,
        ty: &Type,
        call: Call<'_>,
    ) -> Result<Option<Value>>
        ensures { AnswersCell (λ it. it) result (cell_at (convert.host_cells (setting_in H.says self.now) ty.now) call.entry) }
    {
        match call {
            Call::Meta(it) => self.converted(alloc, ty, HostItem::Meta(it)),
            Call::List(items) => self.converted(alloc, ty, HostItem::Items(items)),
            Call::InvalidExpr(it) => self.converted(alloc, ty, HostItem::Bad(it)),
            Call::Absent => Ok(self.host.none_of(alloc, ty)?),
            _ => Ok(None),
        }
    }

    /// What the host converts.
    fn converted(&self, alloc: Global, ty: &Type, item: HostItem<'_>) -> Result<Option<Value>>
        ensures { AnswersCell (λ it. it) result (Some (spec.outcome_of ((H.says self.now.host.now).convert (erased_type ty.now) (seen_item item.entry)))) }
    {
        let said = self.host.convert(alloc, ty, item)?;
        Ok(Some(said_outcome(alloc, said)?))
    }
}

/// The value that is given, or the error of the faults. Nothing given is the empty text.
fn said_outcome(alloc: Global, said: Said) -> Result<Value>
    ensures { Answers (λ it. it) result (spec.outcome_of said) }
{
    match said.into_result() {
        Ok(Some(value)) => Ok(value),
        Ok(None) => Ok(Value::Text(Text::new(alloc))),
        Err((fault, more)) => Err(Fail::Faults(error_of(alloc, fault, more)?)),
    }
}

/// The value that is given, or the error of the faults. Nothing given is refused.
fn none_outcome(alloc: Global, said: Said) -> Result<Value>
    ensures { Answers (λ it. it) result (none_said said) }
{
    match said.into_result() {
        Ok(Some(value)) => Ok(value),
        Ok(None) => Err(Fail::Faults(Error::custom(alloc, "absent")?)),
        Err((fault, more)) => Err(Fail::Faults(error_of(alloc, fault, more)?)),
    }
}

/// The error of the faults.
fn error_of(alloc: Global, first: Fault, more: Items<Fault>) -> Mem<Error>
    ensures { IfOk result (λ error. leaves error ≡ first ∷ more) }
{
    let mut errors = Vec::new(alloc);
    errors.push(Error::from_fault(alloc, first)?)?;
    for fault in more.into_vec() {
        errors.push(Error::from_fault(alloc, fault)?)?;
    }
    Error::multiple(alloc, errors)
}
