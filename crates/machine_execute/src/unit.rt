//! A unit: the outcomes of its functions.

ghost use Rattle.std.specs.Prelude.{◌≡◌, option_map};
ghost use Rattle.error_fault.specs.Outcome.{Value as ValueSeen};
ghost use Rattle.machine_read.specs.Asked.{asked_of};
ghost use Rattle.machine_read.specs.Elements.{OnNested, element_of};
ghost use Rattle.machine_read.specs.Machine as spec;
ghost use Rattle.machine_state.specs.Seen.{receiver_of};
ghost use Rattle.machine_state.specs.Steps.{IsOutcome};
ghost use Rattle.machine_read.specs.Cells.{AnswersCell, cell_at};
ghost use Rattle.machine_execute.specs.Units.{by_unit, cell_of, func_of, made_by, stmts_of};

use crate::context::Context;
use crate::units::or_unread;
use base_core::Mem;
use codegen_program::{Func, FuncName, MAX_NESTING, Stmt, Unit};
use error_core::{Error, Fail, Result};
use machine_read::{
    Asked, Call, Declared, Element, Host, NestedMeta, Reader, Scope, Setting, named_type,
};
use machine_run::{Run, Standing};
use machine_state::{Progress, Receiver, known};
use machine_value::Value;
use std::alloc::Global;
use std::result;

/// What a unit answers to a call of `FromMeta` itself: each function is the cell of its name.
pub(crate) fn unit_cell<H: Host, D: Declared>(
    context: &Context<'_, H>,
    earlier: &D,
    room: usize,
    unit: &Unit,
    call: Call<'_>,
) -> Result<Option<Value>>
    requires { D.reads_within earlier.now room }
    ensures { AnswersCell (λ it. it) result (cell_at (by_unit H.says D.earlier context.now earlier.now spec.unit_cells unit.now) call.entry) }
{
    let asked = Asked::Cell(call);
    match call {
        Call::Word => func_cell(context, earlier, room, FuncName::FromWord, unit, asked),
        Call::List(_) => func_cell(context, earlier, room, FuncName::FromList, unit, asked),
        Call::String(_, _) => func_cell(context, earlier, room, FuncName::FromString, unit, asked),
        Call::Expr(_) => func_cell(context, earlier, room, FuncName::FromExpr, unit, asked),
        Call::Meta(_) => func_cell(context, earlier, room, FuncName::FromMeta, unit, asked),
        Call::Absent => none_cell(context, earlier, room, unit),
        Call::Char(_)
        | Call::Bool(_)
        | Call::Value(_)
        | Call::InvalidExpr(_)
        | Call::NestedMeta(_) => Ok(None),
    }
}

/// What a function of a unit makes of what it is asked, as a cell: it is there where the unit has the function.
#[tactic(auto, using(crate::proofs::Cells::found_cell, crate::proofs::Cells::no_stmts))]
fn func_cell<H: Host, D: Declared>(
    context: &Context<'_, H>,
    earlier: &D,
    room: usize,
    name: FuncName,
    unit: &Unit,
    asked: Asked<'_>,
) -> Result<Option<Value>>
    requires { D.reads_within earlier.now room }
    ensures { AnswersCell (λ it. it) result (cell_of H.says D.earlier context.now earlier.now name unit.now (asked_of asked.entry)) }
{
    let Some(stmts) = stmts_named(unit.funcs.as_slice(), name) else {
        return Ok(None);
    };
    let found = run_stmts(context, earlier, room, unit, stmts, asked)?;
    Ok(Some(or_unread(context.alloc, found)?))
}

/// The value of a unit where no item stands; faults count as none.
#[tactic(auto, using(crate::proofs::Cells::none_found, crate::proofs::Cells::none_refused))]
fn none_cell<H: Host, D: Declared>(
    context: &Context<'_, H>,
    earlier: &D,
    room: usize,
    unit: &Unit,
) -> Result<Option<Value>>
    requires { D.reads_within earlier.now room }
    ensures { AnswersCell (λ it. it) result (option_map ValueSeen (by_unit H.says D.earlier context.now earlier.now spec.unit_cells unit.now).none) }
{
    let asked = Asked::Cell(Call::Absent);
    match func_cell(context, earlier, room, FuncName::FromNone, unit, asked) {
        Ok(found) => Ok(found),
        Err(fail) => match fail.into_error() {
            Some(_faults) => Ok(None),
            None => Err(Fail::NoMemory),
        },
    }
}

/// What a unit makes of an element of its derive's kind. None where it makes nothing.
pub(crate) fn unit_element<H: Host, D: Declared>(
    context: &Context<'_, H>,
    earlier: &D,
    room: usize,
    unit: &Unit,
    element: Element<'_>,
) -> Mem<Option<result::Result<Value, Error>>>
    requires { D.reads_within earlier.now room }
    ensures { IsOutcome result (by_unit H.says D.earlier context.now earlier.now spec.unit_element unit.now (element_of element.entry)) }
{
    let asked = Asked::Element(element);
    match element {
        Element::Nested(item) => read_nested(context, earlier, room, unit, item),
        Element::Input(_) => run_func(
            context,
            earlier,
            room,
            FuncName::FromDeriveInput,
            unit,
            asked,
        ),
        Element::Field(_) => run_func(context, earlier, room, FuncName::FromField, unit, asked),
        Element::Variant(_) => run_func(context, earlier, room, FuncName::FromVariant, unit, asked),
        Element::TypeParam(_) => run_func(
            context,
            earlier,
            room,
            FuncName::FromTypeParam,
            unit,
            asked,
        ),
        Element::Attributes(_) => run_func(
            context,
            earlier,
            room,
            FuncName::FromAttributes,
            unit,
            asked,
        ),
    }
}

/// What a unit reads from an item of a list.
fn read_nested<H: Host, D: Declared>(
    context: &Context<'_, H>,
    earlier: &D,
    room: usize,
    unit: &Unit,
    item: &NestedMeta,
) -> Mem<Option<result::Result<Value, Error>>>
    requires { D.reads_within earlier.now room }
    ensures { IsOutcome result (by_unit H.says D.earlier context.now earlier.now spec.unit_element unit.now (OnNested item.now)) }
{
    let reader = UnitReader {
        context,
        earlier,
        room,
        unit,
    };
    let answer = known(reader.by_kind(context.alloc, item))?;
    Ok(Some(answer))
}

/// The outcome of a unit's function, which may read the declarations of lower numbers. None where it has none.
#[tactic(auto, using(machine_run::proofs::Reading::named_ran))]
fn run_func<H: Host, D: Declared>(
    context: &Context<'_, H>,
    earlier: &D,
    room: usize,
    name: FuncName,
    unit: &Unit,
    asked: Asked<'_>,
) -> Mem<Option<result::Result<Value, Error>>>
    requires { D.reads_within earlier.now room }
    ensures { IsOutcome result (func_of H.says D.earlier context.now earlier.now name unit.now (asked_of asked.entry)) }
{
    match stmts_named(unit.funcs.as_slice(), name) {
        Some(stmts) => run_stmts(context, earlier, room, unit, stmts, asked),
        None => Ok(None),
    }
}

/// The statements of the first function of the name.
fn stmts_named(funcs: &[Func], name: FuncName) -> Option<&[Stmt]>
    ensures { option_map (λ stmts. stmts.now) result ≡ spec.stmts_named (spec.is_func name) funcs.now }
{
    for func in funcs {
        if name == func.name {
            return Some(func.stmts.as_slice());
        }
    }
    None
}

/// The outcome of statements of a unit. None where they have none.
fn run_stmts<H: Host, D: Declared>(
    context: &Context<'_, H>,
    earlier: &D,
    room: usize,
    unit: &Unit,
    stmts: &[Stmt],
    asked: Asked<'_>,
) -> Mem<Option<result::Result<Value, Error>>>
    requires { D.reads_within earlier.now room }
    ensures { IsOutcome result (stmts_of H.says D.earlier context.now earlier.now unit.now stmts.now (asked_of asked.entry)) }
{
    let ty = named_type(context.alloc, unit.ident.text.as_str())?;
    let receiver = Receiver {
        ty: &ty,
        ident: &unit.ident,
        derive: unit.derive,
        decl: context.program.decls.get(unit.decl as usize),
    };
    run_for(context, earlier, room, receiver, stmts, asked)
}

/// The outcome of statements that make this receiver. None where they have none.
fn run_for<H: Host, D: Declared>(
    context: &Context<'_, H>,
    earlier: &D,
    room: usize,
    receiver: Receiver<'_>,
    stmts: &[Stmt],
    asked: Asked<'_>,
) -> Mem<Option<result::Result<Value, Error>>>
    requires { D.reads_within earlier.now room }
    ensures { IsOutcome result (made_by H.says D.earlier context.now earlier.now (receiver_of receiver.entry) stmts.now (asked_of asked.entry)) }
{
    let run = Run {
        scope: Scope {
            alloc: context.alloc,
            setting: Setting {
                host: context.host,
                decls: &context.program.decls,
            },
            declared: earlier,
        },
        room,
        receiver,
        nameless: context.nameless,
    };
    let mut standing = Standing::new(context.alloc);
    let progress = run.run_from(asked, stmts, MAX_NESTING, &mut standing, Progress::Going)?;
    Ok(progress.outcome())
}

/// A unit, as a type that is read.
struct UnitReader<'c, H, D> {
    context: &'c Context<'c, H>,
    earlier: &'c D,
    room: usize,
    unit: &'c Unit,
}

impl<H: Host, D: Declared> Reader for UnitReader<'_, H, D> {
    ghost use Rattle.machine_read.specs.Machine.{unit_cells};
    ghost use Rattle.machine_execute.specs.Units.{by_unit};
    ghost use Rattle.machine_value.specs.declared.value.Value.{Value as Datum};

    type Value = Value;

    ghost Seen = { Datum };

    ghost seen = { λ it. it };

    ghost cells = { λ it. by_unit H.says D.earlier it.context.now it.earlier.now unit_cells it.unit.now };

    ghost is_callable = { λ it. D.reads_within it.earlier.now it.room };

    fn cell(&self, _alloc: Global, call: Call<'_>) -> Result<Option<Value>> {
        unit_cell(self.context, self.earlier, self.room, self.unit, call)
    }
}

impl<H, D> Drop for UnitReader<'_, H, D> {
    fn drop(self) {
        let Self {
            context: _,
            earlier: _,
            room: _,
            unit: _,
        } = self;
    }
}
