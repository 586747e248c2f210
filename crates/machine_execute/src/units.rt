//! Units of a program: each declaration is read by the units of its number, and its types name those of lower numbers.

ghost use Rattle.std.specs.Prelude.{option_map};
ghost use Rattle.error_core.specs.Answers.{Answers};
ghost use Rattle.machine_read.specs.Answers.{AnswersAsked};
ghost use Rattle.machine_read.specs.Elements.{element_of};
ghost use Rattle.machine_read.specs.Machine as spec;
ghost use Rattle.machine_read.specs.Reads.{no_reads, unread as unread_outcome};
ghost use Rattle.machine_state.specs.Seen.{answered};
ghost use Rattle.machine_read.specs.Cells.{AnswersCell, cell_at};
ghost use Rattle.machine_execute.specs.Units.{cells_of, outer_of, reads_at, setting_at};

use crate::context::Context;
use crate::unit::{unit_cell, unit_element};
use codegen_program::Derive;
use error_core::{Error, Fail, Result};
use machine_read::{Asked, Call, Declared, Element, Host};
use machine_value::Value;
use std::alloc::Global;
use std::result;

/// What the declarations below a number read, each by its units.
pub(crate) struct Earlier<'p, H, F> {
    pub context: &'p Context<'p, H>,
    pub bound: usize,
    pub read: F,
}

impl<H: Host, F> Declared for Earlier<'_, H, F>
where
    F: Fn(&Context<'_, H>, usize, usize, Asked<'_>) -> Result<Option<Value>>,
{
    ghost use Rattle.std.specs.Prelude.{ℕ, ◌≤◌};
    ghost use Rattle.machine_execute.specs.Units.{ReadsBelow, earlier_at, reads-less};

    ghost earlier = { λ it. earlier_at H.says it.context.now it.bound };

    ghost reads_within = { λ it room. ReadsBelow H.says it.context.now it.bound room (F.pre it.read it.context) (F.post it.read it.context) };

    ghost reads_less = { λ it less room small within. reads-less small within };

    fn read(
        &self,
        alloc: Global,
        room: usize,
        number: usize,
        asked: Asked<'_>,
    ) -> Result<Option<Value>> {
        if number < self.bound {
            (self.read)(self.context, room, number, asked)
        } else {
            read_nothing(alloc, asked)
        }
    }
}

/// What a number reads that has no declaration: it answers no call, and each element is a fault.
#[tactic(auto, using(crate::proofs::Cells::no_cell))]
fn read_nothing(alloc: Global, asked: Asked<'_>) -> Result<Option<Value>>
    ensures { AnswersAsked result no_reads asked.entry }
{
    match asked {
        Asked::Cell(_) => Ok(None),
        Asked::Element(_) => Ok(Some(unread(alloc)?)),
    }
}

/// What the declaration of the number reads from what it is asked, no deeper than `room` levels. What would be deeper is
/// want of memory.
#[cycle(units)]
pub(crate) fn read_declared<H: Host>(
    context: &Context<'_, H>,
    room: usize,
    number: usize,
    asked: Asked<'_>,
) -> Result<Option<Value>>
    ensures { AnswersAsked result (reads_at H.says context.now number) asked.entry }
{
    if room == 0 {
        return Err(Fail::NoMemory);
    }
    let earlier = Earlier {
        context: &*context,
        bound: number,
        read: read_declared::<H>,
    };
    read_asked(&*context, &earlier, room - 1, number, asked)
}

/// What the declaration of the number reads from what it is asked, where these are the declarations of lower numbers.
pub(crate) fn read_asked<H: Host, D: Declared>(
    context: &Context<'_, H>,
    earlier: &D,
    room: usize,
    number: usize,
    asked: Asked<'_>,
) -> Result<Option<Value>>
    requires { D.reads_within earlier.now room }
    ensures { AnswersAsked result (spec.unit_reads (setting_at H.says context.now) context.now.program.now.units (D.earlier earlier.now) number) asked.entry }
{
    match asked {
        Asked::Cell(call) => read_call(context, earlier, room, number, call),
        Asked::Element(element) => Ok(Some(read_element(context, earlier, room, number, element)?)),
    }
}

/// What the declaration of the number answers to a call of `FromMeta` itself.
#[tactic(auto, using(crate::proofs::Cells::no_cell))]
fn read_call<H: Host, D: Declared>(
    context: &Context<'_, H>,
    earlier: &D,
    room: usize,
    number: usize,
    call: Call<'_>,
) -> Result<Option<Value>>
    requires { D.reads_within earlier.now room }
    ensures { AnswersCell (λ it. it) result (cell_at (cells_of H.says D.earlier context.now earlier.now number) call.entry) }
{
    match context.unit_under(number, Derive::FromMeta) {
        Some(unit) => unit_cell(context, earlier, room, unit, call),
        None => Ok(None),
    }
}

/// What the declaration of the number makes of an element.
fn read_element<H: Host, D: Declared>(
    context: &Context<'_, H>,
    earlier: &D,
    room: usize,
    number: usize,
    element: Element<'_>,
) -> Result<Value>
    requires { D.reads_within earlier.now room }
    ensures { Answers (λ it. it) result (outer_of H.says D.earlier context.now earlier.now number (element_of element.entry)) }
{
    match context.unit_under(number, element.derive()) {
        Some(unit) => {
            let found = unit_element(context, earlier, room, unit, element)?;
            or_unread(context.alloc, found)
        }
        None => unread(context.alloc),
    }
}

/// What was found; what has no outcome reads as a declaration that is not there.
pub(crate) fn or_unread(alloc: Global, found: Option<result::Result<Value, Error>>) -> Result<Value>
    ensures { Answers (λ it. it) result (spec.or_unread (option_map answered found)) }
{
    match found {
        Some(Ok(value)) => Ok(value),
        Some(Err(error)) => Err(Fail::Faults(error)),
        None => unread(alloc),
    }
}

/// The fault of a number that no unit reads.
fn unread(alloc: Global) -> Result<Value>
    ensures { Answers (λ it. it) result unread_outcome }
{
    Err(Fail::Faults(Error::custom(alloc, "no declaration")?))
}

impl<H, F: Drop> Drop for Earlier<'_, H, F> {
    fn drop(self) {
        let Self {
            context: _,
            bound: _,
            read: _read,
        } = self;
    }
}
