//! Programs that are run on many elements.

ghost use Rattle.std.specs.Prelude.{◌≡◌, IfOk, Some};
ghost use Rattle.machine_execute.specs.Elements.{HasOutcome, element_of, machine_on};

use crate::context::Context;
use crate::machine::run_unit;
use crate::order::are_in_order;
use crate::outcome::Outcome;
use base_core::Mem;
use codegen_program::Program;
use machine_read::{Element, Host, named_type};
use std::alloc::Global;
use std::marker::Model;

/// A program, and what its runs share. To a contract it is the program.
///
/// It is made once where many elements are read: what it holds takes a look at each unit, as [`execute`](crate::execute) does for
/// each element.
pub struct Prepared<'p> {
    program: &'p Program,
    in_order: bool,
}

impl<'p> Model for Prepared<'p> {
    ghost use Rattle.std.specs.Prelude.{◌≡◌};
    ghost use Rattle.std.specs.Coded.{codes};
    ghost use Rattle.codegen_program.specs.contracts.program.Program as contents;
    ghost use Rattle.codegen_program.specs.declared.program.Program.{Program as ProgramSeen};
    ghost use Rattle.machine_execute.specs.Order.{are_in_order};

    ghost Value = { ProgramSeen };

    ghost coded = { Prim.hlevel (codes, contents.the_row.coded) };

    ghost view = { λ it. it.program.now };

    ghost invariant = { λ it. it.in_order ≡ are_in_order it.program.now.units };
}

impl Drop for Prepared<'_> {
    fn drop(self) {
        let Self {
            program: _,
            in_order: _,
        } = self;
    }
}

impl<'p> Prepared<'p> {
    /// The program, ready to be run.
    pub fn of(program: &'p Program) -> Prepared<'p>
        ensures { result ≡ program.now }
    {
        Prepared {
            program,
            in_order: are_in_order(program.units.as_slice()),
        }
    }

    /// What [`try_execute`](crate::try_execute) says of the program.
    pub fn try_execute<H: Host>(
        &self,
        alloc: Global,
        unit: u32,
        element: Element<'_>,
        host: &H,
    ) -> Mem<Option<Outcome>>
        ensures { IfOk result (λ found. found ≡ machine_on (H.says host.now) self.now unit (element_of element.entry)) }
    {
        let Some(unit) = self.program.units.get(unit as usize) else {
            return Ok(None);
        };
        let nameless = named_type(alloc, "")?;
        let context = Context {
            alloc,
            host,
            program: self.program,
            in_order: self.in_order,
            nameless: &nameless,
        };
        run_unit(&context, unit, element)
    }

    /// What [`execute`](crate::execute) says of the program.
    pub fn execute<H: Host>(
        &self,
        alloc: Global,
        unit: u32,
        element: Element<'_>,
        host: &H,
    ) -> Mem<Outcome>
        requires { HasOutcome (H.says host.now) self.now unit (element_of element) }
        ensures { IfOk result (λ outcome. machine_on (H.says host.now) self.now unit (element_of element.entry) ≡ Some outcome) }
    {
        match self.try_execute(alloc, unit, element, host)? {
            Some(outcome) => Ok(outcome),
            None => unreachable!(),
        }
    }
}
