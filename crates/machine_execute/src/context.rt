//! A program and its host.

ghost use Rattle.std.specs.Prelude.{◌≡◌, []};
ghost use Rattle.std.specs.Option.{option_copied};
ghost use Rattle.machine_read.specs.Machine.{unit_under as unit_under_in};
ghost use Rattle.machine_read.specs.Made.{named_type};
ghost use Rattle.machine_execute.specs.Order as spec;

use crate::order::unit_under;
use codegen_program::{Derive, Program, Unit};
use node_expr::Type;
use std::alloc::Global;

/// A program and its host.
pub(crate) struct Context<'p, H> {
    pub alloc: Global,
    pub host: &'p H,
    pub program: &'p Program,
    /// Whether its units stand in the order of their declarations.
    pub in_order: bool,
    /// The type of a slot that is not there.
    pub nameless: &'p Type,
    ghost is_nameless: { nameless.now ≡ named_type [] },
    ghost is_in_order: { in_order ≡ spec.are_in_order program.now.units },
}

impl<'p, H> Context<'p, H> {
    /// The first unit of the number under the derive.
    pub(crate) fn unit_under(&self, number: usize, derive: Derive) -> Option<&'p Unit>
        ensures { option_copied result ≡ unit_under_in self.now.program.now.units number derive }
    {
        unit_under(self.program.units.as_slice(), self.in_order, number, derive)
    }
}

impl<H> Drop for Context<'_, H> {
    fn drop(self) {
        let Self {
            alloc: _,
            host: _,
            program: _,
            in_order: _,
            nameless: _,
        } = self;
    }
}
