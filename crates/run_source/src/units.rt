//! The receiver of a program.

ghost use Rattle.std.specs.Prelude.{◌≡◌, IfOk};
ghost use Rattle.run_source.specs.Receiver as spec;

use base_core::Mem;
use codegen_program::{Derive, Program, Unit};
use std::alloc::AllocError;

/// The number of the unit by which items of a text are read as the last declaration. A number that a `u32` can't hold is
/// want of memory.
pub fn receiver(program: &Program) -> Mem<Option<u32>>
    ensures { IfOk result (λ it. it ≡ spec.receiver program.now) }
{
    let count = program.decls.len();
    for (number, unit) in program.units.as_slice().iter().enumerate() {
        if is_receiver(unit, count) {
            return Ok(Some(u32::try_from(number).map_err(|_| AllocError)?));
        }
    }
    Ok(None)
}

/// Whether items of a text are read by the unit, as the last of so many declarations.
fn is_receiver(unit: &Unit, count: usize) -> bool
    ensures { result ≡ spec.is_receiver count unit.now }
{
    unit.decl as usize + 1 == count && unit.derive == Derive::FromDeriveInput
}
