//! The declarations before one of them.

ghost use Rattle.std.specs.Prelude.{◌≡◌};
ghost use Rattle.machine_fit.specs.Fits as spec;

use codegen_program::{Derive, Unit};
use machine_types::Readers;

/// The declarations before that of the number `here`, by their units.
#[derive(Clone, Copy)]
pub(crate) struct Earlier<'p> {
    pub units: &'p [Unit],
    pub here: usize,
}

impl Readers for Earlier<'_> {
    ghost use Rattle.machine_fit.specs.Fits.{reads_before};

    ghost reads = { λ it derive number. reads_before it.units.now it.here derive number };

    fn read_by(&self, derive: Derive, number: usize) -> bool {
        number < self.here && is_read_by(self.units, derive, number)
    }
}

/// Whether a unit of the derive reads elements as the declaration of the number.
fn is_read_by(units: &[Unit], derive: Derive, number: usize) -> bool
    ensures { result ≡ spec.is_read_by units.now derive number }
{
    for unit in units {
        if unit.decl as usize == number && unit.derive == derive {
            return true;
        }
    }
    false
}
