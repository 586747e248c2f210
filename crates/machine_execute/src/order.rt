//! Units by the numbers of their declarations.
//!
//! What options give stands in the order of the declarations, so that a unit is found in few steps. Other units are walked.

ghost use Rattle.std.specs.Prelude.{◌≡◌, ◌<◌, ◌≤◌, ℕ, true, length};
ghost use Rattle.std.specs.Option.{option_copied};
ghost use Rattle.machine_read.specs.Machine.{unit_under as unit_under_in};
ghost use Rattle.machine_execute.specs.Order as spec;
ghost use Rattle.machine_execute.specs.Order.{number_at};

use codegen_program::{Derive, Unit};

/// Whether the units stand in the order of their declarations.
pub(crate) fn are_in_order(units: &[Unit]) -> bool
    ensures { result ≡ spec.are_in_order units.now }
{
    let mut last = 0;
    for unit in units {
        if unit.decl < last {
            return false;
        }
        last = unit.decl;
    }
    true
}

/// The first unit of the number under the derive.
pub(crate) fn unit_under(
    units: &[Unit],
    in_order: bool,
    number: usize,
    derive: Derive,
) -> Option<&Unit>
    requires { in_order ≡ spec.are_in_order units.now }
    ensures { option_copied result ≡ unit_under_in units.now number derive }
{
    for at in first_of(units, in_order, number)..units.len() {
        let unit = &units[at];
        if in_order && unit.decl as usize > number {
            return None;
        }
        if unit.decl as usize == number && unit.derive == derive {
            return Some(unit);
        }
    }
    None
}

/// A place before which all units are of lower numbers. Where the units stand in order, none of these stands behind it.
fn first_of(units: &[Unit], in_order: bool, number: usize) -> usize
    requires { in_order ≡ spec.are_in_order units.now }
    ensures within { result ≤ length units.now }
    ensures before { (i : ℕ) → i < result → number_at units.now i < number }
    ensures behind { in_order ≡ true → (i : ℕ) → result ≤ i → i < length units.now → number ≤ number_at units.now i }
{
    let mut low = 0;
    let mut size = if in_order { units.len() } else { 0 };
    while size > 0 {
        let half = size / 2;
        if (units[low + half].decl as usize) < number {
            low += half + 1;
            size -= half + 1;
        } else {
            size = half;
        }
    }
    low
}
