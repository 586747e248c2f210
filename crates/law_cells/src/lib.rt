//! Laws of conversions as values: what a type of the table reads fits the type.
#![tactic(auto)]

ghost use Rattle.law_cells.specs.Reads.{LeavesRead};

/// What a type of the table reads from items fits it.
pub fn what_a_type_reads_fits_it()
    ensures { LeavesRead }
{}
