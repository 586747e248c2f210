//! A law of flat errors.

ghost use Rattle.error_core.specs.Changes.{FlatStays};

/// Flattening twice is flattening once, and the faults, hence their number, stay.
pub fn flat_stays_flat()
    ensures { FlatStays }
{}
