//! Laws of what declarations mean: a value of what an item means fits the declaration.
#![tactic(auto)]

ghost use Rattle.law_fits.specs.Claims.{DeclaredFits};

/// A value of what an item means fits the declaration, by the laws of the host.
pub fn a_meant_value_fits()
    ensures { DeclaredFits }
{}
