//! The laws. These functions do nothing: their clauses are the laws.

ghost use Rattle.run_source.specs.Claims.{AcceptedFits, AcceptedIsMeant};

/// What accepted declarations are compiled to is a program that is fit.
pub fn an_accepted_program_fits()
    ensures { AcceptedFits }
{}

/// The program of accepted declarations has a receiver, and on any item this has an outcome, which is what the item means
/// under the declarations.
pub fn an_accepted_program_is_meant()
    ensures { AcceptedIsMeant }
{}
