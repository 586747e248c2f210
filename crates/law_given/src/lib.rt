//! Laws of programs that options give: each unit can be run on each element of its kind; one that fits its host has a
//! receiver; and what declarations compile to that are accepted is such a program.
#![tactic(auto)]

mod laws;

pub use laws::{
    a_fit_program_can_be_run, a_given_unit_has_an_outcome, a_given_unit_is_of_its_declaration,
    what_is_accepted_is_given, what_is_compiled_is_given,
};
