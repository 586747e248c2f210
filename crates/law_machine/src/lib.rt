//! Laws of programs: what a declaration compiles to gives what the declaration means.
#![tactic(auto)]

mod laws;

pub use laws::{
    a_function_has_an_outcome, a_list_is_read_as_meant, a_program_reads_elements_as_meant,
    a_program_reads_what_is_meant, a_unit_can_be_run, a_unit_reads_what_is_meant,
    an_element_is_read_as_meant, an_input_has_an_outcome, an_input_is_read_as_meant,
};
