//! Laws of options: what is compiled from them is of the declaration that they mean, so the program that a text of
//! declarations compiles to gives what the text means.
#![tactic(auto)]

mod laws;

pub use laws::{
    a_program_is_meant, a_text_has_one_program, input_options_are_meant, meta_options_are_meant,
};
pub use run_accepted::{Form, Host, RefusingHost, RenameTable, TableFail, earliest};
