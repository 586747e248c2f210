//! The state of a run and how far it has come: slots and faults, what is made, and what a variant is chosen by.
//!
//! A [`State`] is what statements change, a [`Progress`] how far they have come; a [`Receiver`] is what a function of a unit makes.
#![tactic(auto)]

mod chosen;
mod faults;
mod flat;
mod members;
mod progress;
mod receiver;
mod slot;
mod state;

pub use chosen::{
    Chosen, find_unit, find_variant, listed, located, refused, refused_format, text_of,
    unknown_name, unknown_value,
};
pub use faults::{again, error_of, faults_at, faults_in, known};
pub use flat::{check_errors, declare, declare_buffer, declare_errors, refuse_list};
pub use members::{alone, bare, form_of, member, push_member, struct_of, variant_of, wrapped};
pub use progress::Progress;
pub use receiver::Receiver;
pub use slot::Slot;
pub use state::State;
