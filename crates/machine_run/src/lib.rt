//! Runs of the statements of a function: what each makes of the state of a run, and how far the run has come.
//!
//! A [`Run`] is what statements are run under; [`Run::run_from`] runs them on what is asked from one [`Progress`] to the next,
//! over a [`Standing`]: the state, and the attributes that are kept and the parts that were read.
#![tactic(auto)]

mod build;
mod calls;
mod forward;
mod items;
mod missing;
mod parts;
mod run;
mod standing;
mod variants;

pub use run::Run;
pub use standing::Standing;
