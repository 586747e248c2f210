//! Proved callers of the tool and of the machine: a host of one's own, and a run with it, step by step.
#![tactic(auto)]

mod run;
mod version_host;

pub use run::{accepts, written};
pub use version_host::VersionHost;
