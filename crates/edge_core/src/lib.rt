//! Where bytes come from and where they go.
//!
//! A [`Source`] gives bytes and a [`Sink`] takes them. Each counts its faults, so a caller that sees
//! a call fail also sees the count rise, and over one whose count is constant no call fails.
//! [`read_all`] reads to the end and [`write_all`] writes to the end. The memory and the plain ones
//! say exactly what each call does; those over std's readers and writers are the trusted edge.
#![tactic(auto)]

mod faults;
pub mod input;
mod kept;
pub mod memory;
pub mod output;
pub mod plain;
pub mod reading;
pub mod standard;
mod unread;
pub mod writing;

pub use input::{Failed, Source};
pub use memory::{MemorySink, MemorySource};
pub use output::Sink;
pub use plain::{PlainSink, PlainSource};
pub use reading::{ReadAll, read_all};
pub use standard::{StdSink, StdSource};
pub use writing::{WriteFault, write_all};
