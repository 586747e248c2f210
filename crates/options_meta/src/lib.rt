//! Options of a declaration that derives `FromMeta`, and how every kind of options reads a declaration by stages: its own
//! attributes, then its members, then checks.
//!
//! All faults of a stage are told; a later stage is read only where the earlier has none.
#![tactic(auto)]

mod enum_checks;
mod from_meta;
mod names;
mod views;

pub use from_meta::FromMetaOptions;
pub use names::MetaName;
