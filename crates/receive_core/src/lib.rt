//! Receivers that are written by hand: types of several fields that are read from the items of an attribute, with all faults in
//! one pass.
//!
//! A [`Receiver`] asks a [`FieldReader`] for one field after another. [`Receiver::from_items`] then tells the faults in the
//! order of the items, and those of missing fields behind them, as a derived parser does; [`Receiver::from_attributes`] reads the
//! items of all attributes of some names so.
#![tactic(auto)]

mod collect;
mod fields;
mod items;
mod receiver;

pub use base_core::{Items, Mem, Text};
pub use error_core::{Error, Fail, Result};
pub use fields::FieldReader;
pub use meta_core::{Call, FromMeta, NestedMeta, items_of};
pub use node_core::Attribute;
pub use receiver::{Nested, Receiver};
