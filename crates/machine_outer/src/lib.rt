//! What a run makes of the parts of an element: attributes that are kept, its identifier, and parts that stand as they are.
//!
//! [`Aside`] is what stands beside the state of a run: the attributes that are kept and the parts that were read. [`Parts`] are all
//! parts of an element for what is built; [`Parts::woven`] puts them where their fields are declared.
#![tactic(auto)]

mod aside;
mod attributes;
mod body;
mod ident;
mod parts;
mod syntax;
mod woven;

pub use aside::Aside;
pub use attributes::{attrs_outcome, passes};
pub use body::{ask_body, ask_generics};
pub use ident::{ident_among, ident_outcome};
pub use parts::{Parts, are_stored, part_named, part_value};
