//! What a run asks for when an option names a function, or a type is not of the table: the trait [`Host`]
//! with its laws, and the hosts of this workspace.
//!
//! A host is a record of functions to its contracts: it answers alike to what differs in spans alone, but for
//! the spans of an argument. What it gives fits the type that is asked for.
#![tactic(auto)]

mod arg;
mod host;
mod laws;
mod made;
mod place;
mod refusing;
mod said;

pub use arg::{Arg, HostItem};
pub use host::Host;
pub use laws::what_fits_a_type;
pub use made::{custom, named_type};
pub use place::{Place, Use};
pub use refusing::RefusingHost;
pub use said::Said;
pub use util_core::{Callable, FromMeta};
