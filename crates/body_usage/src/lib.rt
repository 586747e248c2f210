//! Which type parameters and lifetimes the nodes of an item use.
//!
//! A node is walked once for the names that stand in it where a parameter's may; an answer has the
//! members of the given set among them. What has other nodes in it, as a field of another crate,
//! implements [`Searched`], and can then be asked by [`UsesTypeParams`] and [`UsesLifetimes`].
#![tactic(auto)]

mod ast;
mod bound;
mod data;
mod generics;
mod generics_ext;
mod laws;
mod lifetimes;
mod list;
mod mentions;
mod options;
mod path;
mod searched;
mod sets;
mod ty;
mod type_params;

pub use generics_ext::GenericsExt;
pub use laws::bound_impl_is_within_declare;
pub use lifetimes::{CollectLifetimes, UsesLifetimes};
pub use mentions::Mentions;
pub use options::{Options, Purpose};
pub use searched::Searched;
pub use sets::{IdentRefSet, IdentSet, LifetimeRefSet, LifetimeSet};
pub use type_params::{CollectTypeParams, UsesTypeParams};
