//! How a run reads items at types: the conversions of types that are known when it runs.
//!
//! A [`Reader`] is a type that is known at run time, which is read as `FromMeta` reads a type of Rust. A [`Scope`] is what types
//! are read under: the host and the declarations of the program, and what the declarations of lower numbers read.
#![tactic(auto)]

mod declared;
mod inside;
mod layer;
mod scope;
mod setting;
mod shown;
mod values;
mod wrapped;

pub use declared::Declared;
pub use machine_leaf::{Callable, Reader};
pub use machine_steps::{
    Arg, Asked, Element, Host, HostItem, Place, RefusingHost, Said, Use, named_type,
    what_fits_a_type,
};
pub use meta_nested::{Call, NestedMeta, items_of};
pub use scope::Scope;
pub use setting::Setting;
