//! The machine: what programs do.
//!
//! It is defined on lists of statements, and knows no options and no filters.
#![tactic(auto)]

mod asked;
mod element;
mod laws;
mod word;

pub use asked::Asked;
pub use element::Element;
pub use laws::statements_run_in_order;
pub use machine_host::{
    Arg, Callable, Host, HostItem, Place, RefusingHost, Said, Use, named_type, what_fits_a_type,
};
pub use word::word_variant;
