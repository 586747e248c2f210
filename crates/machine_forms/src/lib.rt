//! What a program asks, unit by unit, and the names and forms that no run takes, whatever the host.
#![tactic(auto)]

mod ask;
mod forms;
mod names;
mod places;
mod refusals;
mod unfit;
mod units;

pub use ask::{Ask, Asked, push_unit};
pub use codegen_core::{Form, Unsupported};
pub use forms::{fallback_call, push_declared_forms, unsupported_forms};
pub use machine_steps::{Callable, Host, Place, Use, named_type, word_variant};
pub use names::{duplicate_names, repeated_names};
pub use places::{earliest, earliest_form};
pub use refusals::Refusals;
pub use unfit::Unfit;
pub use units::{asks_of, groups_of, is_receiver, item_flags};
