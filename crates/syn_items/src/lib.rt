//! The grammar of attributes, generics and items: its definitions, and the functions that read
//! exactly what these read.
#![tactic(auto)]

mod attr;
mod clause;
mod data;
mod derive;
mod generics;
mod lists;
mod look;
mod restriction;

pub use attr::{attributes, meta_list, meta_path, number_of, signed, stream_of, value_of};
pub use clause::where_clause;
pub use derive::{item, item_prefix, items};
pub use generics::one_type_param;
pub use lists::While;
pub use look::{ItemStart, delimiter_of};
pub use restriction::visibility;
