//! Round trips: trees that are printed and read again.
#![tactic(auto)]

mod reread;

pub use reread::{
    reread_derive_input, reread_expr, reread_path, reread_type, reread_type_param,
    reread_visibility, reread_where,
};
