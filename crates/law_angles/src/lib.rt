//! The angles that turbofishes open in a value close before it ends.
#![tactic(auto)]

mod laws;

pub use laws::angles_close_where_an_expression_ends;
