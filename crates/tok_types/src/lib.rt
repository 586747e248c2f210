//! The tokens of a text: `proc_macro2`'s types, as plain data.
//!
//! Equality, order and hashing ignore spans; [`TryClone`] keeps them.
#![tactic(auto)]

mod clone;
mod error;
mod ident;
mod laws;
mod names;
mod span;
mod tree;

pub use error::IdentError;
pub use ident::{Ident, Lifetime};
pub use laws::{
    equal_tokens_differ_in_spans_alone, equal_tokens_hash_alike, equality_ignores_spans,
    equality_is_an_equivalence, order_agrees_with_equality,
};
pub use names::{continues_name, is_ident, is_name, is_reserved, starts_name};
pub use span::Span;
pub use tree::{Delimiter, Group, Literal, Punct, TokenStream, TokenTree};
