//! Where tokens and nodes stand: `syn`'s `Spanned`.
//!
//! A node stands from the start of its first token to the end of its last. It keeps that span where
//! it is a struct, and else stands where its parts do.
#![tactic(auto)]

mod data;
mod expr;
mod generics;
mod lit;
mod path;
mod spanned;
mod token;
mod ty;

pub use spanned::Spanned;
