//! Reads a text into tokens.
//!
//! A text is cut into pieces, each the longest that starts at its byte. The tokens of the pieces
//! are the text's; what stands between two matched delimiters is a group. [`lex`] answers with
//! exactly that stream, or with the byte at which the text stops being one.
#![tactic(auto)]

mod error;
mod laws;
mod nest;
mod printing;
mod quoting;
mod reading;
mod spans;
mod token;

pub use base_core::{Boxed, Items, Mem, Text, TryClone};
pub use error::LexError;
pub use laws::{
    flat_tokens_tell_the_stream, one_span_keeps_the_tokens, pieces_stand_at_their_bytes,
    text_has_one_reading,
};
pub use printing::{read_again, to_text};
pub use quoting::quoted;
pub use reading::{MAX_LEN, lex};
pub use spans::respan;
pub use tok_types::{
    Delimiter, Group, Ident, IdentError, Lifetime, Literal, Punct, Span, TokenStream, TokenTree,
};
