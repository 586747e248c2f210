//! Readers, below the trait of conversions: each once for many types.
//!
//! A [`Reader`] has the calls by which a type is read, whichever its kind. Beside it stand the functions that answer a
//! [`Call`](meta_nested::Call) for plain values, and for a type around another, whatever reads the one inside. Each
//! answers as the cells of its type do, in `specs/`; `Ok(None)` where they have no cell.
#![tactic(auto)]

mod entries;
mod exprs;
mod from_tokens;
mod integers;
mod key;
mod lists;
mod map_key;
mod parsed;
mod reader;
mod syntax;
mod tokens;
mod types;
mod words;
mod wrappers;

pub use entries::{entries_cell, push_repeat};
pub use exprs::{OfExpr, read_expr, read_expr_kind, read_ident, read_path, read_type_path};
pub use from_tokens::FromTokens;
pub use integers::{read_non_zero_signed, read_non_zero_unsigned, read_signed, read_unsigned};
pub use key::KeyFromPath;
pub use map_key::{KeySet, MapKey, SortedKey};
pub use parsed::{parse_text, parse_tokens};
pub use reader::Reader;
pub use syntax::{read_quoted, read_syntax, read_where_predicates};
pub use tokens::tokens_of_text;
pub use types::OfType;
pub use words::{bool_in, char_in, no_items};
pub use wrappers::{box_cell, option_cell, result_cell, result_meta_cell};
