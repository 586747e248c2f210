//! From a text to its tokens, all at one place.

ghost use Rattle.law_lexed.specs.Lexed.{tokens_in};
ghost use Rattle.std.specs.Prelude.{◌≡◌, IfOk};

use base_core::Mem;
use std::alloc::{AllocError, Global};
use tok_core::{LexError, MAX_LEN, lex, respan};
use tok_types::{Span, TokenStream};

/// The tokens of the text of a literal, all with the literal's span. There are none where the text breaks a rule,
/// or is longer than [`MAX_LEN`] bytes.
pub fn tokens_of_text(alloc: Global, text: &str, span: Span) -> Mem<Option<TokenStream>>
    ensures { IfOk result (λ found. found ≡ tokens_in text.now span) }
{
    if text.len() > MAX_LEN {
        return Ok(None);
    }
    match lex(alloc, 0, text) {
        Ok(mut tokens) => {
            respan(&mut tokens, span);
            Ok(Some(tokens))
        }
        Err(LexError::NoMemory) => Err(AllocError),
        Err(LexError::TooDeep { .. }) => Ok(None),
        Err(LexError::Syntax { .. }) => Ok(None),
    }
}
