//! Tokens as nodes: those of a text, those of an expression, and those that stand in the place of a value.

ghost use Rattle.std.specs.Prelude.{◌≡◌, IfOk, option_and_then};
ghost use Rattle.error_core.specs.Answers.{Answers};
ghost use Rattle.law_lexed.specs.Lexed.{tokens_in};
ghost use Rattle.meta_reads.specs.Parsed as spec;

use crate::from_tokens::FromTokens;
use crate::tokens_of_text;
use base_core::Mem;
use error_core::{Error, Fail, Result};
use node_expr::Expr;
use print_core::ToTokens;
use std::alloc::{AllocError, Global};
use syn_core::ParseFail;
use tok_types::{Span, TokenStream};

/// The node that the text is, whose tokens stand at the span. Another text is an unknown value.
pub fn parse_text<T: FromTokens + Drop>(alloc: Global, text: &str, span: Span) -> Result<T>
    ensures { Answers (λ it. it) result (spec.parsed_text T.tree text.now span) }
{
    match tree_of_text(alloc, text, span)? {
        Some(tree) => Ok(tree),
        None => Err(Fail::Faults(Error::unknown_value(alloc, text)?)),
    }
}

/// The node that all of the tokens are, or the parser's one fault.
pub fn parse_tokens<T: FromTokens>(alloc: Global, tokens: &TokenStream) -> Result<T>
    ensures { Answers (λ it. it) result (spec.parsed_tokens T.expected T.tree tokens.now) }
{
    match T::from_tokens(alloc, tokens) {
        Ok(tree) => Ok(tree),
        Err(ParseFail::Syn(error)) => Err(Fail::Faults(Error::from_syn(alloc, error)?)),
        Err(ParseFail::NoMemory) => Err(Fail::NoMemory),
    }
}

/// The tokens of the expression.
pub(crate) fn printed(alloc: Global, expr: &Expr) -> Mem<TokenStream>
    ensures { IfOk result (λ tokens. tokens ≡ spec.printed expr.now) }
{
    expr.to_token_stream(alloc)
}

fn tree_of_text<T: FromTokens>(alloc: Global, text: &str, span: Span) -> Mem<Option<T>>
    ensures { IfOk result (λ found. found ≡ option_and_then T.tree (tokens_in text.now span)) }
{
    match tokens_of_text(alloc, text, span)? {
        Some(tokens) => tree_of_tokens(alloc, &tokens),
        None => Ok(None),
    }
}

fn tree_of_tokens<T: FromTokens>(alloc: Global, tokens: &TokenStream) -> Mem<Option<T>>
    ensures { IfOk result (λ found. found ≡ T.tree tokens.now) }
{
    match T::from_tokens(alloc, tokens) {
        Ok(tree) => Ok(Some(tree)),
        Err(ParseFail::Syn(_error)) => Ok(None),
        Err(ParseFail::NoMemory) => Err(AllocError),
    }
}
