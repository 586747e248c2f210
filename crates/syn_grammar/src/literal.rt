//! The literals that tokens stand for.

ghost use Rattle.std.specs.Prelude.{◌≡◌, IfOk, chars};
ghost use Rattle.syn_grammar.specs.Literals as spec;

use crate::token::literal_of;
use base_core::{Mem, TryClone};
use node_expr::{Lit, LitByte, LitByteStr, LitChar, LitFloat, LitInt, LitStr};
use std::alloc::Global;
use tok_lit::Value;
use tok_types::{Literal, TokenTree};

/// The value of a text, where it is one whole literal.
fn value_of(alloc: Global, text: &str) -> Mem<Option<Value>>
    ensures { IfOk result (λ it. it ≡ spec.value_of (chars text.now)) }
{
    tok_lit::value_of(alloc, text)
}

/// The literal that a token stands for, without a sign: of the kind and the value of its text. A token
/// whose text is no literal is kept as it is.
#[tactic(auto, unfolding(crate::specs::Literals::lit_of))]
pub fn lit_of(alloc: Global, token: Literal) -> Mem<Lit>
    ensures literal { IfOk result (λ lit. lit ≡ spec.lit_of token) }
    ensures value { IfOk result (spec.StandsFor token) }
{
    let value = value_of(alloc, token.text.as_str())?;
    Ok(lit_by(token, value))
}

fn lit_by(token: Literal, value: Option<Value>) -> Lit
    ensures { result ≡ spec.lit_by token value }
{
    let span = token.span;
    match value {
        Some(Value::Str(value)) => Lit::Str(LitStr { value, token, span }),
        Some(Value::ByteStr(value)) => Lit::ByteStr(LitByteStr { value, token, span }),
        Some(Value::Byte(value)) => Lit::Byte(LitByte { value, token, span }),
        Some(Value::Char(value)) => Lit::Char(LitChar { value, token, span }),
        Some(Value::Int(digits)) => Lit::Int(LitInt {
            negative: false,
            digits,
            token,
            span,
        }),
        Some(Value::Float) => Lit::Float(LitFloat {
            negative: false,
            token,
            span,
        }),
        None => Lit::Verbatim(token),
    }
}

/// Whether the text is digits and `_` alone: of no other base and without a suffix.
fn is_plain(text: &str) -> bool
    ensures { result ≡ spec.is_plain (chars text.now) }
{
    text.chars().all(|c| c.is_ascii_digit() || c == '_')
}

/// The index of a field that comes next: a decimal integer without a suffix.
#[tactic(auto, unfolding(crate::specs::Literals::index_of))]
pub fn index_of(alloc: Global, trees: &[TokenTree]) -> Mem<Option<LitInt>>
    ensures { IfOk result (λ index. index ≡ spec.index_of trees.now) }
{
    let Some(token) = literal_of(trees) else {
        return Ok(None);
    };
    let text = token.text.as_str();
    let Some(Value::Int(digits)) = value_of(alloc, text)? else {
        return Ok(None);
    };
    if !is_plain(text) {
        return Ok(None);
    }
    let token = token.try_clone(alloc)?;
    let span = token.span;
    Ok(Some(LitInt {
        negative: false,
        digits,
        token,
        span,
    }))
}
