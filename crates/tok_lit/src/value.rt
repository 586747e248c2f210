//! The value of a literal, by its text.

ghost use Rattle.std.specs.Prelude.{◌≡◌, ◌↔◌, true, false, [], length, IfOk, IfSome, IfNone};
ghost use Rattle.std.specs.Str.{chars, encode_utf8_all};
ghost use Rattle.tok_scan.specs.Pieces.{IsPiece};
ghost use Rattle.tok_scan.specs.declared.kind.Kind.TheVariants as kind;
ghost use Rattle.tok_lit.specs.Reading as reading;
ghost use Rattle.tok_lit.specs.Values.{IsValue};
ghost use Rattle.tok_lit.specs.declared.value.Value.{Value};
ghost use Rattle.tok_lit.specs.declared.value.Value.TheVariants as value;

use crate::number::number;
use crate::quoted::{byte, bytes, content, ticked, unescaped};
use base_core::{Items, Mem, Text};
use std::alloc::Global;
use tok_scan::{Found, Kind, at, characters, piece, rest, text_of};

/// What a literal stands for.
#[derive(Debug, Drop)]
pub enum Value {
    /// `"text"` or `r#"text"#`, its escapes read.
    Str(Text),
    /// `b"bytes"` or `br#"bytes"#`, its escapes read.
    ByteStr(Items<u8>),
    /// `b'x'`
    Byte(u8),
    /// `'x'`
    Char(char),
    /// `1`, `0xff_u8`
    Int(u128),
    /// `1.5`, `1e3_f32`, `1f64`
    Float,
}

/// Whether the piece is a literal and the whole text.
fn is_whole(found: Found, text: &[char]) -> bool
    ensures { (result ≡ true) ↔ ((found.kind ≡ kind.Literal) × (found.length ≡ length text.now)) }
{
    match found.kind {
        Kind::Literal => found.length == text.len(),
        _ => false,
    }
}

/// Whether the characters are a literal.
fn is_literal(text: &[char]) -> bool
    ensures literal { result ≡ true → IsPiece kind.Literal text.now [] }
    ensures other { result ≡ false → IsPiece kind.Literal text.now [] → ⊥ }
{
    match piece(text) {
        Some(found) => is_whole(found, text),
        None => false,
    }
}

fn string(alloc: Global, characters: &[char]) -> Mem<Value>
    ensures { IfOk result (λ it. it ≡ value.Str (encode_utf8_all characters.now)) }
{
    let text = Text::from_string(alloc, text_of(alloc, characters)?)?;
    Ok(Value::Str(text))
}

/// What a literal stands for that begins with `b`.
fn prefixed(alloc: Global, text: &[char]) -> Mem<Value>
    ensures { IfOk result (λ it. it ≡ reading.prefixed text.now) }
{
    let second = at(text, 1);
    let behind = rest(text, 1);
    if second == '"' {
        let characters = unescaped(alloc, true, content(behind))?;
        Ok(Value::ByteStr(bytes(alloc, characters.as_slice())?))
    } else if second == '\'' {
        Ok(Value::Byte(byte(ticked(behind))))
    } else {
        Ok(Value::ByteStr(bytes(alloc, content(rest(text, 2)))?))
    }
}

/// What a literal stands for.
fn read(alloc: Global, text: &[char]) -> Mem<Value>
    ensures { IfOk result (λ it. it ≡ reading.value_of text.now) }
{
    let first = at(text, 0);
    if first == '"' {
        let characters = unescaped(alloc, false, content(text))?;
        string(alloc, characters.as_slice())
    } else if first == '\'' {
        Ok(Value::Char(ticked(text)))
    } else if first == 'r' {
        string(alloc, content(rest(text, 1)))
    } else if first == 'b' {
        prefixed(alloc, text)
    } else {
        Ok(number(text))
    }
}

/// The kind and the value of the literal that `text` is, or none where it is no literal.
pub fn value_of(alloc: Global, text: &str) -> Mem<Option<Value>>
    ensures some { IfOk result (λ it. IfSome it (IsValue (chars text.now))) }
    ensures none { IfOk result (λ it. IfNone it ((other : Value) → IsValue (chars text.now) other → ⊥)) }
{
    let text = characters(alloc, text)?;
    if !is_literal(text.as_slice()) {
        return Ok(None);
    }
    let value = read(alloc, text.as_slice())?;
    Ok(Some(value))
}
