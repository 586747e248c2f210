//! The values of literals between quotes. Each text here is known to be a literal; what the
//! functions answer for another text is never seen.
ghost use Rattle.std.specs.Prelude.{◌≡◌, IfOk, map};
ghost use Rattle.tok_scan.specs.Escapes as escapes;
ghost use Rattle.tok_lit.specs.Quoted as quoted;
ghost use Rattle.tok_lit.specs.Reading as reading;

use base_core::{Items, Mem};
use std::alloc::Global;
use tok_scan::{at, digits_value, hash_length, hex_length, item_length, rest};

/// The character with this number.
fn character(number: u128) -> char
    ensures { result ≡ reading.or_mark number }
{
    let Ok(code) = u32::try_from(number) else {
        return char::REPLACEMENT_CHARACTER;
    };
    match char::from_u32(code) {
        Some(c) => c,
        None => char::REPLACEMENT_CHARACTER,
    }
}

/// The character whose number these hexadecimal digits write.
fn hex_character(digits: &[char]) -> char
    ensures { result ≡ reading.or_mark (escapes.digits_value 16 0 digits.now) }
{
    match digits_value(16, digits) {
        Some(number) => character(number),
        None => char::REPLACEMENT_CHARACTER,
    }
}

/// What the letter stands for behind a backslash.
fn short_value(letter: char) -> char
    ensures { result ≡ quoted.short_value letter }
{
    match letter {
        'n' => '\n',
        'r' => '\r',
        't' => '\t',
        '0' => '\0',
        _ => letter,
    }
}

/// The character for which an escape stands: what follows its backslash begins the text.
fn escaped(text: &[char]) -> char
    ensures { result ≡ reading.escaped text.now }
{
    let first = at(text, 0);
    if first == 'x' {
        hex_character(&[at(text, 1), at(text, 2)])
    } else if first == 'u' {
        let digits = rest(text, 2);
        hex_character(&digits[..hex_length(digits)])
    } else {
        short_value(first)
    }
}

/// What the content of a string stands for.
pub(crate) fn unescaped(alloc: Global, byte: bool, content: &[char]) -> Mem<Vec<char>>
    ensures { IfOk result (λ value. value.items ≡ reading.unescaped byte 0 content.now) }
{
    let mut value = Vec::new(alloc);
    let mut i = 0;
    while i < content.len() {
        let c = at(content, i);
        let behind = rest(content, i + 1);
        if c != '\\' {
            value.push(c)?;
            i += 1;
        } else if at(behind, 0) == '\n' {
            i += 1 + item_length(byte, behind);
        } else {
            value.push(escaped(behind))?;
            i += 1 + item_length(byte, behind);
        }
    }
    Ok(value)
}

/// What stands between the quotes of a string, or of a raw form after its letters.
pub(crate) fn content(text: &[char]) -> &[char]
    ensures { result.now ≡ reading.content text.now }
{
    let quote = hash_length(text) + 1;
    let behind = rest(text, quote);
    &behind[..behind.len().saturating_sub(quote)]
}

/// The character between apostrophes.
pub(crate) fn ticked(text: &[char]) -> char
    ensures { result ≡ reading.ticked text.now }
{
    if at(text, 1) == '\\' {
        escaped(rest(text, 2))
    } else {
        at(text, 1)
    }
}

/// The byte that is the character's number.
pub(crate) fn byte(c: char) -> u8
    ensures { result ≡ reading.or_zero c }
{
    match u8::try_from(u32::from(c)) {
        Ok(byte) => byte,
        Err(_) => 0,
    }
}

/// The bytes that are the characters' numbers.
pub(crate) fn bytes(alloc: Global, characters: &[char]) -> Mem<Items<u8>>
    ensures { IfOk result (λ it. it ≡ map reading.or_zero characters.now) }
{
    let mut bytes = Items::new(alloc);
    for c in characters {
        bytes.push(byte(*c))?;
    }
    Ok(bytes)
}
