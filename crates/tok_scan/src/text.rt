//! A text and its characters.
ghost use Rattle.std.specs.Prelude.{◌≡◌, length, IfOk, string_bytes};
ghost use Rattle.std.specs.Str.{chars, encode_utf8_all};

use std::alloc::{AllocError, Global};

/// The characters of a text.
pub fn characters(alloc: Global, text: &str) -> Result<Vec<char>, AllocError>
    ensures value { IfOk result (λ v. v.items ≡ chars text.now) }
    ensures bytes { IfOk result (λ v. encode_utf8_all v.items ≡ text.now) }
{
    let characters = text.chars().collect(alloc)?;
    Ok(characters)
}

/// How many bytes the characters take in a text.
pub fn byte_length(characters: &[char]) -> usize
    ensures { result ≡ length (encode_utf8_all characters.now) }
{
    let mut bytes = 0;
    for c in characters {
        bytes += c.len_utf8();
    }
    bytes
}

/// The text of these characters.
pub fn text_of(alloc: Global, characters: &[char]) -> Result<String, AllocError>
    ensures { IfOk result (λ s. string_bytes s ≡ encode_utf8_all characters.now) }
{
    let mut text = String::with_capacity(alloc, byte_length(characters))?;
    for c in characters {
        text.push(*c)?;
    }
    Ok(text)
}
