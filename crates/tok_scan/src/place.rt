//! Places of a text, and runs of characters at its front.
ghost use Rattle.std.specs.Prelude.{◌≡◌, ◌≢◌, ◌≤◌, ◌<◌, length, drop, slice_index};
ghost use Rattle.std.specs.List.{prefix_len};
ghost use Rattle.tok_types.specs.Names as names;
ghost use Rattle.tok_scan.specs.Characters as characters;
ghost use Rattle.tok_scan.specs.Comments as comments;
ghost use Rattle.tok_scan.specs.Escapes as escapes;
ghost use Rattle.tok_scan.specs.Strings as strings;
ghost use Rattle.tok_scan.specs.Numbers as numbers;

use crate::class::{in_digits, in_hex, is_blank, is_hash, is_in_line};
use tok_types::{continues_name, starts_name};

/// The character at a place, or NUL past the end: no rule asks for NUL.
pub fn at(text: &[char], i: usize) -> char
    ensures value { result ≡ slice_index text.now i }
    ensures within { result ≢ 0 → i < length text.now }
{
    if i < text.len() { text[i] } else { '\0' }
}

/// What follows the first characters, so many.
pub fn rest(text: &[char], count: usize) -> &[char]
    ensures { result.now ≡ drop count text.now }
{
    &text[count.min(text.len())..]
}

/// How many characters at the front an identifier can go on with.
pub(crate) fn name_length(text: &[char]) -> usize
    ensures value { result ≡ prefix_len names.continues_name text.now }
    ensures within { result ≤ length text.now }
{
    text.iter().take_while(|c| continues_name(**c)).count()
}

/// How many characters there are before the end of the line.
pub(crate) fn line_length(text: &[char]) -> usize
    ensures value { result ≡ prefix_len comments.is_in_line text.now }
    ensures within { result ≤ length text.now }
{
    text.iter().take_while(|c| is_in_line(**c)).count()
}

pub(crate) fn blank_length(text: &[char]) -> usize
    ensures value { result ≡ prefix_len strings.is_blank text.now }
    ensures within { result ≤ length text.now }
{
    text.iter().take_while(|c| is_blank(**c)).count()
}

pub fn hash_length(text: &[char]) -> usize
    ensures value { result ≡ prefix_len strings.is_hash text.now }
    ensures within { result ≤ length text.now }
{
    text.iter().take_while(|c| is_hash(**c)).count()
}

pub fn hex_length(text: &[char]) -> usize
    ensures value { result ≡ prefix_len escapes.in_hex text.now }
    ensures within { result ≤ length text.now }
{
    text.iter().take_while(|c| in_hex(**c)).count()
}

/// How many characters at the front are digits of the base, of 2 to 36, or `_`.
pub fn digits_length(base: u32, text: &[char]) -> usize
    requires { (2 ≤ base) × (base ≤ 36) }
    ensures value { result ≡ prefix_len (numbers.in_digits base) text.now }
    ensures within { result ≤ length text.now }
{
    text.iter().take_while(|c| in_digits(base, **c)).count()
}

/// Whether an identifier could begin here.
pub(crate) fn begins_name(text: &[char]) -> bool
    ensures { result ≡ characters.begins names.starts_name text.now }
{
    match text {
        [] => false,
        [c, ..] => starts_name(*c),
    }
}

/// Whether an identifier could go on here.
pub(crate) fn continues(text: &[char]) -> bool
    ensures { result ≡ characters.continues text.now }
{
    match text {
        [] => false,
        [c, ..] => continues_name(*c),
    }
}
