//! Literals between quotes.
ghost use Rattle.std.specs.Prelude.{◌≡◌, ◌≤◌, ◌<◌, ◌+◌, ◌-◌, ℕ, length, take, drop, slice_index, IfSome, ◌==◌, ◌&&◌, false, true};
ghost use Rattle.tok_scan.specs.Strings as strings;
ghost use Rattle.tok_scan.specs.Closings.{AreClosings};
ghost use Rattle.tok_scan.specs.Scan as spec;

use crate::class::{fits, is_pair, is_short, is_single};
use crate::ends::{Closing, behind, can_close};
use crate::numbers::is_number_of_character;
use crate::place::{at, blank_length, hash_length, hex_length, rest};

/// The number of characters from the `u` of an escape to its `}`, or 0.
fn unicode_length(text: &[char]) -> usize
    ensures value { result ≡ spec.unicode_length text.now }
    ensures within { result ≤ length text.now }
{
    let digits = hex_length(rest(text, 2));
    if at(text, 2 + digits) == '}' && is_number_of_character(&rest(text, 2)[..digits]) {
        3 + digits
    } else {
        0
    }
}

/// The number of characters of the escape behind a backslash, or 0 where there is none.
#[tactic(auto, unfolding(crate::specs::Scan::escape_length))]
fn escape_length(byte: bool, text: &[char]) -> usize
    ensures value { result ≡ spec.escape_length byte text.now }
    ensures within { result ≤ length text.now }
{
    let first = at(text, 0);
    if is_short(first) {
        1
    } else if first == 'x' && is_pair(byte, at(text, 1), at(text, 2)) {
        3
    } else if !byte && (first == 'u' && at(text, 1) == '{') {
        unicode_length(text)
    } else {
        0
    }
}

/// The same in a string, where a line feed and blanks may stand there.
pub fn item_length(byte: bool, text: &[char]) -> usize
    ensures value { result ≡ spec.item_length byte text.now }
    ensures within { result ≤ length text.now }
{
    if at(text, 0) == '\n' {
        1 + blank_length(rest(text, 1))
    } else {
        escape_length(byte, text)
    }
}

/// Where the string ends that begins the text with `"`.
pub(crate) fn string_length(byte: bool, text: &[char]) -> Option<usize>
    requires { 1 ≤ length text.now }
    ensures value { result ≡ spec.string_length byte text.now }
    ensures within { IfSome result (λ end. (1 ≤ end) × (end ≤ length text.now)) }
{
    let mut i = 1;
    while i < text.len() {
        let c = at(text, i);
        if c == '"' {
            return Some(i + 1);
        }
        if c == '\\' {
            let more = item_length(byte, rest(text, i + 1));
            if more == 0 {
                return None;
            }
            i += 1 + more;
        } else if fits(byte, c) {
            i += 1;
        } else {
            return None;
        }
    }
    None
}

/// Whether a `"` and so many `#` begin the text.
fn closes(hashes: usize, text: &[char]) -> bool
    ensures value { result ≡ strings.closes hashes text.now }
    ensures within { result ≡ true → hashes < length text.now }
{
    match text {
        [] => false,
        [c, behind @ ..] => *c == '"' && hashes <= hash_length(behind),
    }
}

/// Where the raw form ends whose first `#` or `"` begins the text.
fn raw_length(byte: bool, text: &[char], closings: &[Closing]) -> Option<usize>
    requires { AreClosings closings.now text.now }
    ensures value { result ≡ spec.raw_length byte text.now }
    ensures within { IfSome result (λ end. end ≤ length text.now) }
{
    let hashes = hash_length(text);
    if at(text, hashes) == '"' && hashes <= 255 {
        raw_end(byte, hashes, text, closings)
    } else {
        None
    }
}

fn raw_end(byte: bool, hashes: usize, text: &[char], closings: &[Closing]) -> Option<usize>
    requires some { hashes < length text.now }
    requires few { hashes ≤ 255 }
    requires closings { AreClosings closings.now text.now }
    ensures value { result ≡ spec.raw_end byte hashes (hashes + 1) (drop (hashes + 1) text.now) }
    ensures within { IfSome result (λ end. end ≤ length text.now) }
{
    if !can_close(byte, hashes, behind(closings, hashes + 1)) {
        return None;
    }
    let mut i = hashes + 1;
    while i < text.len() {
        if closes(hashes, rest(text, i)) {
            return Some(i + (1 + hashes));
        }
        if !fits(byte, text[i]) {
            return None;
        }
        i += 1;
    }
    None
}

/// Where the character or byte ends that begins the text with `'`.
pub(crate) fn ticked_length(byte: bool, text: &[char]) -> Option<usize>
    ensures value { result ≡ spec.ticked_length byte text.now }
    ensures within { IfSome result (λ end. end ≤ length text.now) }
{
    if at(text, 1) == '\\' {
        let escape = escape_length(byte, rest(text, 2));
        if 0 < escape && at(text, 2 + escape) == '\'' {
            Some(3 + escape)
        } else {
            None
        }
    } else if is_single(byte, at(text, 1)) && at(text, 2) == '\'' {
        Some(3)
    } else {
        None
    }
}

/// Where the literal ends that begins the text with `r` or `b`.
pub(crate) fn prefixed_length(text: &[char], closings: &[Closing]) -> Option<usize>
    requires { AreClosings closings.now text.now }
    ensures value { result ≡ spec.prefixed_length text.now }
{
    match (at(text, 0), at(text, 1)) {
        ('r', _) => Some(1 + raw_length(false, rest(text, 1), behind(closings, 1))?),
        ('b', '"') => Some(1 + string_length(true, rest(text, 1))?),
        ('b', '\'') => Some(1 + ticked_length(true, rest(text, 1))?),
        ('b', 'r') => Some(2 + raw_length(true, rest(text, 2), behind(closings, 2))?),
        _ => None,
    }
}
