//! Numbers.
ghost use Rattle.std.specs.Prelude.{◌≡◌, ◌≤◌, ◌<◌, ◌+◌, ◌^◌, ℕ, length, take, drop, slice_index, IfSome, nat_lt, nat_le, ◌==◌, true};
ghost use Rattle.std.specs.List.{list_any, list_all, count_by};
ghost use Rattle.std.specs.Char.{digit_value, is_digit, is_ascii_hexdigit};
ghost use Rattle.tok_scan.specs.Characters as characters;
ghost use Rattle.tok_scan.specs.Escapes as escapes;
ghost use Rattle.tok_scan.specs.Numbers as numbers;
ghost use Rattle.tok_scan.specs.Scan as spec;

use crate::class::{base_of, in_hex, is_after_dot, is_decimal, is_exponent_letter, is_sign};
use crate::kind::{Found, Kind};
use crate::place::{at, begins_name, digits_length, name_length, rest};

/// The value of a digit or a letter, or 36.
fn digit_value(c: char) -> u32
    ensures { result ≡ digit_value c }
{
    c.to_digit(36).unwrap_or(36)
}

/// The number with one more digit, or with `_`, or none where it has more than 128 bits.
fn with_digit(base: u32, value: u128, c: char) -> Option<u128>
    ensures { result ≡ spec.small (spec.with_digit base value c) }
{
    if c == '_' {
        return Some(value);
    }
    value
        .checked_mul(u128::from(base))?
        .checked_add(u128::from(digit_value(c)))
}

/// The number that the digits write in a base other than 0, `_` left out, or none where it has more than 128 bits.
pub fn digits_value(base: u32, digits: &[char]) -> Option<u128>
    requires { 1 ≤ base }
    ensures { result ≡ spec.small (escapes.digits_value base 0 digits.now) }
{
    let mut value = 0;
    for c in digits {
        value = with_digit(base, value, *c)?;
    }
    Some(value)
}

/// Whether this is the number of a character.
fn is_scalar(n: u128) -> bool
    ensures { result ≡ escapes.is_scalar n }
{
    n < 0xD800 || (0xE000 <= n && n < 0x11_0000)
}

/// Whether there are six hexadecimal digits at most.
fn has_few_digits(digits: &[char]) -> bool
    ensures { result ≡ nat_le (count_by is_ascii_hexdigit digits.now) 6 }
{
    digits.iter().filter(|c| c.is_ascii_hexdigit()).count() <= 6
}

/// Whether these digits are the number of a character that an escape may have.
pub(crate) fn is_number_of_character(digits: &[char]) -> bool
    ensures { result ≡ escapes.is_number_of_character digits.now }
{
    begins_hex(digits) && all_hex(digits) && has_few_digits(digits) && is_scalar_number(digits)
}

fn all_hex(digits: &[char]) -> bool
    ensures { result ≡ list_all escapes.in_hex digits.now }
{
    digits.iter().all(|c| in_hex(*c))
}

fn begins_hex(text: &[char]) -> bool
    ensures { result ≡ characters.begins is_ascii_hexdigit text.now }
{
    match text {
        [] => false,
        [c, ..] => c.is_ascii_hexdigit(),
    }
}

fn is_scalar_number(digits: &[char]) -> bool
    ensures { result ≡ escapes.is_scalar (escapes.digits_value 16 0 digits.now) }
{
    match digits_value(16, digits) {
        Some(n) => is_scalar(n),
        None => false,
    }
}

/// Whether the digits write a number of at most 128 bits.
fn is_small(base: u32, digits: &[char]) -> bool
    requires { 1 ≤ base }
    ensures { result ≡ nat_lt (escapes.digits_value base 0 digits.now) (2 ^ 128) }
{
    digits_value(base, digits).is_some()
}

fn begins_decimal(text: &[char]) -> bool
    ensures { result ≡ characters.begins numbers.is_decimal text.now }
{
    match text {
        [] => false,
        [c, ..] => is_decimal(*c),
    }
}

/// Whether a fraction begins here.
fn begins_fraction(text: &[char]) -> bool
    ensures { result ≡ numbers.begins_fraction text.now }
{
    at(text, 0) == '.' && !begins_after_dot(rest(text, 1))
}

fn begins_after_dot(text: &[char]) -> bool
    ensures { result ≡ characters.begins numbers.is_after_dot text.now }
{
    match text {
        [] => false,
        [c, ..] => is_after_dot(*c),
    }
}

/// The number of characters of the fraction that begins the text.
pub fn fraction_length(text: &[char]) -> usize
    ensures value { result ≡ spec.fraction_length text.now }
    ensures within { result ≤ length text.now }
{
    let behind = rest(text, 1);
    if !begins_fraction(text) {
        0
    } else if begins_decimal(behind) {
        1 + digits_length(10, behind)
    } else {
        1
    }
}

fn sign_length(text: &[char]) -> usize
    ensures value { result ≡ spec.sign_length text.now }
    ensures within { result ≤ length text.now }
{
    match text {
        [c, ..] if is_sign(*c) => 1,
        _ => 0,
    }
}

/// Whether a digit of the base, of 2 to 36, is among these characters.
fn has_digit(base: u32, digits: &[char]) -> bool
    requires { (2 ≤ base) × (base ≤ 36) }
    ensures { result ≡ list_any (λ c. is_digit c base) digits.now }
{
    digits.iter().any(|c| c.is_digit(base))
}

/// The number of characters of the digits of an exponent, or 0 where there is no digit.
fn exponent_digits(text: &[char]) -> usize
    ensures value { result ≡ spec.exponent_digits text.now }
    ensures within { result ≤ length text.now }
{
    let length = digits_length(10, text);
    if has_digit(10, &text[..length]) {
        length
    } else {
        0
    }
}

fn begins_exponent_letter(text: &[char]) -> bool
    ensures value { result ≡ characters.begins numbers.is_exponent_letter text.now }
    ensures within { result ≡ true → 1 ≤ length text.now }
{
    match text {
        [] => false,
        [c, ..] => is_exponent_letter(*c),
    }
}

/// The number of characters of the exponent that begins the text.
pub fn exponent_length(text: &[char]) -> usize
    ensures value { result ≡ spec.exponent_length text.now }
    ensures within { result ≤ length text.now }
{
    if !begins_exponent_letter(text) {
        return 0;
    }
    let sign = sign_length(rest(text, 1));
    let digits = exponent_digits(rest(text, 1 + sign));
    if 0 < digits { 1 + sign + digits } else { 0 }
}

/// The number of characters of the suffix that begins the text.
fn suffix_length(text: &[char]) -> usize
    ensures value { result ≡ spec.suffix_length text.now }
    ensures within { result ≤ length text.now }
{
    if begins_name(text) {
        name_length(text)
    } else {
        0
    }
}

/// The number in decimal digits that begins the text.
fn decimal_number(text: &[char]) -> Option<Found>
    ensures { result ≡ spec.decimal_number text.now }
{
    let whole = digits_length(10, text);
    let behind = rest(text, whole);
    let fraction = fraction_length(behind);
    let behind = rest(behind, fraction);
    let exponent = exponent_length(behind);
    let suffix = suffix_length(rest(behind, exponent));
    let more = fraction + exponent;
    if 0 < more || is_small(10, &text[..whole]) {
        Some(Found {
            kind: Kind::Literal,
            length: whole + more + suffix,
        })
    } else {
        None
    }
}

/// The number in another base, of 2 to 36, that begins the text with `0` and a letter.
fn based_number(base: u32, text: &[char]) -> Option<Found>
    requires { (2 ≤ base) × (base ≤ 36) }
    ensures { result ≡ spec.based_number base text.now }
{
    let behind = rest(text, 2);
    let length = digits_length(base, behind);
    let suffix = suffix_length(rest(behind, length));
    let digits = &behind[..length];
    if has_digit(base, digits) && is_small(base, digits) {
        Some(Found {
            kind: Kind::Literal,
            length: 2 + length + suffix,
        })
    } else {
        None
    }
}

/// The number that begins the text with a digit.
pub(crate) fn number(text: &[char]) -> Option<Found>
    ensures { result ≡ spec.number text.now }
{
    let base = base_of(at(text, 1));
    if at(text, 0) == '0' && 0 < base {
        based_number(base, text)
    } else {
        decimal_number(text)
    }
}
