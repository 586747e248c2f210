//! Classes of characters.
ghost use Rattle.std.specs.Prelude.{◌≡◌, ◌≤◌, ◌<◌};
ghost use Rattle.tok_scan.specs.Characters as characters;
ghost use Rattle.tok_scan.specs.Comments as comments;
ghost use Rattle.tok_scan.specs.Escapes as escapes;
ghost use Rattle.tok_scan.specs.Strings as strings;
ghost use Rattle.tok_scan.specs.Numbers as numbers;

use tok_types::starts_name;

pub(crate) fn is_white(c: char) -> bool
    ensures { result ≡ characters.is_white c }
{
    matches!(
        c,
        '\t'..='\r' | ' ' | '\u{85}' | '\u{200e}' | '\u{200f}' | '\u{2028}' | '\u{2029}'
    )
}

pub(crate) fn is_mark(c: char) -> bool
    ensures { result ≡ characters.is_mark c }
{
    matches!(
        c,
        '+' | '-'
            | '*'
            | '/'
            | '%'
            | '^'
            | '!'
            | '&'
            | '|'
            | '='
            | '<'
            | '>'
            | '@'
            | '.'
            | ','
            | ';'
            | ':'
            | '#'
            | '$'
            | '?'
            | '~'
    )
}

/// Whether a line goes on with this character.
pub(crate) fn is_in_line(c: char) -> bool
    ensures { result ≡ comments.is_in_line c }
{
    c != '\n'
}

/// Whether a backslash drops this character behind a line feed.
pub(crate) fn is_blank(c: char) -> bool
    ensures { result ≡ strings.is_blank c }
{
    matches!(c, ' ' | '\t' | '\n' | '\r')
}

pub(crate) fn is_hash(c: char) -> bool
    ensures { result ≡ strings.is_hash c }
{
    c == '#'
}

/// Whether the character can stand for itself in a form of bytes, or in one of text.
pub(crate) fn fits(byte: bool, c: char) -> bool
    ensures { result ≡ strings.fits byte c }
{
    !byte || c.is_ascii()
}

/// Whether the character stands for itself between apostrophes.
pub(crate) fn is_single(byte: bool, c: char) -> bool
    ensures { result ≡ strings.is_single byte c }
{
    fits(byte, c) && !matches!(c, '\'' | '\\' | '\n' | '\r' | '\t')
}

/// Whether the letter makes an escape alone.
pub(crate) fn is_short(c: char) -> bool
    ensures { result ≡ escapes.is_short c }
{
    matches!(c, 'n' | 'r' | 't' | '\\' | '0' | '\'' | '"')
}

/// Whether `\x` and these two make an escape.
pub(crate) fn is_pair(byte: bool, a: char, b: char) -> bool
    ensures { result ≡ escapes.is_pair byte a b }
{
    a.is_ascii_hexdigit() && b.is_ascii_hexdigit() && (byte || a <= '7')
}

/// Whether the character is a hexadecimal digit or `_`.
pub(crate) fn in_hex(c: char) -> bool
    ensures { result ≡ escapes.in_hex c }
{
    c.is_ascii_hexdigit() || c == '_'
}

pub(crate) fn is_decimal(c: char) -> bool
    ensures { result ≡ numbers.is_decimal c }
{
    c.is_digit(10)
}

/// Whether the character is a digit of the base, of 2 to 36, or `_`.
pub(crate) fn in_digits(base: u32, c: char) -> bool
    requires { (2 ≤ base) × (base ≤ 36) }
    ensures { result ≡ numbers.in_digits base c }
{
    c.is_digit(base) || c == '_'
}

/// Whether the character keeps a `.` before it from being a fraction.
pub(crate) fn is_after_dot(c: char) -> bool
    ensures { result ≡ numbers.is_after_dot c }
{
    c == '.' || starts_name(c)
}

pub(crate) fn is_exponent_letter(c: char) -> bool
    ensures { result ≡ numbers.is_exponent_letter c }
{
    c == 'e' || c == 'E'
}

pub(crate) fn is_sign(c: char) -> bool
    ensures { result ≡ numbers.is_sign c }
{
    c == '+' || c == '-'
}

/// The base that `0` and this letter announce, or 0.
pub fn base_of(c: char) -> u32
    ensures value { result ≡ numbers.base_of c }
    ensures within { result ≤ 16 }
{
    match c {
        'x' => 16,
        'o' => 8,
        'b' => 2,
        _ => 0,
    }
}
