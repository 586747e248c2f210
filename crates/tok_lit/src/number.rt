//! The values of numbers. Each text here is known to be a number.
ghost use Rattle.std.specs.Prelude.{◌≡◌, ◌≤◌};
ghost use Rattle.tok_lit.specs.Numbers as numbers;
ghost use Rattle.tok_lit.specs.Reading as reading;
ghost use Rattle.tok_scan.specs.Escapes as escapes;

use crate::value::Value;
use tok_scan::{at, base_of, digits_length, digits_value, exponent_length, fraction_length, rest};

/// Whether the suffix makes a float of a decimal integer.
fn is_float_suffix(suffix: &[char]) -> bool
    ensures { result ≡ numbers.is_float_suffix suffix.now }
{
    suffix == ['f', '3', '2'].as_slice() || suffix == ['f', '6', '4'].as_slice()
}

/// The integer that the digits write in their base.
fn integer(base: u32, digits: &[char]) -> Value
    requires { 1 ≤ base }
    ensures { result ≡ Value.Int (reading.or_none (escapes.digits_value base 0 digits.now)) }
{
    match digits_value(base, digits) {
        Some(value) => Value::Int(value),
        None => Value::Int(0),
    }
}

/// What a number in another base stands for, of 2 to 36.
fn based(base: u32, text: &[char]) -> Value
    requires { (2 ≤ base) × (base ≤ 36) }
    ensures { result ≡ reading.based base text.now }
{
    let behind = rest(text, 2);
    integer(base, &behind[..digits_length(base, behind)])
}

/// What a number in decimal digits stands for.
fn decimal(text: &[char]) -> Value
    ensures { result ≡ reading.decimal text.now }
{
    let whole = digits_length(10, text);
    let behind = rest(text, whole);
    let fraction = fraction_length(behind);
    let exponent = exponent_length(rest(behind, fraction));
    if 0 < fraction + exponent || is_float_suffix(behind) {
        Value::Float
    } else {
        integer(10, &text[..whole])
    }
}

/// What a number stands for.
pub(crate) fn number(text: &[char]) -> Value
    ensures { result ≡ reading.number text.now }
{
    let base = base_of(at(text, 1));
    if at(text, 0) == '0' && 0 < base {
        based(base, text)
    } else {
        decimal(text)
    }
}
