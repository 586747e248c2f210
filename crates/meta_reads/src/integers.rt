//! Readers of integer types, by the range of the type.

ghost use Rattle.std.specs.Prelude.{◌≡◌, ◌≢◌, ◌≤◌, ◌^◌, ℕ, ℤ, pos, Ok, Some, None, if◌then◌else◌, FitsSigned};
ghost use Rattle.std.specs.Int.{w128};
ghost use Rattle.std.specs.Option.{SomeIff};
ghost use Rattle.error_fault.specs.Outcome.{refused};
ghost use Rattle.error_fault.specs.declared.kind.FaultKind.TheVariants.{Custom};
ghost use Rattle.error_core.specs.Answers.{Answers};
ghost use Rattle.meta_nested.specs.Cells.{AnswersCell, cell_at};
ghost use Rattle.meta_nested.specs.Dispatch.{known};
ghost use Rattle.meta_reads.specs.Integers as spec;

use error_core::{Error, Fail, Result};
use meta_nested::Call;
use node_expr::{Lit, LitInt};
use std::alloc::Global;

// What std's `parse` says of a text that is no number of the type.
const TOO_LARGE: &str = "number too large to fit in target type";

const TOO_SMALL: &str = "number too small to fit in target type";

const INVALID_DIGIT: &str = "invalid digit found in string";

const WOULD_BE_ZERO: &str = "number would be zero for non-zero type";

/// An integer from 0 to `most`.
pub fn read_unsigned(alloc: Global, call: Call<'_>, most: u128) -> Result<Option<u128>>
    ensures { AnswersCell (λ n. n) result (cell_at (spec.unsigned_cells most) call.entry) }
{
    match call {
        Call::Value(Lit::Int(it)) => Ok(Some(unsigned_of(alloc, it, most)?)),
        Call::String(text, _) => match unsigned_in(text, most) {
            None => unknown_value(alloc, text),
            found => Ok(found),
        },
        _ => Ok(None),
    }
}

/// An integer from 1 to `most`.
pub fn read_non_zero_unsigned(alloc: Global, call: Call<'_>, most: u128) -> Result<Option<u128>>
    ensures cell { AnswersCell (λ n. n) result (cell_at (spec.non_zero_unsigned_cells most) call.entry) }
    ensures non_zero { (n : ℕ) → result ≡ Ok (Some n) → n ≢ 0 }
{
    match call {
        Call::Value(Lit::Int(it)) => match unsigned_of(alloc, it, most)? {
            0 => refuse(alloc, WOULD_BE_ZERO),
            number => Ok(Some(number)),
        },
        Call::String(text, _) => match unsigned_in(text, most) {
            Some(0) | None => unknown_value(alloc, text),
            found => Ok(found),
        },
        _ => Ok(None),
    }
}

/// An integer from the opposite of `half` to before `half`.
pub fn read_signed(alloc: Global, call: Call<'_>, half: u128) -> Result<Option<i128>>
    requires { half ≤ 2 ^ 127 }
    ensures { AnswersCell (λ n. n) result (cell_at (spec.signed_cells half) call.entry) }
{
    match call {
        Call::Value(Lit::Int(it)) => Ok(Some(signed_of(alloc, it, half)?)),
        Call::String(text, _) => match signed_in(text, half) {
            None => unknown_value(alloc, text),
            found => Ok(found),
        },
        _ => Ok(None),
    }
}

/// An integer other than 0, from the opposite of `half` to before `half`.
pub fn read_non_zero_signed(alloc: Global, call: Call<'_>, half: u128) -> Result<Option<i128>>
    requires { half ≤ 2 ^ 127 }
    ensures cell { AnswersCell (λ n. n) result (cell_at (spec.non_zero_signed_cells half) call.entry) }
    ensures non_zero { (n : ℤ) → result ≡ Ok (Some n) → n ≢ pos 0 }
{
    match call {
        Call::Value(Lit::Int(it)) => match signed_of(alloc, it, half)? {
            0 => refuse(alloc, WOULD_BE_ZERO),
            number => Ok(Some(number)),
        },
        Call::String(text, _) => match signed_in(text, half) {
            Some(0) | None => unknown_value(alloc, text),
            found => Ok(found),
        },
        _ => Ok(None),
    }
}

/// The literal at the unsigned type whose last number is `most`.
fn unsigned_of(alloc: Global, it: &LitInt, most: u128) -> Result<u128>
    ensures { Answers (λ n. n) result (spec.unsigned_of most it.now) }
{
    if it.negative {
        refuse(alloc, INVALID_DIGIT)
    } else if it.digits <= most {
        Ok(it.digits)
    } else {
        refuse(alloc, TOO_LARGE)
    }
}

/// The literal at the signed type with `half` numbers below zero.
fn signed_of(alloc: Global, it: &LitInt, half: u128) -> Result<i128>
    requires { half ≤ 2 ^ 127 }
    ensures { Answers (λ n. n) result (spec.signed_of half it.now) }
{
    match number_within(it, half) {
        Some(number) => Ok(number),
        None if it.negative => refuse(alloc, TOO_SMALL),
        None => refuse(alloc, TOO_LARGE),
    }
}

/// The literal's integer, where it lies from the opposite of `half` to before `half`.
fn number_within(it: &LitInt, half: u128) -> Option<i128>
    requires { half ≤ 2 ^ 127 }
    ensures { let number = spec.number_of it.now in result ≡ (if spec.is_within half number then Some number else None) }
{
    let Some(number) = number_of(it) else {
        return None;
    };
    if is_within(number, half) {
        Some(number)
    } else {
        None
    }
}

/// The integer that the literal writes, where an `i128` holds it.
fn number_of(it: &LitInt) -> Option<i128>
    ensures { SomeIff result (FitsSigned w128 (spec.number_of it.now)) (spec.number_of it.now) }
{
    if it.negative {
        0i128.checked_sub_unsigned(it.digits)
    } else {
        0i128.checked_add_unsigned(it.digits)
    }
}

/// What std's `parse` reads in the text at the unsigned type whose last number is `most`.
fn unsigned_in(text: &str, most: u128) -> Option<u128>
    ensures { result ≡ spec.unsigned_in most text.now }
{
    let Ok(number) = text.parse::<u128>() else {
        return None;
    };
    if number <= most { Some(number) } else { None }
}

/// What std's `parse` reads in the text at the signed type with `half` numbers below zero.
fn signed_in(text: &str, half: u128) -> Option<i128>
    requires { half ≤ 2 ^ 127 }
    ensures { result ≡ spec.signed_in half text.now }
{
    let Ok(number) = text.parse::<i128>() else {
        return None;
    };
    if is_within(number, half) {
        Some(number)
    } else {
        None
    }
}

/// Whether the number lies from the opposite of `half` to before `half`.
fn is_within(number: i128, half: u128) -> bool
    ensures { result ≡ spec.is_within half number }
{
    if number < 0 {
        number.unsigned_abs() <= half
    } else {
        number.unsigned_abs() < half
    }
}

/// The error of a number that the type does not have.
fn refuse<T>(alloc: Global, message: &str) -> Result<T>
    ensures { Answers (λ value. value) result (refused (Custom message.now)) }
{
    Err(Fail::Faults(Error::custom(alloc, message)?))
}

/// The error of a text in which no value was found.
fn unknown_value<T>(alloc: Global, text: &str) -> Result<T>
    ensures { Answers (λ value. value) result (known text.now None) }
{
    Err(Fail::Faults(Error::unknown_value(alloc, text)?))
}
