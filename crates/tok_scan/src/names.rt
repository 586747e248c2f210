//! Identifiers and lifetimes.
ghost use Rattle.std.specs.Prelude.{◌≡◌, ◌+◌, ℕ, Option, false, length, take, drop, slice_index};
ghost use Rattle.tok_scan.specs.Closings.{AreClosings};
ghost use Rattle.tok_scan.specs.Scan as spec;

use crate::ends::Closing;
use crate::kind::{Found, Kind};
use crate::place::{at, begins_name, continues, name_length, rest};
use crate::quotes::{prefixed_length, ticked_length};
use tok_types::is_reserved;

/// Where the raw identifier ends that begins the text.
fn raw_name_length(text: &[char]) -> Option<usize>
    ensures value { result ≡ spec.raw_name_length text.now }
{
    if at(text, 0) != 'r' || at(text, 1) != '#' {
        return None;
    }
    let name = rest(text, 2);
    let length = name_length(name);
    if begins_name(name) && !is_reserved(&name[..length]) {
        Some(2 + length)
    } else {
        None
    }
}

/// The identifier that begins the text, or the raw one that ends there.
fn named(text: &[char]) -> Found
    ensures { Option.Some result ≡ spec.named text.now (spec.raw_name_length text.now) }
{
    match raw_name_length(text) {
        Some(length) => Found {
            kind: Kind::RawIdent,
            length,
        },
        None => Found {
            kind: Kind::Ident,
            length: name_length(text),
        },
    }
}

/// What begins with a letter or `_`: a literal with a prefix, or an identifier.
pub(crate) fn worded(text: &[char], closings: &[Closing]) -> Found
    requires { AreClosings closings.now text.now }
    ensures { Option.Some result ≡ spec.worded text.now (spec.prefixed_length text.now) }
{
    match prefixed_length(text, closings) {
        Some(length) => Found {
            kind: Kind::Literal,
            length,
        },
        None => named(text),
    }
}

/// The lifetime of the name that begins the text.
fn lifetime(name: &[char]) -> Option<Found>
    ensures { result ≡ spec.lifetime name.now (spec.raw_name_length name.now) }
{
    let length = match raw_name_length(name) {
        Some(length) => length,
        None if begins_name(name) => name_length(name),
        None => return None,
    };
    Some(Found {
        kind: Kind::Lifetime,
        length: 1 + length,
    })
}

/// What begins with `'`: a character, or a lifetime.
pub(crate) fn ticked(text: &[char]) -> Option<Found>
    ensures { result ≡ spec.ticked text.now (spec.ticked_length false text.now) }
{
    match ticked_length(false, text) {
        Some(length) if !continues(rest(text, length)) => Some(Found {
            kind: Kind::Literal,
            length,
        }),
        _ => lifetime(rest(text, 1)),
    }
}
