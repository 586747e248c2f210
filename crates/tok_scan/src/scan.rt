//! The piece at the front of a text.
ghost use Rattle.std.specs.Prelude.{◌≡◌, ◌≤◌, ◌<◌, ℕ, length, take, drop, slice_index, IfSome, IfNone, false};
ghost use Rattle.tok_scan.specs.Characters.{Characters};
ghost use Rattle.tok_scan.specs.Closings.{AreClosings};
ghost use Rattle.tok_scan.specs.Pieces.{IsPieceAt};
ghost use Rattle.tok_scan.specs.Pieces as pieces;
ghost use Rattle.tok_scan.specs.Scan as spec;
ghost use Rattle.tok_scan.specs.declared.kind.Kind.{Kind};

use crate::class::{is_decimal, is_mark, is_white};
use crate::comments::{mark, slashed};
use crate::ends::Closing;
use crate::kind::{Found, Kind};
use crate::names::{ticked, worded};
use crate::numbers::number;
use crate::place::{at, continues, rest};
use crate::quotes::string_length;
use tok_types::{Delimiter, starts_name};

/// How a piece begins.
#[derive(Clone, Copy)]
enum Head {
    Name,
    White,
    Digit,
    Quote,
    Tick,
    Slash,
    Mark,
    Open(Delimiter),
    Close(Delimiter),
    Other,
}

fn delimiter_head(c: char) -> Head
    ensures { result ≡ spec.delimiter_head c }
{
    match c {
        '(' => Head::Open(Delimiter::Parenthesis),
        ')' => Head::Close(Delimiter::Parenthesis),
        '[' => Head::Open(Delimiter::Bracket),
        ']' => Head::Close(Delimiter::Bracket),
        '{' => Head::Open(Delimiter::Brace),
        '}' => Head::Close(Delimiter::Brace),
        _ => Head::Other,
    }
}

fn head_of(c: char) -> Head
    ensures { result ≡ spec.head_of c }
{
    if starts_name(c) {
        Head::Name
    } else if is_white(c) {
        Head::White
    } else if is_decimal(c) {
        Head::Digit
    } else if c == '"' {
        Head::Quote
    } else if c == '\'' {
        Head::Tick
    } else if c == '/' {
        Head::Slash
    } else if is_mark(c) {
        Head::Mark
    } else {
        delimiter_head(c)
    }
}

/// A piece of one character.
fn one(kind: Kind) -> Option<Found>
    ensures { result ≡ spec.found kind 1 }
{
    Some(Found { kind, length: 1 })
}

/// What begins with `"`.
fn quoted(text: &[char]) -> Option<Found>
    requires { 1 ≤ length text.now }
    ensures { result ≡ spec.literal (spec.string_length false text.now) }
{
    let length = string_length(false, text)?;
    let kind = Kind::Literal;
    Some(Found { kind, length })
}

/// The longest piece at the front, whatever follows it.
#[tactic(auto, unfolding(crate::specs::Scan::front))]
fn front(text: &[char], closings: &[Closing]) -> Option<Found>
    requires { AreClosings closings.now text.now }
    ensures { result ≡ spec.front text.now }
{
    let [first, ..] = text else {
        return None;
    };
    match head_of(*first) {
        Head::Name => Some(worded(text, closings)),
        Head::White => one(Kind::White),
        Head::Digit => number(text),
        Head::Quote => quoted(text),
        Head::Tick => ticked(text),
        Head::Slash => slashed(text),
        Head::Mark => Some(mark(text)),
        Head::Open(delimiter) => one(Kind::Open(delimiter)),
        Head::Close(delimiter) => one(Kind::Close(delimiter)),
        Head::Other => None,
    }
}

/// Whether a piece of this kind may stand directly before the text.
fn may_precede(kind: Kind, text: &[char]) -> bool
    ensures { result ≡ pieces.may_precede kind text.now }
{
    match kind {
        Kind::Ident | Kind::RawIdent => at(text, 0) != '"',
        Kind::Literal => !continues(text),
        _ => true,
    }
}

fn cut(text: &[char], closings: &[Closing]) -> Option<Found>
    requires { AreClosings closings.now text.now }
    ensures { result ≡ spec.piece text.now }
{
    let found = front(text, closings)?;
    if may_precede(found.kind, rest(text, found.length)) {
        Some(found)
    } else {
        None
    }
}

/// The piece that the text begins with, or none where the text is empty or no piece starts there.
///
/// A raw string that never ends is looked for to the end of the text: [`piece_with`] is not so slow
/// where there are many.
pub fn piece(text: &[char]) -> Option<Found>
    ensures found { IfSome result (λ p. IsPieceAt p.kind text.now (take p.length text.now) (drop p.length text.now)) }
    ensures none { IfNone result ((k : Kind) (front after : Characters) → IsPieceAt k text.now front after → ⊥) }
    ensures within { IfSome result (λ p. (1 ≤ p.length) × (p.length ≤ length text.now)) }
    ensures value { result ≡ spec.piece text.now }
{
    piece_with(text, &[])
}

/// The same, where the closings of the text tell which raw strings end, so that none is looked for
/// in vain.
pub fn piece_with(text: &[char], closings: &[Closing]) -> Option<Found>
    requires { AreClosings closings.now text.now }
    ensures found { IfSome result (λ p. IsPieceAt p.kind text.now (take p.length text.now) (drop p.length text.now)) }
    ensures none { IfNone result ((k : Kind) (front after : Characters) → IsPieceAt k text.now front after → ⊥) }
    ensures within { IfSome result (λ p. (1 ≤ p.length) × (p.length ≤ length text.now)) }
    ensures value { result ≡ spec.piece text.now }
{
    cut(text, closings)
}
