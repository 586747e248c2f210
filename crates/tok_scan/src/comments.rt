//! Comments, and the marks that begin like them.
ghost use Rattle.std.specs.Prelude.{◌≡◌, ◌≤◌, ◌<◌, ◌+◌, length, take, drop, slice_index, IfSome, ◌==◌, ◌&&◌};
ghost use Rattle.tok_scan.specs.Comments as comments;
ghost use Rattle.tok_scan.specs.Pieces as pieces;
ghost use Rattle.tok_scan.specs.Scan as spec;
ghost use Rattle.tok_scan.specs.declared.kind.Kind.TheVariants as kind;

use crate::class::is_mark;
use crate::kind::{Found, Kind};
use crate::place::{at, line_length, rest};

/// Whether the comment of one line that begins here documents.
fn documents(text: &[char]) -> bool
    ensures { result ≡ comments.documents text.now }
{
    at(text, 2) == '/' && at(text, 3) != '/'
}

/// Whether a documentation comment begins here.
fn begins_doc(text: &[char]) -> bool
    ensures { result ≡ comments.begins_doc text.now }
{
    at(text, 0) == '/' && at(text, 1) == '/' && documents(text)
}

/// Whether a mark begins here: no `/` that begins a comment.
fn begins_mark(text: &[char]) -> bool
    ensures { result ≡ pieces.begins_mark text.now }
{
    let next = at(text, 1);
    is_mark(at(text, 0)) && !(at(text, 0) == '/' && (next == '/' || next == '*'))
}

/// Whether the token that begins here is a mark, as is the first of a documentation comment's.
fn goes_on(text: &[char]) -> bool
    ensures { result ≡ pieces.goes_on text.now }
{
    begins_mark(text) || begins_doc(text)
}

/// The mark that begins the text.
pub(crate) fn mark(text: &[char]) -> Found
    ensures { result ≡ record { kind = kind.Mark (pieces.goes_on (drop 1 text.now)); length = 1 } }
{
    let joint = goes_on(rest(text, 1));
    Found {
        kind: Kind::Mark { joint },
        length: 1,
    }
}

/// Whether these two characters stand at a place.
fn is_pair_at(text: &[char], i: usize, a: char, b: char) -> bool
    requires { i + 1 < length text.now }
    ensures { result ≡ spec.is_pair_at text.now i a b }
{
    text[i] == a && text[i + 1] == b
}

/// The place after the comment that begins the text with `/*`.
fn comment_end(text: &[char]) -> Option<usize>
    requires opening { 2 ≤ length text.now }
    ensures value { result ≡ comments.comment_end 1 2 (drop 2 text.now) }
    ensures within { IfSome result (λ end. (2 ≤ end) × (end ≤ length text.now)) }
{
    let mut depth = 1usize;
    let mut i = 2usize;
    while i + 1 < text.len() {
        if is_pair_at(text, i, '*', '/') {
            if depth == 1 {
                return Some(i + 2);
            }
            depth -= 1;
            i += 2;
        } else if is_pair_at(text, i, '/', '*') {
            depth += 1;
            i += 2;
        } else {
            i += 1;
        }
    }
    None
}

/// What begins with `/`: a comment, or a mark.
pub(crate) fn slashed(text: &[char]) -> Option<Found>
    requires { 1 ≤ length text.now }
    ensures { result ≡ spec.slashed text.now }
{
    match at(text, 1) {
        '/' => {
            let kind = if documents(text) {
                Kind::Doc
            } else {
                Kind::Comment
            };
            let length = 2 + line_length(rest(text, 2));
            Some(Found { kind, length })
        }
        '*' => {
            let length = comment_end(text)?;
            let kind = Kind::Comment;
            Some(Found { kind, length })
        }
        _ => Some(mark(text)),
    }
}
