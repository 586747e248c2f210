//! Where raw strings can end, so that none is looked through in vain twice.
ghost use Rattle.std.specs.Prelude.{◌≡◌, IfOk, max, drop};
ghost use Rattle.tok_scan.specs.Closings as spec;

use crate::class::fits;
use std::alloc::{AllocError, Global};

/// The most `#` behind a `"` from a place of a text on, up to 255: a raw form with more does not
/// end there.
#[derive(Clone, Copy, Debug, PartialEq, Eq)]
pub struct Closing {
    /// In all that follows.
    text: u8,
    /// In what follows before a character that is no ASCII, where a raw form of bytes ends.
    bytes: u8,
}

/// The number of `#`, up to 255, with one more character in front.
fn more_hashes(hashes: u8, c: char) -> u8
    ensures { result ≡ spec.more_hashes hashes c }
{
    if c == '#' {
        hashes.saturating_add(1)
    } else {
        0
    }
}

fn larger(a: u8, b: u8) -> u8
    ensures { result ≡ max a b }
{
    if a < b { b } else { a }
}

/// The most `#` behind a `"`, with one more character in front of so many `#`.
fn more_most(byte: bool, most: u8, hashes: u8, c: char) -> u8
    ensures { result ≡ spec.more_most byte most hashes c }
{
    if c == '"' {
        larger(hashes, most)
    } else if fits(byte, c) {
        most
    } else {
        0
    }
}

/// Where raw forms can end, for each place of a text.
pub fn closings(alloc: Global, text: &[char]) -> Result<Vec<Closing>, AllocError>
    ensures { IfOk result (λ v. v.items ≡ spec.closings_of text.now) }
{
    let mut closings = Vec::new(alloc);
    let mut closing = Closing { text: 0, bytes: 0 };
    let mut hashes = 0;
    let mut i = text.len();
    while 0 < i {
        i -= 1;
        let c = text[i];
        closing = Closing {
            text: more_most(false, closing.text, hashes, c),
            bytes: more_most(true, closing.bytes, hashes, c),
        };
        hashes = more_hashes(hashes, c);
        closings.push(closing)?;
    }
    closings.reverse();
    Ok(closings)
}

/// Whether a raw form with so many `#` may end in what begins at the first of these places: where
/// there is none, nothing is known.
pub(crate) fn can_close(byte: bool, hashes: usize, closings: &[Closing]) -> bool
    ensures { result ≡ spec.can_close byte hashes closings.now }
{
    match closings {
        [] => true,
        [closing, ..] => {
            let most = if byte { closing.bytes } else { closing.text };
            hashes <= most as usize
        }
    }
}

/// The places behind the first, so many.
pub fn behind(closings: &[Closing], count: usize) -> &[Closing]
    ensures { result.now ≡ drop count closings.now }
{
    &closings[count.min(closings.len())..]
}
