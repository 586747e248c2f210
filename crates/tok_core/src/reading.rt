//! From a text to its tokens.

ghost use Rattle.std.specs.Prelude.{◌≡◌, ◌≤◌, ℕ, true, length, drop, vec_len, IfOk, IfErr, Ok, Err};
ghost use Rattle.std.specs.Str.{chars, encode_utf8_all};
ghost use Rattle.tok_core.specs.Endings.{Answers, Closes, EndsAt, IsWithin, Refused, deep, wrong};
ghost use Rattle.tok_core.specs.Spells as spec;
ghost use Rattle.tok_core.specs.Spells.{Spells};
ghost use Rattle.tok_types.specs.declared.tree.TokenStream.{TokenStream};

use crate::error::LexError;
use crate::nest::Nest;
use std::alloc::{AllocError, Global};
use tok_scan::{Kind, at, behind, byte_length, characters, closings, piece_with, rest};
use tok_types::TokenStream;

/// What the tokens of a piece keep of its characters where `after` follows: all, but of a
/// documentation comment a carriage return before its line feed.
fn kept<'a>(kind: Kind, text: &'a [char], after: &[char]) -> &'a [char]
    ensures { result.now ≡ spec.kept kind text.now after.now }
{
    if kind == Kind::Doc && !after.is_empty() {
        without_return(text)
    } else {
        text
    }
}

fn without_return(text: &[char]) -> &[char]
    ensures { result.now ≡ spec.without_return text.now }
{
    match text {
        [front @ .., '\r'] => front,
        _ => text,
    }
}

/// Whether these characters may begin a raw string that was looked for in vain.
fn may_be_open(front: &[char], after: &[char]) -> bool {
    match front {
        ['r'] | ['b', 'r'] => at(after, 0) == '#',
        _ => false,
    }
}

/// How many characters are read at least before their room is given back.
const FEW: usize = 65_536;

/// Drops the characters that are read, if they are many, and gives their room back. The answer is where the rest
/// begins then.
fn give_back(characters: &mut Vec<char>, read: usize) -> usize
    requires { read ≤ vec_len characters.old }
    ensures rest { drop result characters.new.items ≡ drop read characters.old.items }
    ensures within { result ≤ vec_len characters.new }
{
    if read < FEW || read < characters.len() / 3 {
        return read;
    }
    let left = characters.len() - read;
    characters.copy_within(read.., 0);
    characters.truncate(left);
    characters.shrink_to_fit();
    0
}

/// The characters of a text. Of one that is plain they are its bytes, which takes less work.
fn characters_of(alloc: Global, text: &str) -> Result<Vec<char>, AllocError>
    ensures value { IfOk result (λ v. v.items ≡ chars text.now) }
    ensures bytes { IfOk result (λ v. encode_utf8_all v.items ≡ text.now) }
{
    let mut plain = Vec::with_capacity(alloc, text.len())?;
    for byte in text.as_bytes() {
        if !byte.is_ascii() {
            drop(plain);
            return characters(alloc, text);
        }
        plain.push_reserved(*byte as char);
    }
    Ok(plain)
}

/// How many bytes the characters take. In a plain text each takes one.
fn bytes_of(plain: bool, characters: &[char]) -> usize
    requires { plain ≡ true → length (encode_utf8_all characters.now) ≡ length characters.now }
    ensures { result ≡ length (encode_utf8_all characters.now) }
{
    if plain {
        characters.len()
    } else {
        byte_length(characters)
    }
}

// Where raw strings end is not known until one is looked for in vain: then it is looked up for all that follows.
fn read(
    alloc: Global,
    source: u32,
    text: &str,
    characters: Vec<char>,
) -> Result<TokenStream, LexError>
    requires few { length text.now ≤ MAX_LEN }
    requires same { encode_utf8_all characters.items ≡ text.now }
    ensures spelled { IfOk result (Spells source characters.items) }
    ensures closed { IfOk result Closes }
    ensures err { IfErr result (Refused source characters.items) }
{
    let plain = characters.len() == text.len();
    let mut unread = characters;
    let mut start = 0;
    let mut known = Vec::new(alloc);
    let mut passed = 0;
    let mut left = text;
    let mut at = 0u32;
    let mut nest = Nest::new(alloc);
    while start < unread.len() {
        let rest = rest(unread.as_slice(), start);
        let Some(found) = piece_with(rest, behind(known.as_slice(), passed)) else {
            return Err(LexError::Syntax { at });
        };
        let (front, after) = rest.split_at(found.length);
        let (bytes, more) = left.split_at(bytes_of(plain, front));
        let end = at + bytes.len() as u32;
        let text = kept(found.kind, front, after);
        nest.step(alloc, source, found.kind, text, bytes, at, end)?;
        passed += found.length;
        if known.is_empty() && may_be_open(front, after) {
            known = closings(alloc, after)?;
            passed = 0;
        }
        start = give_back(&mut unread, start + found.length);
        left = more;
        at = end;
    }
    nest.finish(at)
}

/// How long a text may be, in bytes: 16 MiB.
pub const MAX_LEN: usize = 16 << 20;

/// The tokens of a text of at most [`MAX_LEN`] bytes. Their spans are bytes of the text, which has the number
/// `source`.
///
/// The first byte at which the text breaks a rule is told: see [`LexError`].
///
/// ```
/// let tokens = lex(alloc, 0, text)?;
/// let item = parse_derive_input(alloc, &tokens)?;
/// Ok(item)
/// ```
pub fn lex(alloc: Global, source: u32, text: &str) -> Result<TokenStream, LexError>
    requires { length text.now ≤ MAX_LEN }

    // What is read is spelled so, and an error comes where it says.
    ensures spelled { IfOk result (Spells source (chars text.now)) }
    ensures within { IfOk result IsWithin }
    ensures err { IfErr result (Refused source (chars text.now)) }

    // What is spelled so is read, and what is wrong is refused there, unless memory runs out.
    ensures only { (s : TokenStream) → Spells source (chars text.now) s → IsWithin s
        → Answers result (Ok s) }
    ensures too_deep { (at : ℕ) → EndsAt source (chars text.now) at deep
        → Answers result (Err (LexError.TooDeep at)) }
    ensures syntax { (at : ℕ) → EndsAt source (chars text.now) at wrong
        → Answers result (Err (LexError.Syntax at)) }
{
    let characters = characters_of(alloc, text)?;
    read(alloc, source, text, characters)
}
