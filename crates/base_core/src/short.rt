//! A text of a few bytes, which stand in the value itself.

ghost use Rattle.std.specs.Prelude.{◌≡◌, ◌↔◌, ◌+◌, ◌≤◌, ◌++◌, [], IsTrue, length};

use std::marker::Model;
use std::str;

/// How many bytes a short text may have. With its length and the tag of a `Text` they fill two words.
pub(crate) const SHORT: usize = 14;

/// A text of at most `SHORT` bytes.
#[derive(Drop)]
pub(crate) struct ShortText {
    len: u8,
    bytes: [u8; SHORT],
}

impl Model for ShortText {
    ghost use Rattle.std.specs.Prelude.{List, ℕ, ◌≤◌, take, IsUtf8};
    ghost use Rattle.std.specs.Coded.{coded_list, coded_ℕ};

    ghost Value = { List ℕ };

    ghost coded = { coded_list coded_ℕ };

    ghost view = { λ text. take text.len text.bytes };

    ghost invariant = { λ text. (text.len ≤ 14) × IsUtf8 (take text.len text.bytes) };
}

impl ShortText {
    pub(crate) fn new() -> ShortText
        ensures { result ≡ [] }
    {
        ShortText {
            len: 0,
            bytes: [0; SHORT],
        }
    }

    pub(crate) fn as_bytes(&self) -> &[u8]
        ensures { result.now ≡ self.now }
    {
        &self.bytes[..self.len as usize]
    }

    /// The text. Its bytes are looked through again, which is little work, as they are few.
    pub(crate) fn as_str(&self) -> &str
        ensures { result.now ≡ self.now }
    {
        str::from_utf8(&self.bytes[..self.len as usize]).unwrap_or("")
    }

    /// Whether `more` still fits behind the text.
    pub(crate) fn has_room(&self, more: &str) -> bool
        ensures { IsTrue result ↔ (length self.now + length more.now ≤ SHORT) }
    {
        more.len() <= SHORT - self.len as usize
    }

    pub(crate) fn push_str(&mut self, more: &str)
        requires { length self.old + length more.now ≤ SHORT }
        ensures { self.new ≡ self.old ++ more.now }
    {
        let old = self.len as usize;
        let all = old + more.len();
        self.bytes[old..all].copy_from_slice(more.as_bytes());
        self.len = all as u8;
    }

    pub(crate) fn copy(&self) -> ShortText
        ensures { result ≡ self.now }
    {
        ShortText {
            len: self.len,
            bytes: self.bytes,
        }
    }
}
