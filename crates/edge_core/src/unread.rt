//! Bytes that a source has not handed out yet.

ghost use Rattle.std.specs.Prelude.{◌≡◌, ◌≤◌, List, ℕ, take, drop, length, min};

use std::marker::Model;

/// Bytes in memory that are given out from the front.
#[derive(Debug, Drop)]
pub(crate) struct Unread {
    bytes: Vec<u8>,
    given: usize,
}

// Clauses see the bytes not given yet.
impl Model for Unread {
    ghost Value = { List ℕ };

    ghost view = { λ unread. drop unread.given unread.bytes.items };

    ghost invariant = { λ unread. unread.given ≤ length unread.bytes.items };
}

impl Unread {
    pub(crate) fn new(bytes: Vec<u8>) -> Unread
        ensures { result ≡ bytes.items }
    {
        Unread { bytes, given: 0 }
    }

    /// Puts as many bytes as there is room for at the front of `buf`, and says how many.
    pub(crate) fn give(&mut self, buf: &mut [u8]) -> usize
        ensures count { result ≡ min (length buf.old) (length self.old) }
        ensures given { take result buf.new ≡ take (length buf.old) self.old }
        ensures left { self.new ≡ drop (length buf.old) self.old }
    {
        let left = &self.bytes[self.given..];
        let count = buf.len().min(left.len());
        buf[..count].copy_from_slice(&left[..count]);
        self.given += count;
        count
    }
}
