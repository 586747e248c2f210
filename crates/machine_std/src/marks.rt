//! Numbers that are marked, one bit each.

ghost use Rattle.std.specs.Prelude.{◌≡◌, ◌<◌, ◌/◌, ◌==◌, ◌||◌, ℕ, length};
ghost use Rattle.machine_std.specs.Marks as spec;

/// Whether the number is marked.
pub fn is_marked(words: &[u32], number: usize) -> bool
    ensures { result ≡ spec.is_marked words.now number }
{
    let at = number / 32;
    at < words.len() && (words[at] >> (number % 32)) & 1 == 1
}

/// Marks the number.
pub fn mark(words: &mut [u32], number: usize)
    requires { number / 32 < length words.old }
    ensures { (other : ℕ) → spec.is_marked words.new other ≡ (number == other || spec.is_marked words.old other) }
{
    words[number / 32] |= 1 << (number % 32);
}
