//! Texts without spaces at their ends, and behind a prefix.

ghost use Rattle.std.specs.Prelude.{◌≡◌};
ghost use Rattle.std.specs.Option.{option_copied};
ghost use Rattle.machine_std.specs.Texts as spec;

/// The text without the spaces at both ends.
pub fn trimmed(text: &str) -> &str
    ensures { result.now ≡ spec.trimmed text.now }
{
    text.trim_start_matches(' ').trim_end_matches(' ')
}

/// What stands behind the front, where the text begins with it.
pub fn behind<'a>(text: &'a [u8], front: &[u8]) -> Option<&'a [u8]>
    ensures { option_copied result ≡ spec.behind front.now text.now }
{
    text.strip_prefix(front)
}
