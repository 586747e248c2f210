//! Divides an input into its parts at lines `%%`.
#![tactic(auto)]

ghost use Rattle.std.specs.Prelude.{◌≡◌, ◌≢◌, ◌≤◌, ◌⊎◌, ◌↔◌, List, ℕ, length, IsTrue, IsSome, IfSome, IfNone, IsOk, IfOk, IfErr};
ghost use Rattle.std.specs.List.{All};
ghost use Rattle.std.specs.Str.{IsUtf8, IsValidUpTo};
ghost use Rattle.std.specs.Str.Lossy.{utf8_valid_len};
ghost use Rattle.run_parts.specs.Parts.{HasDivider, IsDividedAt, IsDivision, is_divider, divider_count, parts_of, texts_of};

/// The parts of an input.
///
/// A divider is a line that is exactly `%%`, with a line feed or the end of the input right behind
/// it. It belongs to no part. Dividers count wherever they stand, in a string or a comment too.
#[derive(Clone, Copy, Debug, PartialEq, Eq)]
pub struct Parts<'a> {
    /// What stands before the first divider.
    pub declarations: &'a str,
    /// What stands behind the first divider, and before the second, if there is one.
    pub subjects: &'a str,
    /// What stands behind the second divider, if there is one.
    pub table: Option<&'a str>,
}

/// Bytes that are not UTF-8.
#[derive(Clone, Copy, Debug, PartialEq, Eq)]
pub struct NotText {
    /// How many bytes the longest prefix has that is UTF-8.
    pub at: usize,
}

/// The bytes as a text, if they are UTF-8.
pub fn as_text(bytes: &[u8]) -> Result<&str, NotText>
    ensures same { IfOk result (λ text. text.now ≡ bytes.now) }
    ensures ok { IsOk result ↔ IsUtf8 bytes.now }
    ensures at { IfErr result (λ fault. fault.at ≡ utf8_valid_len bytes.now) }
    ensures longest { IfErr result (λ fault. IsValidUpTo bytes.now fault.at) }
{
    str::from_utf8(bytes).map_err(|fault| NotText {
        at: fault.valid_up_to(),
    })
}

/// Divides a text into its parts. `None` where it has no divider, or more than two.
///
/// The work is linear in the length of the text.
#[tactic(auto, using(crate::proofs::Division::one_division))]
pub fn divide(text: &str) -> Option<Parts<'_>>
    ensures some { IsSome result ↔ ((divider_count text.now ≡ 1) ⊎ (divider_count text.now ≡ 2)) }
    ensures division { IfSome result (λ parts. IsDivision text.now (texts_of parts)) }
    ensures none { IfNone result ((others : List (List ℕ))
        → IsDivision text.now others → (length others ≢ 2) × (length others ≢ 3)) }

    // Each text has one division, in which there may be any number of parts.
    ensures value { IfSome result (λ parts. texts_of parts ≡ parts_of text.now) }
    ensures has_division { IsDivision text.now (parts_of text.now) }
    ensures only { (others : List (List ℕ))
        → IsDivision text.now others → others ≡ parts_of text.now }

    ensures within { IfSome result
        (λ parts. All (λ part. length part ≤ length text.now) (texts_of parts)) }
    ensures utf8 { IfSome result (λ parts. All IsUtf8 (texts_of parts)) }
{
    let (declarations, rest) = split_at_divider(text)?;
    let Some((subjects, table)) = split_at_divider(rest) else {
        return Some(Parts {
            declarations,
            subjects: rest,
            table: None,
        });
    };
    match split_at_divider(table) {
        None => Some(Parts {
            declarations,
            subjects,
            table: Some(table),
        }),
        Some(_) => None,
    }
}

// What stands before the first divider of the text, and what stands behind it.
fn split_at_divider(text: &str) -> Option<(&str, &str)>
    ensures none { IfNone result (¬ HasDivider text.now) }
    ensures divided { IfSome result
        (λ parts. (divider : List ℕ) × IsDividedAt text.now parts.0.now divider parts.1.now) }
    ensures first { IfSome result (λ parts. ¬ HasDivider parts.0.now) }
    ensures utf8 { IfSome result (λ parts. IsUtf8 parts.0.now × IsUtf8 parts.1.now) }
{
    let mut start = 0;
    for line in text.split_inclusive('\n') {
        let end = start + line.len();
        if is_divider(line) {
            return Some((&text[..start], &text[end..]));
        }
        start = end;
    }
    None
}

fn is_divider(line: &str) -> bool
    ensures { result ≡ is_divider line.now }
{
    matches!(line, "%%\n" | "%%")
}

#[cfg(test)]
mod tests {
    use super::*;

    // Texts with their declarations, subjects and table.
    const DIVISIONS: [(&str, Option<(&str, &str, Option<&str>)>); 14] = [
        ("", None),
        ("a\nb\n", None),
        ("a\n %%\nb", None),
        ("a\n%%%\nb", None),
        ("a\n%%\r\nb", None),
        ("a%%\nb", None),
        ("%%", Some(("", "", None))),
        ("%%\nb", Some(("", "b", None))),
        ("a\n%%", Some(("a\n", "", None))),
        ("a\n%%\nb\n", Some(("a\n", "b\n", None))),
        ("a\n%%\nb\n%%\nc", Some(("a\n", "b\n", Some("c")))),
        ("%%\n%%", Some(("", "", Some("")))),
        ("\"é\n%%\n\" /* b", Some(("\"é\n", "\" /* b", None))),
        ("%%\n%%\n%%\n", None),
    ];

    #[test]
    fn divides(rt: HostRuntime) {
        for (text, parts) in DIVISIONS {
            let divided = divide(text).map(|p| (p.declarations, p.subjects, p.table));
            assert_eq!(rt; divided, parts, "of {text:?}");
        }
    }

    #[test]
    fn finds_what_is_no_text(rt: HostRuntime) {
        assert_eq!(rt; as_text(b"%%\n\xFF"), Err(NotText { at: 3 }));
        assert_eq!(rt; as_text(b"\xE2\x82"), Err(NotText { at: 0 }));
        assert_eq!(rt; as_text("é%%".as_bytes()), Ok("é%%"));
    }
}
