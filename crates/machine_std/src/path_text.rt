//! Paths by their texts, which are compared without being made.

ghost use Rattle.std.specs.Prelude.{◌≡◌, ◌++◌, codes};
ghost use Rattle.std.specs.List.{join_by};
ghost use Rattle.std.specs.Option.{option_copied};
ghost use Rattle.std.specs.Str.{bytes_eq};
ghost use Rattle.node_make.specs.PathText.{path_text, segment_text};
ghost use Rattle.machine_std.specs.Texts as spec;

use crate::texts::behind;
use node_expr::{Path, PathSegment};

/// Whether the text is that of the path.
pub fn is_text_of(text: &str, path: &Path) -> bool
    ensures { result ≡ bytes_eq text.now (path_text path.now) }
{
    is_joined(text.as_bytes(), path.segments.as_slice())
}

fn is_joined(text: &[u8], segments: &[PathSegment]) -> bool
    ensures { result ≡ bytes_eq text.now (join_by segment_text (codes "::") segments.now) }
{
    let [first, others @ ..] = segments else {
        return text.is_empty();
    };
    let Some(mut rest) = behind_segment(text, first) else {
        return false;
    };
    for segment in others {
        let Some(shorter) = behind_next(rest, segment) else {
            return false;
        };
        rest = shorter;
    }
    rest.is_empty()
}

fn behind_next<'a>(text: &'a [u8], segment: &PathSegment) -> Option<&'a [u8]>
    ensures { option_copied result ≡ spec.behind (codes "::" ++ segment_text segment.now) text.now }
{
    behind_segment(behind(text, b"::")?, segment)
}

fn behind_segment<'a>(text: &'a [u8], segment: &PathSegment) -> Option<&'a [u8]>
    ensures { option_copied result ≡ spec.behind (segment_text segment.now) text.now }
{
    let name = segment.ident.text.as_str().as_bytes();
    if segment.ident.raw {
        return behind(behind(text, b"r#")?, name);
    }
    behind(text, name)
}
