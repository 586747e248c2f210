//! The text of a path.

ghost use Rattle.std.specs.Prelude.{◌≡◌, ◌++◌, codes, IfOk, OnOk};
ghost use Rattle.std.specs.List.{join_by};
ghost use Rattle.node_make.specs.PathText.{segment_text, path_text, full_path_text};

use base_core::{Mem, Text};
use node_expr::{Path, PathSegment};
use std::alloc::Global;

/// The identifiers of the path's segments, joined by `::`: two paths that differ only in a leading
/// `::` and in arguments have one text.
pub fn path_to_string(alloc: Global, path: &Path) -> Mem<Text>
    ensures { IfOk result (λ text. text ≡ path_text path.now) }
{
    let mut text = Text::new(alloc);
    push_segments(&mut text, path.segments.as_slice())?;
    Ok(text)
}

/// Writes the path's text behind what stands there, with the `::` that it may begin with.
pub fn push_full_path(text: &mut Text, path: &Path) -> Mem<()>
    ensures { OnOk result (text.new ≡ text.old ++ full_path_text path.now) }
{
    if path.leading_colon {
        text.push_str("::")?;
    }
    push_segments(text, path.segments.as_slice())
}

fn push_segments(text: &mut Text, segments: &[PathSegment]) -> Mem<()>
    ensures { OnOk result (text.new ≡ text.old ++ join_by segment_text (codes "::") segments.now) }
{
    let [first, others @ ..] = segments else {
        return Ok(());
    };
    first.ident.push_to(text)?;
    for segment in others {
        text.push_str("::")?;
        segment.ident.push_to(text)?;
    }
    Ok(())
}
