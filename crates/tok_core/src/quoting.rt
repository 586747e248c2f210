//! Texts as string literals.
ghost use Rattle.std.specs.Prelude.{◌≡◌, ◌++◌, chars, flat_map, IfOk, OnOk};
ghost use Rattle.std.specs.Str.{encode_utf8_all};
ghost use Rattle.tok_core.specs.Quoted as spec;

use base_core::{Mem, Text};
use std::alloc::Global;
use tok_scan::characters;

/// The text between quotes, with `\`, `"`, line feed, carriage return, tab and NUL as escapes.
pub fn quoted(alloc: Global, text: &str) -> Mem<Text>
    ensures { IfOk result (λ it. it ≡ encode_utf8_all (spec.quoted (chars text.now))) }
{
    let characters = characters(alloc, text)?;
    quoted_characters(alloc, characters.as_slice())
}

pub(crate) fn quoted_characters(alloc: Global, characters: &[char]) -> Mem<Text>
    ensures { IfOk result (λ it. it ≡ encode_utf8_all (spec.quoted characters.now)) }
{
    let mut text = Text::from_str(alloc, "\"")?;
    for c in characters {
        push_escaped(&mut text, *c)?;
    }
    text.push('"')?;
    Ok(text)
}

fn push_escaped(text: &mut Text, c: char) -> Mem<()>
    ensures { OnOk result (text.new ≡ text.old ++ encode_utf8_all (spec.escaped c)) }
{
    match c {
        '\\' => text.push_str("\\\\"),
        '"' => text.push_str("\\\""),
        '\n' => text.push_str("\\n"),
        '\r' => text.push_str("\\r"),
        '\t' => text.push_str("\\t"),
        '\0' => text.push_str("\\0"),
        _ => text.push(c),
    }
}
