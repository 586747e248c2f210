//! Texts between quotes.

ghost use Rattle.std.specs.Prelude.{◌≡◌, ◌++◌, flat_map, chars, OnOk};
ghost use Rattle.run_text.specs.ValueText.{quoted_char, quoted, char_text};

use base_core::{Mem, Text};
use error_fault::push_escaped_char;

/// The text between two of the quote, which stands in it by a backslash.
pub(crate) fn push_quoted(out: &mut Text, quote: char, text: &str) -> Mem<()>
    ensures { OnOk result (out.new ≡ out.old ++ quoted quote text.now) }
{
    out.push(quote)?;
    push_quoted_chars(out, quote, text)?;
    out.push(quote)
}

/// `'c'`
pub(crate) fn push_char(out: &mut Text, c: char) -> Mem<()>
    ensures { OnOk result (out.new ≡ out.old ++ char_text c) }
{
    out.push_str("'")?;
    push_quoted_char(out, '\'', c)?;
    out.push_str("'")
}

fn push_quoted_chars(out: &mut Text, quote: char, text: &str) -> Mem<()>
    ensures { OnOk result (out.new ≡ out.old ++ flat_map (quoted_char quote) (chars text.now)) }
{
    for c in text.chars() {
        push_quoted_char(out, quote, c)?;
    }
    Ok(())
}

fn push_quoted_char(out: &mut Text, quote: char, c: char) -> Mem<()>
    ensures { OnOk result (out.new ≡ out.old ++ quoted_char quote c) }
{
    if c == quote {
        out.push_str("\\")?;
        out.push(quote)
    } else {
        push_escaped_char(out, c)
    }
}
