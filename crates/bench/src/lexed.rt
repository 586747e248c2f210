//! The texts that are only lexed.

use crate::text::filled;
use std::alloc::Global;
use tok_core::Mem;

/// As many groups as may be open at once, side by side.
const DEEP: usize = 128;

/// A text of the workload, of at most so many bytes; an empty one where there is no such workload.
pub(crate) fn text_of(alloc: Global, workload: &str, size: usize) -> Mem<String> {
    match workload {
        "marks" => filled(alloc, "", "+-*/%^!&|=<>@.,;:#$?~ ", "", size),
        "names" => filled(alloc, "", "identifier_1 x\n", "", size),
        "strings" => filled(alloc, "", "\"a string\\n\" ", "", size),
        "groups" => filled(alloc, "", "(a[b{c}d]e) ", "", size),
        "ampersands" => filled(alloc, "", "&", "", size),
        "comments" => filled(alloc, "", "/// a text \\ \"\n//\n/* */", "", size),
        "literals" => filled(
            alloc,
            "",
            "1_000u8 0xFF 1.5e10 'a' b'a' r#\"a\"# ",
            "",
            size,
        ),
        "deep" => filled(alloc, "", deep_groups(alloc)?.as_str(), "", size),
        _ => Ok(String::new(alloc)),
    }
}

fn deep_groups(alloc: Global) -> Mem<String> {
    let mut text = String::new(alloc);
    for _group in 0..DEEP {
        text.push('[')?;
    }
    for _group in 0..DEEP {
        text.push(']')?;
    }
    Ok(text)
}
