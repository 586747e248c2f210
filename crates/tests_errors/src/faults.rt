//! Faults are written as lines: a row is `line | kind | place | fields | about => line`. Of the fields, the last is the
//! outermost. A fault without a place has none as the first faults of a struct.

use crate::rows::{first_word, names, span_of};
use base_core::{Mem, Text, TryClone};
use error_fault::{Fault, FaultKind, fault_line};
use std::alloc::Global;
use tok_types::Span;

pub const ROWS: &str = r#"line | missing | none |  | name => - Missing field `name`
line | duplicate | 14..19 | m | hello => 14..19 Duplicate field `hello` at m
line | unknown | 27..36 |  | nom name => 27..36 Unknown field: `nom`. Available values: `name`
line | unknown | 10..15 | mode | quick slow fast => 10..15 Unknown field: `quick`. Available values: `fast`, `slow` at mode
line | unknown | call |  | k a b c d e f g h i j => call Unknown field: `k`
line | custom | 9..12 | n[0] | number too large to fit in target type => 9..12 number too large to fit in target type at n[0]
line | format | 5..11 | flag | list => 5..11 Unexpected meta-item format `list` at flag
line | type | 22..23 | hello m | int => 22..23 Unexpected type `int` at m/hello
line | shape | none |  | enum struct with named fields => - Unsupported shape `enum`. Expected struct with named fields.
line | torn | call |  |  => call a\\\nb"#;

fn fault(alloc: Global, kind: &str, about: &str, span: Span) -> Mem<Fault> {
    let (first, others) = first_word(about);
    match kind {
        "missing" => Fault::missing_field(alloc, about),
        "duplicate" => Fault::duplicate_field(alloc, about, span),
        "unknown" => {
            Fault::unknown_field_with_alts(alloc, first, names(alloc, others)?.as_slice(), span)
        }
        "custom" => Fault::custom(alloc, about, span),
        "torn" => Fault::custom(alloc, "a\\\nb", span),
        "format" => Fault::unexpected_format(alloc, about, span),
        "type" => {
            let kind = FaultKind::UnexpectedType(Text::from_str(alloc, about)?);
            Ok(Fault::at_span(alloc, kind, span))
        }
        "shape" => {
            let observed = Text::from_str(alloc, first)?;
            let expected = Some(Text::from_str(alloc, others)?);
            let kind = FaultKind::UnsupportedShape { observed, expected };
            Ok(Fault::new(alloc, kind))
        }
        _ => Fault::custom(alloc, "of no kind", span),
    }
}

/// The line of a copy of the fault.
pub fn line(alloc: Global, row: &str) -> Mem<String> {
    let mut columns = row.split(" | ");
    let kind = columns.next().unwrap_or("");
    let span = span_of(columns.next().unwrap_or(""));
    let fields = columns.next().unwrap_or("");
    let mut fault = fault(alloc, kind, columns.next().unwrap_or(""), span)?;
    for field in fields.split_terminator(' ') {
        fault = fault.located(alloc, field)?;
    }
    fault_line(alloc, &fault.try_clone(alloc)?)?.into_string()
}
