//! The texts of faults.

ghost use Rattle.std.specs.Prelude.{◌≡◌, ◌++◌, codes, decimal, IfOk, OnOk, OnErr};
ghost use Rattle.std.specs.List.{join_by, list_any};
ghost use Rattle.error_fault.specs.FaultText.{quoted, alternatives_text, expected_text, kind_text, path_text};
ghost use Rattle.error_fault.specs.FaultText.{fault_text, span_text, escaped_char, has_escape, escaped, fault_line};

use crate::alts::Alts;
use crate::fault::Fault;
use crate::kind::FaultKind;
use base_core::{Mem, Text};
use std::alloc::Global;
use std::collections::BTreeSet;
use tok_types::Span;

/// A fault names its alternatives where there are no more.
const MOST_NAMED: usize = 9;

/// The line of a fault: its place and its text, with no line feed.
pub fn fault_line(alloc: Global, fault: &Fault) -> Mem<Text>
    ensures { IfOk result (λ line. line ≡ fault_line fault.now) }
{
    let mut line = span_text(alloc, fault.span)?;
    line.push(' ')?;
    let text = fault_text(alloc, fault)?;
    push_escaped(alloc, &mut line, text.as_str())?;
    Ok(line)
}

pub fn push_fault_line(alloc: Global, out: &mut Text, fault: &Fault) -> Mem<()>
    ensures ok { OnOk result (out.new ≡ out.old ++ fault_line fault.now) }
    ensures err { OnErr result (out.new ≡ out.old) }
{
    let line = fault_line(alloc, fault)?;
    out.push_str(line.as_str())
}

/// What is wrong, and in which field.
pub fn fault_text(alloc: Global, fault: &Fault) -> Mem<Text>
    ensures { IfOk result (λ text. text ≡ fault_text fault.now) }
{
    let mut text = Text::new(alloc);
    push_kind(alloc, &mut text, &fault.kind)?;
    push_path(&mut text, fault.path.as_slice())?;
    Ok(text)
}

/// `START..END`, `call` for [`Span::CallSite`], and `-` for none.
pub fn span_text(alloc: Global, span: Option<Span>) -> Mem<Text>
    ensures { IfOk result (λ text. text ≡ span_text span) }
{
    match span {
        None => Text::from_str(alloc, "-"),
        Some(Span::CallSite) => Text::from_str(alloc, "call"),
        Some(Span::At { start, end, .. }) => {
            let mut text = Text::from_string(alloc, start.to_string(alloc)?)?;
            text.push_str("..")?;
            let end = end.to_string(alloc)?;
            text.push_str(end.as_str())?;
            Ok(text)
        }
    }
}

pub fn push_span(alloc: Global, out: &mut Text, span: Option<Span>) -> Mem<()>
    ensures ok { OnOk result (out.new ≡ out.old ++ span_text span) }
    ensures err { OnErr result (out.new ≡ out.old) }
{
    let text = span_text(alloc, span)?;
    out.push_str(text.as_str())
}

/// The text with `\\`, `\n`, `\r`, `\t` and `\0` for the characters that these stand for.
pub fn escaped(alloc: Global, text: &str) -> Mem<Text>
    ensures { IfOk result (λ it. it ≡ escaped text.now) }
{
    if has_escapes(text) {
        escaped_by_char(alloc, text)
    } else {
        Text::from_str(alloc, text)
    }
}

pub fn push_escaped(alloc: Global, out: &mut Text, text: &str) -> Mem<()>
    ensures ok { OnOk result (out.new ≡ out.old ++ escaped text.now) }
    ensures err { OnErr result (out.new ≡ out.old) }
{
    if has_escapes(text) {
        let shown = escaped_by_char(alloc, text)?;
        out.push_str(shown.as_str())
    } else {
        out.push_str(text)
    }
}

/// Whether a character of the text has an escape. Each that has one is ASCII, so that the bytes tell it.
fn has_escapes(text: &str) -> bool
    ensures { result ≡ list_any has_escape text.now }
{
    text.as_bytes().iter().any(|byte| has_escape(*byte))
}

fn has_escape(byte: u8) -> bool
    ensures { result ≡ has_escape byte }
{
    matches!(byte, b'\\' | b'\n' | b'\r' | b'\t' | b'\0')
}

fn escaped_by_char(alloc: Global, text: &str) -> Mem<Text>
    ensures { IfOk result (λ it. it ≡ escaped text.now) }
{
    let mut shown = Text::new(alloc);
    for c in text.chars() {
        push_escaped_char(&mut shown, c)?;
    }
    Ok(shown)
}

pub fn push_escaped_char(out: &mut Text, c: char) -> Mem<()>
    ensures ok { OnOk result (out.new ≡ out.old ++ escaped_char c) }
    ensures err { OnErr result (out.new ≡ out.old) }
{
    match c {
        '\\' => out.push_str("\\\\"),
        '\n' => out.push_str("\\n"),
        '\r' => out.push_str("\\r"),
        '\t' => out.push_str("\\t"),
        '\0' => out.push_str("\\0"),
        _ => out.push(c),
    }
}

/// What is wrong, without the field.
pub fn kind_text(alloc: Global, kind: &FaultKind) -> Mem<Text>
    ensures { IfOk result (λ text. text ≡ kind_text kind.now) }
{
    let mut text = Text::new(alloc);
    push_kind(alloc, &mut text, kind)?;
    Ok(text)
}

/// The fields that lead to a fault, as ` at outer/inner`; nothing of no field.
pub fn path_text(alloc: Global, path: &[Text]) -> Mem<Text>
    ensures { IfOk result (λ text. text ≡ path_text path.now) }
{
    let mut text = Text::new(alloc);
    push_path(&mut text, path)?;
    Ok(text)
}

fn push_kind(alloc: Global, out: &mut Text, kind: &FaultKind) -> Mem<()>
    ensures { OnOk result (out.new ≡ out.old ++ kind_text kind.now) }
{
    match kind {
        FaultKind::Custom(message) => out.push_str(message.as_str()),
        FaultKind::DuplicateField(name) => push_naming(out, "Duplicate field ", name),
        FaultKind::MissingField(name) => push_naming(out, "Missing field ", name),
        FaultKind::UnsupportedShape { observed, expected } => {
            push_naming(out, "Unsupported shape ", observed)?;
            push_expected(out, expected)
        }
        FaultKind::UnknownField { name, alts } => {
            push_naming(out, "Unknown field: ", name)?;
            push_alternatives(alloc, out, alts)
        }
        FaultKind::UnexpectedFormat(format) => {
            push_naming(out, "Unexpected meta-item format ", format)
        }
        FaultKind::UnexpectedType(name) => push_naming(out, "Unexpected type ", name),
        FaultKind::UnknownValue { name, alts } => {
            push_naming(out, "Unknown value: ", name)?;
            push_alternatives(alloc, out, alts)
        }
        FaultKind::TooFewItems(least) => {
            push_counting(alloc, out, "Too few items: Expected at least ", *least)
        }
        FaultKind::TooManyItems(most) => {
            push_counting(alloc, out, "Too many items: Expected no more than ", *most)
        }
    }
}

fn push_naming(out: &mut Text, message: &str, name: &Text) -> Mem<()>
    ensures { OnOk result (out.new ≡ out.old ++ (message.now ++ quoted name.now)) }
{
    out.push_str(message)?;
    push_quoted(out, name)
}

fn push_counting(alloc: Global, out: &mut Text, message: &str, count: usize) -> Mem<()>
    ensures { OnOk result (out.new ≡ out.old ++ (message.now ++ decimal count)) }
{
    out.push_str(message)?;
    let digits = count.to_string(alloc)?;
    out.push_str(digits.as_str())
}

fn push_quoted(out: &mut Text, name: &Text) -> Mem<()>
    ensures { OnOk result (out.new ≡ out.old ++ quoted name.now) }
{
    out.push('`')?;
    out.push_str(name.as_str())?;
    out.push('`')
}

fn push_expected(out: &mut Text, expected: &Option<Text>) -> Mem<()>
    ensures { OnOk result (out.new ≡ out.old ++ expected_text expected.now) }
{
    let Some(expected) = expected else {
        return Ok(());
    };
    out.push_str(". Expected ")?;
    out.push_str(expected.as_str())?;
    out.push('.')
}

fn push_alternatives(alloc: Global, out: &mut Text, alts: &Alts) -> Mem<()>
    ensures { OnOk result (out.new ≡ out.old ++ alternatives_text alts.now.keys) }
{
    let Some(names) = alts.up_to(alloc, MOST_NAMED)? else {
        return Ok(());
    };
    if names.is_empty() {
        return Ok(());
    }
    out.push_str(". Available values: ")?;
    push_names(out, &names)
}

fn push_names(out: &mut Text, names: &BTreeSet<Text>) -> Mem<()>
    ensures { OnOk result (out.new ≡ out.old ++ join_by quoted (codes ", ") names.now.keys) }
{
    let mut names = names.iter();
    let Some(first) = names.next() else {
        return Ok(());
    };
    push_quoted(out, first)?;
    for name in names {
        out.push_str(", ")?;
        push_quoted(out, name)?;
    }
    Ok(())
}

fn push_path(out: &mut Text, path: &[Text]) -> Mem<()>
    ensures { OnOk result (out.new ≡ out.old ++ path_text path.now) }
{
    let [outermost, inner @ ..] = path else {
        return Ok(());
    };
    out.push_str(" at ")?;
    out.push_str(outermost.as_str())?;
    for name in inner {
        out.push('/')?;
        out.push_str(name.as_str())?;
    }
    Ok(())
}
