//! The line that tells of a refusal.

ghost use Rattle.std.specs.Prelude.{◌≡◌, IfOk};
ghost use Rattle.darling_run.specs.Status as spec;

use crate::status::Status;
use base_core::{Mem, Text};
use codegen_program::Derive;
use error_fault::push_span;
use run_source::{Form, Rejected};
use run_text::push_fault_lines;
use std::alloc::Global;
use tok_types::Span;

/// The line that tells of a refusal. It is empty for a status that is none, and where nothing can
/// be written.
pub fn refusal_text(alloc: Global, status: &Status) -> Mem<Text>
    ensures { IfOk result (λ text. text ≡ spec.refusal_text status.now) }
{
    match status {
        Status::Done | Status::WriteFault | Status::NoMemory => Ok(Text::new(alloc)),
        Status::Usage => Text::from_str(alloc, "refused: usage\n"),
        Status::ReadFault => Text::from_str(alloc, "refused: read fault\n"),
        Status::TooLong => Text::from_str(alloc, "refused: input over 16777216 bytes\n"),
        Status::NotText { at } => number_line(alloc, "refused: not UTF-8 at ", *at),
        Status::NoParts => Text::from_str(alloc, "refused: no parts\n"),
        Status::BadTable { line } => number_line(alloc, "refused: bad table line ", *line),
        Status::TooDeep { part, at } => {
            place_line(alloc, "refused: too deep in part ", *part, *at)
        }
        Status::Syntax { part, at } => place_line(alloc, "refused: syntax in part ", *part, *at),
        Status::Unbuilt { span } => span_line(alloc, "refused: unbuilt at ", *span),
        Status::DuplicateName { span } => span_line(alloc, "refused: duplicate name at ", *span),
        Status::Rejected(it) => options_line(alloc, it),
        Status::Unsupported { form, span } => span_line(alloc, form_reason(*form), *span),
        Status::UnknownType { span } => span_line(alloc, "refused: unknown type at ", *span),
        Status::UnknownCallable { span } => {
            span_line(alloc, "refused: unknown callable at ", *span)
        }
        Status::NoReceiver => Text::from_str(alloc, "refused: no receiver\n"),
    }
}

/// How the line of a form begins that is not supported.
fn form_reason(form: Form) -> &'static str
    ensures { result.now ≡ spec.form_reason form }
{
    match form {
        Form::EmptyEnum => "refused: unsupported empty enum at ",
        Form::Tuple => "refused: unsupported tuple at ",
        Form::Generics => "refused: unsupported generics at ",
        Form::GeneratedName => "refused: unsupported generated name at ",
        Form::IdentUnderAttributes => "refused: unsupported ident under FromAttributes at ",
        Form::MagicBesideTransparent => "refused: unsupported magic beside transparent at ",
        Form::InheritedDefault => "refused: unsupported inherited default at ",
        Form::Transform => "refused: unsupported transform at ",
        Form::FromNone => "refused: unsupported from_none at ",
        Form::FromExpr => "refused: unsupported from_expr at ",
    }
}

fn number_line(alloc: Global, reason: &str, number: u32) -> Mem<Text>
    ensures { IfOk result (λ text. text ≡ spec.number_line reason.now number) }
{
    let mut text = Text::from_str(alloc, reason)?;
    text.push_str(number.to_string(alloc)?.as_str())?;
    text.push_str("\n")?;
    Ok(text)
}

fn place_line(alloc: Global, reason: &str, part: u32, at: u32) -> Mem<Text>
    ensures { IfOk result (λ text. text ≡ spec.place_line reason.now part at) }
{
    let mut text = Text::from_str(alloc, reason)?;
    text.push_str(part.to_string(alloc)?.as_str())?;
    text.push_str(" at ")?;
    text.push_str(at.to_string(alloc)?.as_str())?;
    text.push_str("\n")?;
    Ok(text)
}

fn span_line(alloc: Global, reason: &str, span: Span) -> Mem<Text>
    ensures { IfOk result (λ text. text ≡ spec.span_line reason.now span) }
{
    let mut text = Text::from_str(alloc, reason)?;
    push_span(alloc, &mut text, Some(span))?;
    text.push_str("\n")?;
    Ok(text)
}

fn options_line(alloc: Global, rejected: &Rejected) -> Mem<Text>
    ensures { IfOk result (λ text. text ≡ spec.options_line rejected.now) }
{
    let mut text = Text::from_str(alloc, "refused: options of ")?;
    rejected.decl.push_to(&mut text)?;
    text.push_str(" under ")?;
    text.push_str(derive_name(rejected.derive))?;
    text.push_str(": ")?;
    push_fault_lines(alloc, &mut text, rejected.faults.as_slice())?;
    text.push_str("\n")?;
    Ok(text)
}

/// The name of the trait.
fn derive_name(derive: Derive) -> &'static str
    ensures { result.now ≡ spec.derive_name derive }
{
    match derive {
        Derive::FromMeta => "FromMeta",
        Derive::FromAttributes => "FromAttributes",
        Derive::FromDeriveInput => "FromDeriveInput",
        Derive::FromField => "FromField",
        Derive::FromTypeParam => "FromTypeParam",
        Derive::FromVariant => "FromVariant",
    }
}
