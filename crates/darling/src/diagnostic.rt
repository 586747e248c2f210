//! What a person is told of how a run ended, beside the line of the refusal.

use base_core::{Mem, Text};
use darling_run::Status;
use run_diagnostic::{
    push_bad_row, push_duplicate, push_form, push_no_parts, push_no_receiver, push_not_text,
    push_rejected, push_syntax, push_too_deep, push_unbuilt, push_unknown_function,
    push_unknown_type,
};
use run_parts::{Parts, as_text, divide};
use std::alloc::Global;

/// What is told of how a run on the input ended; nothing where it was done.
pub(crate) fn diagnostic(alloc: Global, input: &[u8], status: &Status) -> Mem<Text> {
    let mut out = Text::new(alloc);
    match status {
        Status::NotText { at } => push_not_text(alloc, &mut out, input, *at as usize)?,
        status => push_refusal(alloc, &mut out, input, status)?,
    }
    Ok(out)
}

fn push_refusal(alloc: Global, out: &mut Text, input: &[u8], status: &Status) -> Mem<()> {
    let Ok(text) = as_text(input) else {
        return Ok(());
    };
    match divide(text) {
        Some(parts) => push_in_parts(alloc, out, &parts, status),
        None => push_no_parts(alloc, out, text),
    }
}

fn push_in_parts(alloc: Global, out: &mut Text, parts: &Parts<'_>, status: &Status) -> Mem<()> {
    match status {
        Status::BadTable { line } => push_bad_row(alloc, out, parts, *line),
        Status::TooDeep { part, at } => push_too_deep(alloc, out, parts, *part, *at),
        Status::Syntax { part, at } => push_syntax(alloc, out, parts, *part, *at),
        Status::Unbuilt { span } => push_unbuilt(alloc, out, parts, *span),
        Status::DuplicateName { span } => push_duplicate(alloc, out, parts, *span),
        Status::Rejected(it) => push_rejected(alloc, out, parts, it),
        Status::Unsupported { form, span } => push_form(alloc, out, parts, *form, *span),
        Status::UnknownType { span } => push_unknown_type(alloc, out, parts, *span),
        Status::UnknownCallable { span } => push_unknown_function(alloc, out, parts, *span),
        Status::NoReceiver => push_no_receiver(out, parts),
        Status::Done
        | Status::Usage
        | Status::ReadFault
        | Status::TooLong
        | Status::NotText { .. }
        | Status::NoParts
        | Status::WriteFault
        | Status::NoMemory => Ok(()),
    }
}
