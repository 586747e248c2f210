//! Which declarations can be run with a host.

ghost use Rattle.std.specs.Prelude.{◌≡◌, ◌<◌, ◌^◌, ◌++◌, length, IfOk, OnOk};
ghost use Rattle.machine_forms.specs.Names as names;
ghost use Rattle.run_accepted.specs.Accepted as spec;

use crate::error::RunError;
use crate::forms::first_form;
use crate::{compile, derives_of, repeated_derives};
use base_core::{Items, Mem};
use codegen_program::Program;
use machine_fit::refusals;
use machine_forms::{Unfit, earliest, repeated_names};
use machine_host::Host;
use node_core::DeriveInput;
use options_forms::Unsupported;
use options_rows::RenameTable;
use std::alloc::Global;
use tok_types::Span;

/// Whether the declarations can be run with the host, and else why not.
///
/// Which declarations have forms that no run reads yet is told by [`unbuilt`](crate::unbuilt), and not here.
pub fn accepted<H: Host>(
    alloc: Global,
    decls: &[DeriveInput],
    table: &RenameTable,
    host: &H,
) -> Result<(), RunError>
    requires few { length decls.now < 2 ^ 32 }
    ensures { spec.Accepts (H.says host.now) table.now decls.now result }
{
    program_of(alloc, decls, table, host)?;
    Ok(())
}

/// The program of declarations that can be run with the host, and else why they can't.
pub fn program_of<H: Host>(
    alloc: Global,
    decls: &[DeriveInput],
    table: &RenameTable,
    host: &H,
) -> Result<Program, RunError>
    requires few { length decls.now < 2 ^ 32 }
    ensures { spec.Compiles (H.says host.now) table.now decls.now result }
{
    if let Some(span) = duplicate(alloc, decls)? {
        return Err(RunError::DuplicateName { span });
    }
    let program = compile(alloc, decls, table)?;
    if let Some(Unsupported { form, span }) = first_form(alloc, decls, table)? {
        return Err(RunError::Unsupported { form, span });
    }
    match unfitness(alloc, &program, host)? {
        Some(unfit) => Err(RunError::from(unfit)),
        None => Ok(program),
    }
}

/// What stands first in the text of all that stands against running the program with the host.
fn unfitness<H: Host>(alloc: Global, program: &Program, host: &H) -> Mem<Option<Unfit>>
    ensures { IfOk result (λ it. it ≡ spec.unfitness (H.says host.now) program.now) }
{
    let refusals = refusals(alloc, program, host)?;
    Ok(refusals.first_in_text())
}

/// The first place in the text where a name or a derive stands twice.
fn duplicate(alloc: Global, decls: &[DeriveInput]) -> Mem<Option<Span>>
    ensures { IfOk result (λ it. it ≡ spec.duplicate decls.now) }
{
    let mut spans = Items::new(alloc);
    for decl in decls {
        push_derives(alloc, decl, &mut spans)?;
    }
    push_names(alloc, decls, &mut spans)?;
    Ok(earliest(spans.as_slice()))
}

/// Adds the places where the declaration names a derive again.
fn push_derives(alloc: Global, decl: &DeriveInput, spans: &mut Items<Span>) -> Mem<()>
    ensures { OnOk result (spans.new ≡ spans.old ++ spec.derives_named_again decl.now) }
{
    let derives = derives_of(alloc, decl.attrs.as_slice())?;
    let repeated = repeated_derives(alloc, derives.as_slice())?;
    push_all(repeated.as_slice(), spans)
}

/// Adds the places where declarations, fields and variants have a name that stands before.
fn push_names(alloc: Global, decls: &[DeriveInput], spans: &mut Items<Span>) -> Mem<()>
    ensures { OnOk result (spans.new ≡ spans.old ++ names.repeated_names decls.now) }
{
    let repeated = repeated_names(alloc, decls)?;
    push_all(repeated.as_slice(), spans)
}

fn push_all(more: &[Span], spans: &mut Items<Span>) -> Mem<()>
    ensures { OnOk result (spans.new ≡ spans.old ++ more.now) }
{
    for span in more {
        spans.push(*span)?;
    }
    Ok(())
}
