//! A run with a host of one's own, step by step.

ghost use Rattle.std.specs.Prelude.{◌≡◌, ◌≤◌, [], IfOk, length};
ghost use Rattle.darling_run.specs.Accepted.{Accepts};
ghost use Rattle.darling_run.specs.Unbuilt.{unbuilt};
ghost use Rattle.uses_run.specs.Run as spec;
ghost use Rattle.uses_run.specs.VersionHost.{versioned};

use crate::version_host::VersionHost;
use darling_run::{RenameTable, RunError, Text, accepted, report_text, run_source, unbuilt};
use machine_core::DeriveInput;
use std::alloc::Global;
use tok_core::MAX_LEN;

/// Whether declarations that were parsed before can be run with the host, and else why not.
pub fn accepts(alloc: Global, decls: &[DeriveInput], host: &VersionHost) -> Result<(), RunError>
    ensures answer { unbuilt decls.now ≡ [] → Accepts (versioned host.now.version) [] decls.now result }
    ensures built { IfOk result (λ done. unbuilt decls.now ≡ []) }
{
    let forms = unbuilt(alloc, decls)?;
    if let [span, ..] = forms.as_slice() {
        return Err(RunError::Unbuilt { span: *span });
    }
    if u32::try_from(decls.len()).is_err() {
        return Err(RunError::NoMemory);
    }
    let table = RenameTable::empty(alloc);
    accepted(alloc, decls, &table, host)
}

/// What the tool writes of the items, read as the last of the declarations with the host; else why they can't be run.
pub fn written(
    alloc: Global,
    declarations: &str,
    items: &str,
    host: &VersionHost,
) -> Result<Text, RunError>
    requires declarations { length declarations.now ≤ MAX_LEN }
    requires items { length items.now ≤ MAX_LEN }
    ensures { spec.Writes host.now.version declarations.now items.now result }
{
    let table = RenameTable::empty(alloc);
    let report = run_source(alloc, declarations, items, &table, host)?;
    let text = report_text(alloc, &report)?;
    Ok(text)
}
