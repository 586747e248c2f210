//! What an input is: two texts and a table, which are run, or why it is refused.

ghost use Rattle.std.specs.Prelude.{◌≡◌, ◌≤◌, length, IfSome};
ghost use Rattle.std.specs.Option.{option_copied};
ghost use Rattle.darling_run.specs.Input as spec;

use crate::status::Status;
use run_parts::{as_text, divide};
use run_source::{Host, RenameTable, Report, TableFail, run_source};
use std::alloc::Global;
use tok_core::MAX_LEN;

/// Runs the declarations of an input on its subjects.
pub(crate) fn run_input<H: Host>(alloc: Global, bytes: &[u8], host: &H) -> Result<Report, Status>
    requires { length bytes.now ≤ MAX_LEN }
    ensures { spec.Runs (H.says host.now) bytes.now result }
{
    let text = match as_text(bytes) {
        Ok(text) => text,
        Err(fault) => return Err(Status::NotText {
            at: fault.at as u32,
        }),
    };
    let Some(parts) = divide(text) else {
        return Err(Status::NoParts);
    };
    let table = table_of(alloc, parts.table)?;
    let report = run_source(alloc, parts.declarations, parts.subjects, &table, host)?;
    Ok(report)
}

/// The table of an input. One without a third part has no rows.
fn table_of(alloc: Global, third: Option<&str>) -> Result<RenameTable, Status>
    requires { IfSome third (λ third. length third.now ≤ MAX_LEN) }
    ensures { spec.IsTable (option_copied third.entry) result }
{
    let Some(text) = third else {
        return Ok(RenameTable::empty(alloc));
    };
    match RenameTable::parse(alloc, text) {
        Ok(table) => Ok(table),
        Err(TableFail::BadTable { line }) => Err(Status::BadTable { line }),
        Err(TableFail::NoMemory) => Err(Status::NoMemory),
    }
}
