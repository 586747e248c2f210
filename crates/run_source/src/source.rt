//! Two texts, run.

ghost use Rattle.std.specs.Prelude.{◌≡◌, ◌≤◌, length};
ghost use Rattle.run_source.specs.Source as spec;

use crate::part::read_part;
use crate::report::Report;
use crate::run::run_program;
use crate::units::receiver;
use base_core::{Items, TryClone};
use codegen_program::Program;
use law_options::{Host, RenameTable, earliest};
use machine_execute::Outcome;
use node_core::DeriveInput;
use run_accepted::{RunError, program_of, unbuilt};
use std::alloc::Global;
use tok_core::MAX_LEN;

/// The items of both texts.
pub(crate) struct Texts {
    pub(crate) declarations: Items<DeriveInput>,
    pub(crate) subjects: Items<DeriveInput>,
}

impl Texts {
    /// The report of their run under the table.
    fn into_report(self, table: RenameTable, ran: Ran) -> Report
        ensures { result ≡ spec.report_of self table ran }
    {
        let Texts {
            declarations,
            subjects,
        } = self;
        let (program, receiver, outcomes) = ran.into_parts();
        Report {
            declarations,
            table,
            program,
            receiver,
            subjects,
            outcomes,
        }
    }
}

impl Drop for Texts {
    fn drop(self) {
        let Self {
            declarations: _declarations,
            subjects: _subjects,
        } = self;
    }
}

/// What the declarations are compiled to, and what it makes of the subjects.
pub(crate) struct Ran {
    pub(crate) program: Program,
    pub(crate) receiver: u32,
    pub(crate) outcomes: Items<Outcome>,
}

impl Ran {
    fn into_parts(self) -> (Program, u32, Items<Outcome>)
        ensures { result ≡ (self.program, self.receiver, self.outcomes) }
    {
        let Ran {
            program,
            receiver,
            outcomes,
        } = self;
        (program, receiver, outcomes)
    }
}

impl Drop for Ran {
    fn drop(self) {
        let Self {
            program: _program,
            receiver: _,
            outcomes: _outcomes,
        } = self;
    }
}

/// Reads a text of declarations and one of items, and runs the last declaration's parser over each item.
///
/// The declarations' spans have source 0, and the items' source 1. A text has at most [`MAX_LEN`] bytes.
///
/// ```
/// match run_source(alloc, DECLARATIONS, items, &table, &host) {
///     Ok(report) => Ok(report),
///     Err(_) => Err(Fail::new(format_args!("{items} is refused"))),
/// }
/// ```
pub fn run_source<H: Host>(
    alloc: Global,
    declarations: &str,
    subjects: &str,
    table: &RenameTable,
    host: &H,
) -> Result<Report, RunError>
    requires declarations { length declarations.now ≤ MAX_LEN }
    requires subjects { length subjects.now ≤ MAX_LEN }
    ensures { spec.Runs (H.says host.now) table.now declarations.now subjects.now result }
{
    let texts = read_texts(alloc, declarations, subjects)?;
    let ran = run_texts(alloc, &texts, table, host)?;
    let table = table.try_clone(alloc)?;
    Ok(texts.into_report(table, ran))
}

/// The items of both texts. Of a text that is too deep and one that is wrong, the one that is too deep is told.
fn read_texts(alloc: Global, declarations: &str, subjects: &str) -> Result<Texts, RunError>
    requires declarations { length declarations.now ≤ MAX_LEN }
    requires subjects { length subjects.now ≤ MAX_LEN }
    ensures { spec.Reads declarations.now subjects.now result }
{
    let first = read_part(alloc, 0, declarations)?;
    let second = read_part(alloc, 1, subjects)?;
    first.into_texts(second)
}

/// Compiles the declarations, and runs their program on the subjects.
fn run_texts<H: Host>(
    alloc: Global,
    texts: &Texts,
    table: &RenameTable,
    host: &H,
) -> Result<Ran, RunError>
    ensures { spec.RunsTexts (H.says host.now) table.now texts.now result }
{
    let program = built_program(alloc, texts.declarations.as_slice(), table, host)?;
    let found = receiver(&program)?;
    let Some(receiver) = found else {
        unreachable!();
    };
    let outcomes = run_program(alloc, &program, texts.subjects.as_slice(), host)?;
    Ok(Ran {
        program,
        receiver,
        outcomes,
    })
}

/// The program of declarations whose forms are all read, and which can be run with the host.
fn built_program<H: Host>(
    alloc: Global,
    decls: &[DeriveInput],
    table: &RenameTable,
    host: &H,
) -> Result<Program, RunError>
    ensures { spec.Compiles (H.says host.now) table.now decls.now result }
{
    let spans = unbuilt(alloc, decls)?;
    if let Some(span) = earliest(spans.as_slice()) {
        return Err(RunError::Unbuilt { span });
    }
    if u32::try_from(decls.len()).is_err() {
        return Err(RunError::NoMemory);
    }
    program_of(alloc, decls, table, host)
}
