//! Whether a program can be run with a host.

ghost use Rattle.std.specs.Prelude.{◌≡◌, IfOk};
ghost use Rattle.machine_forms.specs.Answer.{Says};
ghost use Rattle.machine_fit.specs.Unfitness as spec;

use crate::checker::Checker;
use base_core::Mem;
use codegen_program::Program;
use machine_callables::Callables;
use machine_forms::{
    Host, Refusals, Unfit, duplicate_names, groups_of, is_receiver, item_flags, unsupported_forms,
};
use std::alloc::Global;

/// Whether the program can be run with the host, and else the first place that stands against it.
pub fn fit<H: Host>(alloc: Global, program: &Program, host: &H) -> Result<(), Unfit>
    ensures { Says result (spec.unfitness (H.says host.now) program.now) }
{
    let refusals = refusals(alloc, program, host)?;
    match refusals.first() {
        Some(unfit) => Err(unfit),
        None => Ok(()),
    }
}

/// All that stands against running the program with the host.
pub fn refusals<H: Host>(alloc: Global, program: &Program, host: &H) -> Mem<Refusals>
    ensures { IfOk result (λ it. it ≡ spec.refusals (H.says host.now) program.now) }
{
    let groups = groups_of(alloc, program)?;
    let items = item_flags(alloc, program, groups.as_slice())?;
    let defaults = host.defaulted(alloc, &program.decls)?;
    let checker = Checker {
        alloc,
        program,
        host,
        items,
        defaults,
    };
    let duplicate_names = duplicate_names(alloc, program, groups.as_slice())?;
    let unsupported = unsupported_forms(alloc, program, groups.as_slice())?;
    let unknown_types = checker.unknown_types(groups.as_slice())?;
    let callables = Callables {
        alloc,
        program,
        host,
    };
    let unknown_callables = callables.unknown_callables(groups.as_slice())?;
    Ok(Refusals {
        duplicate_names,
        unsupported,
        unknown_types,
        unknown_callables,
        has_receiver: has_receiver(program),
    })
}

/// Whether there is a last declaration, and items of a text are read as it.
fn has_receiver(program: &Program) -> bool
    ensures { result ≡ spec.has_receiver program.now }
{
    let count = program.decls.len();
    count > 0 && is_receiver(program.units.as_slice(), count - 1)
}
