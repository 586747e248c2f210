//! What one derive of a declaration compiles to.

ghost use Rattle.std.specs.Prelude.{◌≡◌, IfOk};
ghost use Rattle.run_accepted.specs.Steps as steps;

use crate::derive_options::DeriveOptions;
use crate::rejected::{CompileFail, Rejected};
use base_core::{Mem, TryClone};
use codegen_program::{Derive, Unit};
use error_core::Fail;
use node_core::DeriveInput;
use options_core::{
    FdiOptions, FromAttributesOptions, FromFieldOptions, FromMetaOptions, FromTypeParamOptions,
    FromVariantOptions,
};
use options_rows::RenameTable;
use std::alloc::Global;

/// The unit of the declaration of this number under this derive, or the faults of its options.
pub(crate) fn unit_under(
    alloc: Global,
    decl: &DeriveInput,
    number: u32,
    derive: Derive,
    table: &RenameTable,
) -> Result<Unit, CompileFail>
    ensures { steps.MakesUnit table.now number decl.now derive result }
{
    match derive {
        Derive::FromMeta => unit_by::<FromMetaOptions>(alloc, decl, number, derive, table),
        Derive::FromAttributes => {
            unit_by::<FromAttributesOptions>(alloc, decl, number, derive, table)
        }
        Derive::FromDeriveInput => unit_by::<FdiOptions>(alloc, decl, number, derive, table),
        Derive::FromField => unit_by::<FromFieldOptions>(alloc, decl, number, derive, table),
        Derive::FromTypeParam => unit_by::<FromTypeParamOptions>(
            alloc, decl, number, derive, table,
        ),
        Derive::FromVariant => unit_by::<FromVariantOptions>(alloc, decl, number, derive, table),
    }
}

/// What such options of the declaration compile to, or their faults.
fn unit_by<O: DeriveOptions>(
    alloc: Global,
    decl: &DeriveInput,
    number: u32,
    derive: Derive,
    table: &RenameTable,
) -> Result<Unit, CompileFail>
    ensures { steps.MakesBy (O.reader table.now decl.now) (λ options. O.IsUnit options number) decl.now derive result }
{
    match O::of(alloc, decl, table) {
        Ok(options) => Ok(options.compiled(alloc, number)?),
        Err(fail) => Err(rejection(alloc, decl, derive, fail)?),
    }
}

/// The declaration and the derive with the faults of the options.
fn rejection(alloc: Global, decl: &DeriveInput, derive: Derive, fail: Fail) -> Mem<CompileFail>
    ensures { IfOk result (λ it. it ≡ steps.rejection decl.now derive fail) }
{
    let Some(error) = fail.into_error() else {
        return Ok(CompileFail::NoMemory);
    };
    let faults = error.into_faults(alloc)?;
    let decl = decl.ident.try_clone(alloc)?;
    Ok(CompileFail::Rejected(Rejected {
        decl,
        derive,
        faults,
    }))
}
