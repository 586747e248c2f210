//! The options of a declaration under each derive, and what they compile to.

ghost use Rattle.std.specs.Prelude.{◌≡◌, IfOk};
ghost use Rattle.codegen_outer.specs.CompiledOuter.{compiled_outer};
ghost use Rattle.error_core.specs.Answers.{Answers};
ghost use Rattle.options_core.specs.Stages.{new_outcome};

use base_core::Mem;
use codegen_outer::OuterFromImpl;
use codegen_program::Unit;
use error_core::Result;
use node_core::DeriveInput;
use options_core::{
    FdiOptions, FromAttributesOptions, FromFieldOptions, FromMetaOptions, FromTypeParamOptions,
    FromVariantOptions,
};
use options_rows::RenameTable;
use std::alloc::{AllocError, Global};

/// The options of a declaration under a derive.
pub(crate) trait DeriveOptions: Sized + Drop {
    ghost use Rattle.std.specs.Prelude.{ℕ};
    ghost use Rattle.codegen_program.specs.declared.program.«Unit».{«Unit» as Made};
    ghost use Rattle.node_core.specs.declared.derive.DeriveInput.{DeriveInput};
    ghost use Rattle.options_core.specs.Stages.{Reader};
    ghost use Rattle.options_rows.specs.Values.{Rules};

    /// How they are read.
    ghost reader: { Rules → DeriveInput → Reader Self };

    /// The units of this number that they compile to.
    ghost IsUnit: { Self → ℕ → Made → Type 0 };

    /// The options of the declaration, or all that is wrong with them.
    fn of(alloc: Global, decl: &DeriveInput, table: &RenameTable) -> Result<Self>
        ensures { Answers (λ it. it) result (new_outcome (reader table.now decl.now) decl.now) };

    /// What they compile to. More slots than a `u32` counts are want of memory.
    fn compiled(&self, alloc: Global, number: u32) -> Mem<Unit>
        ensures { IfOk result (λ unit. IsUnit self.now number unit) };
}

/// What an element is read by. More fields than a `u32` counts are want of memory.
fn outer_unit<'a, I: OuterFromImpl<'a>>(alloc: Global, left: &I, number: u32) -> Mem<Unit>
    ensures { IfOk result (λ unit. unit ≡ compiled_outer (I.outer left.now) number) }
{
    if left.as_outer().base.has_few_fields() {
        return left.unit_of(alloc, number);
    }
    Err(AllocError)
}

impl DeriveOptions for FromMetaOptions {
    ghost use Rattle.options_core.specs.Stages.{meta_reader};
    ghost use Rattle.run_accepted.specs.Compiled.{IsMetaUnit};

    ghost reader = { meta_reader };

    ghost IsUnit = { IsMetaUnit };

    fn of(alloc: Global, decl: &DeriveInput, table: &RenameTable) -> Result<FromMetaOptions> {
        FromMetaOptions::new(alloc, decl, table)
    }

    fn compiled(&self, alloc: Global, number: u32) -> Mem<Unit> {
        let left = self.as_impl(alloc)?;
        if left.base.has_few_slots() {
            return left.unit_of(alloc, number);
        }
        Err(AllocError)
    }
}

impl DeriveOptions for FromAttributesOptions {
    ghost use Rattle.options_core.specs.Readers.{attributes_reader};
    ghost use Rattle.run_accepted.specs.Compiled.{IsAttributesUnit};

    ghost reader = { attributes_reader };

    ghost IsUnit = { IsAttributesUnit };

    fn of(alloc: Global, decl: &DeriveInput, table: &RenameTable) -> Result<FromAttributesOptions> {
        FromAttributesOptions::new(alloc, decl, table)
    }

    fn compiled(&self, alloc: Global, number: u32) -> Mem<Unit> {
        let left = self.as_impl(alloc)?;
        outer_unit(alloc, &left, number)
    }
}

impl DeriveOptions for FdiOptions {
    ghost use Rattle.options_core.specs.Readers.{fdi_reader};
    ghost use Rattle.run_accepted.specs.Compiled.{IsInputUnit};

    ghost reader = { fdi_reader };

    ghost IsUnit = { IsInputUnit };

    fn of(alloc: Global, decl: &DeriveInput, table: &RenameTable) -> Result<FdiOptions> {
        FdiOptions::new(alloc, decl, table)
    }

    fn compiled(&self, alloc: Global, number: u32) -> Mem<Unit> {
        let left = self.as_impl(alloc)?;
        outer_unit(alloc, &left, number)
    }
}

impl DeriveOptions for FromFieldOptions {
    ghost use Rattle.options_core.specs.Readers.{from_field_reader};
    ghost use Rattle.run_accepted.specs.Compiled.{IsFieldUnit};

    ghost reader = { from_field_reader };

    ghost IsUnit = { IsFieldUnit };

    fn of(alloc: Global, decl: &DeriveInput, table: &RenameTable) -> Result<FromFieldOptions> {
        FromFieldOptions::new(alloc, decl, table)
    }

    fn compiled(&self, alloc: Global, number: u32) -> Mem<Unit> {
        let left = self.as_impl(alloc)?;
        outer_unit(alloc, &left, number)
    }
}

impl DeriveOptions for FromTypeParamOptions {
    ghost use Rattle.options_core.specs.Readers.{type_param_reader};
    ghost use Rattle.run_accepted.specs.Compiled.{IsTypeParamUnit};

    ghost reader = { type_param_reader };

    ghost IsUnit = { IsTypeParamUnit };

    fn of(alloc: Global, decl: &DeriveInput, table: &RenameTable) -> Result<FromTypeParamOptions> {
        FromTypeParamOptions::new(alloc, decl, table)
    }

    fn compiled(&self, alloc: Global, number: u32) -> Mem<Unit> {
        let left = self.as_impl(alloc)?;
        outer_unit(alloc, &left, number)
    }
}

impl DeriveOptions for FromVariantOptions {
    ghost use Rattle.options_core.specs.Readers.{from_variant_reader};
    ghost use Rattle.run_accepted.specs.Compiled.{IsVariantUnit};

    ghost reader = { from_variant_reader };

    ghost IsUnit = { IsVariantUnit };

    fn of(alloc: Global, decl: &DeriveInput, table: &RenameTable) -> Result<FromVariantOptions> {
        FromVariantOptions::new(alloc, decl, table)
    }

    fn compiled(&self, alloc: Global, number: u32) -> Mem<Unit> {
        let left = self.as_impl(alloc)?;
        outer_unit(alloc, &left, number)
    }
}
