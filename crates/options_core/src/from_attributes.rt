//! The options of a receiver that derives `FromAttributes`.

ghost use Rattle.std.specs.Prelude.{◌≡◌, IfOk};
ghost use Rattle.error_fault.specs.Outcome.{Value, settle};
ghost use Rattle.error_core.specs.Answers.{Answers};
ghost use Rattle.error_core.specs.ErrorView.{One};
ghost use Rattle.node_core.specs.Bodies.{is_union};
ghost use Rattle.options_members.specs.Body.{union_faults};
ghost use Rattle.options_meta.specs.Stages.{new_outcome};
ghost use Rattle.options_core.specs.Readers.{attributes_reader, attributes_staged, attributes_whole};
ghost use Rattle.options_core.specs.Receivers as spec;
ghost use Rattle.options_core.specs.Receivers.{attributes_last, attributes_start};

use crate::outer_from::OuterFrom;
use base_core::Mem;
use body_core::ast::Data;
use codegen_program::{Derive, Magic};
use error_core::{Accumulator, Error, Fail, Result};
use node_core::{DeriveInput, Field, Meta, Variant};
use node_expr::Path;
use options_members::{Core, validate};
use options_rows::{ParseAttribute, ParseData, RenameTable};
use std::alloc::Global;

/// The options of a receiver that derives `FromAttributes`.
pub struct FromAttributesOptions {
    pub base: OuterFrom,
}

impl FromAttributesOptions {
    /// The options of a declaration, or all that is wrong with them.
    pub fn new(
        alloc: Global,
        di: &DeriveInput,
        table: &RenameTable,
    ) -> Result<FromAttributesOptions>
        ensures { Answers (λ it. it) result (new_outcome (attributes_reader table.now di.now) di.now) }
    {
        FromAttributesOptions::read_whole(alloc, di, table)
    }

    /// One stage behind another, and what is checked last.
    fn read_whole(
        alloc: Global,
        di: &DeriveInput,
        table: &RenameTable,
    ) -> Result<FromAttributesOptions>
        ensures { Answers (λ it. it) result (attributes_whole table.now di.now) }
    {
        let whole = FromAttributesOptions::read(alloc, di, table)?;
        whole.checked(alloc)
    }

    /// One stage behind another.
    fn read(alloc: Global, di: &DeriveInput, table: &RenameTable) -> Result<FromAttributesOptions>
        ensures { Answers (λ it. it) result (attributes_staged table.now di.now) }
    {
        let start = FromAttributesOptions::start(alloc, di, table)?;
        let read = start.parse_attributes(alloc, di.attrs.as_slice(), table)?;
        read.parse_body(alloc, &di.body, table)
    }

    /// No option and no member yet. A union is refused.
    fn start(alloc: Global, di: &DeriveInput, table: &RenameTable) -> Result<FromAttributesOptions>
        ensures { Answers (λ it. it) result
            (settle (union_faults (is_union di.now.body)) (Value (attributes_start table.now di.now))) }
    {
        Ok(FromAttributesOptions {
            base: OuterFrom::start(alloc, di, table)?,
        })
    }

    /// Some attribute is read, or the one field is read from all of them.
    fn checked(self, alloc: Global) -> Result<FromAttributesOptions>
        ensures { Answers (λ it. it) result (settle (attributes_last self) (Value self)) }
    {
        if is_whole(&self.base.container) || has_names(self.base.attr_names.0.as_slice()) {
            return Ok(self);
        }
        Err(Fail::Faults(collects_nothing(alloc)?))
    }
}

/// Whether a struct is read as its one field is.
fn is_whole(core: &Core) -> bool
    ensures { result ≡ spec.is_whole core.now }
{
    match &core.body {
        Data::Struct(it) => core.is_delegated(it),
        Data::Enum(_) => false,
    }
}

fn has_names(paths: &[Path]) -> bool
    ensures { result ≡ spec.has_names paths.now }
{
    match paths {
        [] => false,
        [_, ..] => true,
    }
}

#[tactic(auto, unfolding(crate::specs::Receivers::collects_nothing))]
fn collects_nothing(alloc: Global) -> Mem<Error>
    ensures { IfOk result (λ error. error ≡ One spec.collects_nothing) }
{
    Error::custom(alloc, "FromAttributes without attributes collects nothing")
}

impl Drop for FromAttributesOptions {
    fn drop(self) {
        let Self { base: _base } = self;
    }
}

impl ParseAttribute for FromAttributesOptions {
    ghost use Rattle.std.specs.Prelude.{refl};
    ghost use Rattle.options_core.specs.ContainerLaws.{of_attributes-more};
    ghost use Rattle.options_core.specs.ContainerOptions.{of_attributes, of_outer_faults};

    ghost options = { of_attributes };

    ghost faults = { λ rules set. of_outer_faults rules set.base };

    fn parse_nested(&mut self, alloc: Global, item: &Meta, table: &RenameTable) -> Result<()> {
        self.base.parse_nested(alloc, item, table)
    }

    ghost more = { of_attributes-more };

    ghost none = { λ rules set. refl };
}

impl ParseData for FromAttributesOptions {
    ghost use Rattle.options_meta.specs.Stages.{no_variants};
    ghost use Rattle.options_core.specs.Readers.{attributes_own};
    ghost use Rattle.options_core.specs.Receivers.{outer_checks};

    ghost of_field = { attributes_own };

    ghost of_variant = { no_variants };

    ghost checks = { λ set. outer_checks set.base };

    fn own_field(
        &mut self,
        alloc: Global,
        field: &Field,
        table: &RenameTable,
    ) -> Result<Option<()>> {
        let part = Magic::of(Derive::FromAttributes, field);
        self.base.take_field(alloc, part, field, table)
    }

    fn own_variant(
        &mut self,
        _alloc: Global,
        _variant: &Variant,
        _table: &RenameTable,
    ) -> Result<Option<()>> {
        Ok(None)
    }

    fn validate_body(&self, alloc: Global, errors: &mut Accumulator) -> Mem<()> {
        validate(&self.base, alloc, errors)
    }
}
