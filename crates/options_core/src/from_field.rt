//! The options of a receiver that derives `FromField`.

ghost use Rattle.std.specs.Prelude.{◌≡◌};
ghost use Rattle.error_fault.specs.Outcome.{Value, settle};
ghost use Rattle.error_core.specs.Answers.{Answers};
ghost use Rattle.node_core.specs.Bodies.{is_union};
ghost use Rattle.options_members.specs.Body.{union_faults};
ghost use Rattle.options_meta.specs.Stages.{new_outcome};
ghost use Rattle.options_core.specs.Readers.{from_field_reader, from_field_staged};
ghost use Rattle.options_core.specs.Receivers.{from_field_start};

use crate::outer_from::{OuterFrom, take_name};
use base_core::Mem;
use codegen_program::{Derive, Magic};
use error_core::{Accumulator, Result};
use node_core::{DeriveInput, Field, Meta, Variant};
use options_members::validate;
use options_rows::{ParseAttribute, ParseData, RenameTable};
use std::alloc::Global;
use tok_types::Ident;

/// The options of a receiver that derives `FromField`.
pub struct FromFieldOptions {
    pub base: OuterFrom,
    /// The field that takes the visibility.
    pub vis: Option<Ident>,
    /// The field that takes the type.
    pub ty: Option<Ident>,
}

impl FromFieldOptions {
    /// The options of a declaration, or all that is wrong with them.
    pub fn new(alloc: Global, di: &DeriveInput, table: &RenameTable) -> Result<FromFieldOptions>
        ensures { Answers (λ it. it) result (new_outcome (from_field_reader table.now di.now) di.now) }
    {
        FromFieldOptions::read(alloc, di, table)
    }

    /// One stage behind another.
    fn read(alloc: Global, di: &DeriveInput, table: &RenameTable) -> Result<FromFieldOptions>
        ensures { Answers (λ it. it) result (from_field_staged table.now di.now) }
    {
        let start = FromFieldOptions::start(alloc, di, table)?;
        let read = start.parse_attributes(alloc, di.attrs.as_slice(), table)?;
        read.parse_body(alloc, &di.body, table)
    }

    /// No option and no member yet. A union is refused.
    fn start(alloc: Global, di: &DeriveInput, table: &RenameTable) -> Result<FromFieldOptions>
        ensures { Answers (λ it. it) result
            (settle (union_faults (is_union di.now.body)) (Value (from_field_start table.now di.now))) }
    {
        Ok(FromFieldOptions {
            base: OuterFrom::start(alloc, di, table)?,
            vis: None,
            ty: None,
        })
    }
}

impl Drop for FromFieldOptions {
    fn drop(self) {
        let Self {
            base: _base,
            vis: _vis,
            ty: _ty,
        } = self;
    }
}

impl ParseAttribute for FromFieldOptions {
    ghost use Rattle.std.specs.Prelude.{refl};
    ghost use Rattle.options_core.specs.ContainerLaws.{of_from_field-more};
    ghost use Rattle.options_core.specs.ContainerOptions.{of_from_field, of_outer_faults};

    ghost options = { of_from_field };

    ghost faults = { λ rules set. of_outer_faults rules set.base };

    fn parse_nested(&mut self, alloc: Global, item: &Meta, table: &RenameTable) -> Result<()> {
        self.base.parse_nested(alloc, item, table)
    }

    ghost more = { of_from_field-more };

    ghost none = { λ rules set. refl };
}

impl ParseData for FromFieldOptions {
    ghost use Rattle.options_meta.specs.Stages.{no_variants};
    ghost use Rattle.options_core.specs.Readers.{from_field_own};
    ghost use Rattle.options_core.specs.Receivers.{outer_checks};

    ghost of_field = { from_field_own };

    ghost of_variant = { no_variants };

    ghost checks = { λ set. outer_checks set.base };

    fn own_field(
        &mut self,
        alloc: Global,
        field: &Field,
        table: &RenameTable,
    ) -> Result<Option<()>> {
        match Magic::of(Derive::FromField, field) {
            Some(Magic::Vis) => take_name(alloc, &mut self.vis, field),
            Some(Magic::Ty) => take_name(alloc, &mut self.ty, field),
            part => self.base.take_field(alloc, part, field, table),
        }
    }

    fn own_variant(
        &mut self,
        _alloc: Global,
        _variant: &Variant,
        _table: &RenameTable,
    ) -> Result<Option<()>> {
        Ok(None)
    }

    fn validate_body(&self, alloc: Global, errors: &mut Accumulator) -> Mem<()> {
        validate(&self.base, alloc, errors)
    }
}
