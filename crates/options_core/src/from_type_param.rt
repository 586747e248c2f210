//! The options of a receiver that derives `FromTypeParam`.

ghost use Rattle.std.specs.Prelude.{◌≡◌};
ghost use Rattle.error_fault.specs.Outcome.{Value, settle};
ghost use Rattle.error_core.specs.Answers.{Answers};
ghost use Rattle.node_core.specs.Bodies.{is_union};
ghost use Rattle.options_members.specs.Body.{union_faults};
ghost use Rattle.options_meta.specs.Stages.{new_outcome};
ghost use Rattle.options_core.specs.Readers.{type_param_reader, type_param_staged};
ghost use Rattle.options_core.specs.Receivers.{type_param_start};

use crate::outer_from::{OuterFrom, take_name};
use base_core::Mem;
use codegen_program::{Derive, Magic};
use error_core::{Accumulator, Result};
use node_core::{DeriveInput, Field, Meta, Variant};
use options_members::validate;
use options_rows::{ParseAttribute, ParseData, RenameTable};
use std::alloc::Global;
use tok_types::Ident;

/// The options of a receiver that derives `FromTypeParam`.
pub struct FromTypeParamOptions {
    pub base: OuterFrom,
    /// The field that takes the bounds.
    pub bounds: Option<Ident>,
    /// The field that takes the default type.
    pub default: Option<Ident>,
}

impl FromTypeParamOptions {
    /// The options of a declaration, or all that is wrong with them.
    pub fn new(alloc: Global, di: &DeriveInput, table: &RenameTable) -> Result<FromTypeParamOptions>
        ensures { Answers (λ it. it) result (new_outcome (type_param_reader table.now di.now) di.now) }
    {
        FromTypeParamOptions::read(alloc, di, table)
    }

    /// One stage behind another.
    fn read(alloc: Global, di: &DeriveInput, table: &RenameTable) -> Result<FromTypeParamOptions>
        ensures { Answers (λ it. it) result (type_param_staged table.now di.now) }
    {
        let start = FromTypeParamOptions::start(alloc, di, table)?;
        let read = start.parse_attributes(alloc, di.attrs.as_slice(), table)?;
        read.parse_body(alloc, &di.body, table)
    }

    /// No option and no member yet. A union is refused.
    fn start(alloc: Global, di: &DeriveInput, table: &RenameTable) -> Result<FromTypeParamOptions>
        ensures { Answers (λ it. it) result
            (settle (union_faults (is_union di.now.body)) (Value (type_param_start table.now di.now))) }
    {
        Ok(FromTypeParamOptions {
            base: OuterFrom::start(alloc, di, table)?,
            bounds: None,
            default: None,
        })
    }
}

impl Drop for FromTypeParamOptions {
    fn drop(self) {
        let Self {
            base: _base,
            bounds: _bounds,
            default: _default,
        } = self;
    }
}

impl ParseAttribute for FromTypeParamOptions {
    ghost use Rattle.std.specs.Prelude.{refl};
    ghost use Rattle.options_core.specs.ContainerLaws.{of_type_param-more};
    ghost use Rattle.options_core.specs.ContainerOptions.{of_type_param, of_outer_faults};

    ghost options = { of_type_param };

    ghost faults = { λ rules set. of_outer_faults rules set.base };

    fn parse_nested(&mut self, alloc: Global, item: &Meta, table: &RenameTable) -> Result<()> {
        self.base.parse_nested(alloc, item, table)
    }

    ghost more = { of_type_param-more };

    ghost none = { λ rules set. refl };
}

impl ParseData for FromTypeParamOptions {
    ghost use Rattle.options_meta.specs.Stages.{no_variants};
    ghost use Rattle.options_core.specs.Readers.{type_param_own};
    ghost use Rattle.options_core.specs.Receivers.{outer_checks};

    ghost of_field = { type_param_own };

    ghost of_variant = { no_variants };

    ghost checks = { λ set. outer_checks set.base };

    fn own_field(
        &mut self,
        alloc: Global,
        field: &Field,
        table: &RenameTable,
    ) -> Result<Option<()>> {
        match Magic::of(Derive::FromTypeParam, field) {
            Some(Magic::Bounds) => take_name(alloc, &mut self.bounds, field),
            Some(Magic::Default) => take_name(alloc, &mut self.default, field),
            part => self.base.take_field(alloc, part, field, table),
        }
    }

    fn own_variant(
        &mut self,
        _alloc: Global,
        _variant: &Variant,
        _table: &RenameTable,
    ) -> Result<Option<()>> {
        Ok(None)
    }

    fn validate_body(&self, alloc: Global, errors: &mut Accumulator) -> Mem<()> {
        validate(&self.base, alloc, errors)
    }
}
