//! The options of a receiver that derives `FromVariant`.

ghost use Rattle.std.specs.Prelude.{◌≡◌};
ghost use Rattle.error_fault.specs.Outcome.{Value, settle};
ghost use Rattle.error_core.specs.Answers.{Answers};
ghost use Rattle.options_rows.specs.Does.{Does};
ghost use Rattle.node_core.specs.Bodies.{is_union};
ghost use Rattle.options_rows.specs.Rows.{one};
ghost use Rattle.options_members.specs.Body.{union_faults};
ghost use Rattle.options_core.specs.Receivers.{from_variant_start};
ghost use Rattle.options_core.specs.ContainerOptions.{from_variant_faults, from_variant_options};
ghost use Rattle.options_core.specs.Readers.{from_variant_reader, from_variant_staged};
ghost use Rattle.options_meta.specs.Stages.{new_outcome};

use crate::names::FromVariantName;
use crate::outer_from::{OuterFrom, take_name, take_part};
use base_core::Mem;
use codegen_program::{Derive, Magic};
use error_core::{Accumulator, Result};
use node_core::{DeriveInput, Field, Meta, Variant};
use options_members::validate;
use options_rows::{DataShape, ForwardedField, ParseAttribute, ParseData, RenameTable, last_given};
use std::alloc::Global;
use tok_types::Ident;

/// The options of a receiver that derives `FromVariant`.
pub struct FromVariantOptions {
    pub base: OuterFrom,
    /// The variants that it takes; all, while the option is absent.
    pub supports: Option<DataShape>,
    /// The field `fields`, which takes the variant's fields.
    pub fields: Option<ForwardedField>,
    /// The field `discriminant`, which takes the expression behind `=`.
    pub discriminant: Option<Ident>,
}

impl FromVariantOptions {
    /// The options of a declaration, or all that is wrong with them.
    pub fn new(alloc: Global, di: &DeriveInput, table: &RenameTable) -> Result<FromVariantOptions>
        ensures { Answers (λ it. it) result (new_outcome (from_variant_reader table.now di.now) di.now) }
    {
        FromVariantOptions::read(alloc, di, table)
    }

    /// One stage behind another.
    fn read(alloc: Global, di: &DeriveInput, table: &RenameTable) -> Result<FromVariantOptions>
        ensures { Answers (λ it. it) result (from_variant_staged table.now di.now) }
    {
        let start = FromVariantOptions::start(alloc, di, table)?;
        let read = start.parse_attributes(alloc, di.attrs.as_slice(), table)?;
        read.parse_body(alloc, &di.body, table)
    }

    /// No option and no member yet. A union is refused.
    fn start(alloc: Global, di: &DeriveInput, table: &RenameTable) -> Result<FromVariantOptions>
        ensures { Answers (λ it. it) result
            (settle (union_faults (is_union di.now.body)) (Value (from_variant_start table.now di.now))) }
    {
        Ok(FromVariantOptions {
            base: OuterFrom::start(alloc, di, table)?,
            supports: None,
            fields: None,
            discriminant: None,
        })
    }

    /// Sets the option that the item is of, or for want of memory none.
    fn apply(
        &mut self,
        alloc: Global,
        name: FromVariantName,
        item: &Meta,
        table: &RenameTable,
    ) -> Result<()>
        ensures { Does result (from_variant_faults table.now name self.old item.now)
            (from_variant_options table.now self.old (one name item.now)) self.old self.new }
    {
        match name {
            FromVariantName::Supports => last_given(alloc, &mut self.supports, item),
            FromVariantName::Outer(name) => self.base.apply(alloc, name, item, table),
        }
    }
}

impl Drop for FromVariantOptions {
    fn drop(self) {
        let Self {
            base: _base,
            supports: _,
            fields: _fields,
            discriminant: _discriminant,
        } = self;
    }
}

impl ParseAttribute for FromVariantOptions {
    ghost use Rattle.std.specs.Prelude.{refl};
    ghost use Rattle.options_core.specs.ContainerLaws.{of_from_variant-more};
    ghost use Rattle.options_core.specs.ContainerOptions.{of_from_variant, of_from_variant_faults};

    ghost options = { of_from_variant };

    ghost faults = { of_from_variant_faults };

    fn parse_nested(&mut self, alloc: Global, item: &Meta, table: &RenameTable) -> Result<()> {
        self.apply(alloc, FromVariantName::of(item.path()), item, table)
    }

    ghost more = { of_from_variant-more };

    ghost none = { λ rules set. refl };
}

impl ParseData for FromVariantOptions {
    ghost use Rattle.options_core.specs.Readers.{from_variant_own};
    ghost use Rattle.options_core.specs.Receivers.{outer_checks};
    ghost use Rattle.options_meta.specs.Stages.{no_variants};

    ghost of_field = { from_variant_own };

    ghost of_variant = { no_variants };

    ghost checks = { λ set. outer_checks set.base };

    fn own_field(
        &mut self,
        alloc: Global,
        field: &Field,
        table: &RenameTable,
    ) -> Result<Option<()>> {
        match Magic::of(Derive::FromVariant, field) {
            Some(Magic::Discriminant) => take_name(alloc, &mut self.discriminant, field),
            Some(Magic::Fields) => take_part(alloc, &mut self.fields, field, table),
            part => self.base.take_field(alloc, part, field, table),
        }
    }

    fn own_variant(
        &mut self,
        _alloc: Global,
        _variant: &Variant,
        _table: &RenameTable,
    ) -> Result<Option<()>> {
        Ok(None)
    }

    fn validate_body(&self, alloc: Global, errors: &mut Accumulator) -> Mem<()> {
        validate(&self.base, alloc, errors)
    }
}
