//! The options of a receiver that derives `FromDeriveInput`.

ghost use Rattle.std.specs.Prelude.{◌≡◌};
ghost use Rattle.error_fault.specs.Outcome.{Value, settle};
ghost use Rattle.error_core.specs.Answers.{Answers};
ghost use Rattle.options_rows.specs.Does.{Does};
ghost use Rattle.node_core.specs.Bodies.{is_union};
ghost use Rattle.options_rows.specs.Rows.{one};
ghost use Rattle.options_members.specs.Body.{union_faults};
ghost use Rattle.options_core.specs.Receivers.{fdi_start};
ghost use Rattle.options_core.specs.ContainerOptions.{fdi_faults, fdi_options};
ghost use Rattle.options_core.specs.Readers.{fdi_reader, fdi_staged};
ghost use Rattle.options_meta.specs.Stages.{new_outcome};

use crate::names::FdiName;
use crate::outer_from::{OuterFrom, take_name, take_part};
use base_core::Mem;
use codegen_program::{Derive, Magic};
use error_core::{Accumulator, Result};
use node_core::{DeriveInput, Field, Meta, Variant};
use options_members::validate;
use options_rows::{
    DeriveInputShapeSet, ForwardedField, ParseAttribute, ParseData, RenameTable, last_given,
};
use std::alloc::Global;
use tok_types::Ident;

/// The options of a receiver that derives `FromDeriveInput`.
pub struct FdiOptions {
    pub base: OuterFrom,
    /// The field that takes the visibility.
    pub vis: Option<Ident>,
    /// The field that takes the generics.
    pub generics: Option<ForwardedField>,
    /// The field `data`, which takes the body.
    pub body: Option<ForwardedField>,
    /// The items that it takes.
    pub supports: Option<DeriveInputShapeSet>,
}

impl FdiOptions {
    /// The options of a declaration, or all that is wrong with them.
    ///
    /// ```
    /// let Ok(options) = FdiOptions::new(alloc, &item, &table) else {
    ///     return Err(Fail::new(format_args!("{row} is refused")));
    /// };
    /// let core = &options.base.container;
    /// ```
    pub fn new(alloc: Global, di: &DeriveInput, table: &RenameTable) -> Result<FdiOptions>
        ensures { Answers (λ it. it) result (new_outcome (fdi_reader table.now di.now) di.now) }
    {
        FdiOptions::read(alloc, di, table)
    }

    /// One stage behind another.
    fn read(alloc: Global, di: &DeriveInput, table: &RenameTable) -> Result<FdiOptions>
        ensures { Answers (λ it. it) result (fdi_staged table.now di.now) }
    {
        let start = FdiOptions::start(alloc, di, table)?;
        let read = start.parse_attributes(alloc, di.attrs.as_slice(), table)?;
        read.parse_body(alloc, &di.body, table)
    }

    /// No option and no member yet. A union is refused.
    fn start(alloc: Global, di: &DeriveInput, table: &RenameTable) -> Result<FdiOptions>
        ensures { Answers (λ it. it) result
            (settle (union_faults (is_union di.now.body)) (Value (fdi_start table.now di.now))) }
    {
        Ok(FdiOptions {
            base: OuterFrom::start(alloc, di, table)?,
            vis: None,
            generics: None,
            body: None,
            supports: None,
        })
    }

    /// Sets the option that the item is of, or for want of memory none.
    fn apply(
        &mut self,
        alloc: Global,
        name: FdiName,
        item: &Meta,
        table: &RenameTable,
    ) -> Result<()>
        ensures { Does result (fdi_faults table.now name self.old item.now)
            (fdi_options table.now self.old (one name item.now)) self.old self.new }
    {
        match name {
            FdiName::Supports => last_given(alloc, &mut self.supports, item),
            FdiName::Outer(name) => self.base.apply(alloc, name, item, table),
        }
    }
}

impl Drop for FdiOptions {
    fn drop(self) {
        let Self {
            base: _base,
            vis: _vis,
            generics: _generics,
            body: _body,
            supports: _,
        } = self;
    }
}

impl ParseAttribute for FdiOptions {
    ghost use Rattle.std.specs.Prelude.{refl};
    ghost use Rattle.options_core.specs.ContainerLaws.{of_fdi-more};
    ghost use Rattle.options_core.specs.ContainerOptions.{of_fdi, of_fdi_faults};

    ghost options = { of_fdi };

    ghost faults = { of_fdi_faults };

    fn parse_nested(&mut self, alloc: Global, item: &Meta, table: &RenameTable) -> Result<()> {
        self.apply(alloc, FdiName::of(item.path()), item, table)
    }

    ghost more = { of_fdi-more };

    ghost none = { λ rules set. refl };
}

impl ParseData for FdiOptions {
    ghost use Rattle.options_core.specs.Readers.{fdi_own};
    ghost use Rattle.options_core.specs.Receivers.{outer_checks};
    ghost use Rattle.options_meta.specs.Stages.{no_variants};

    ghost of_field = { fdi_own };

    ghost of_variant = { no_variants };

    ghost checks = { λ set. outer_checks set.base };

    fn own_field(
        &mut self,
        alloc: Global,
        field: &Field,
        table: &RenameTable,
    ) -> Result<Option<()>> {
        match Magic::of(Derive::FromDeriveInput, field) {
            Some(Magic::Vis) => take_name(alloc, &mut self.vis, field),
            Some(Magic::Generics) => take_part(alloc, &mut self.generics, field, table),
            Some(Magic::Body) => take_part(alloc, &mut self.body, field, table),
            part => self.base.take_field(alloc, part, field, table),
        }
    }

    fn own_variant(
        &mut self,
        _alloc: Global,
        _variant: &Variant,
        _table: &RenameTable,
    ) -> Result<Option<()>> {
        Ok(None)
    }

    fn validate_body(&self, alloc: Global, errors: &mut Accumulator) -> Mem<()> {
        validate(&self.base, alloc, errors)
    }
}
