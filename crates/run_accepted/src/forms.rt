//! Forms of declarations that have no program, or that no run supports.

ghost use Rattle.std.specs.Prelude.{◌≡◌, ◌++◌, flat_map, IfOk, OnOk};
ghost use Rattle.options_core.specs.Stages.{options_of};
ghost use Rattle.run_accepted.specs.Forms as spec;

use crate::derive_options::DeriveOptions;
use crate::{Derived, derives_of};
use base_core::{Items, Mem};
use codegen_program::Derive;
use machine_forms::{earliest_form, push_declared_forms};
use node_core::DeriveInput;
use options_core::{
    FdiOptions, FromAttributesOptions, FromFieldOptions, FromMetaOptions, FromTypeParamOptions,
    FromVariantOptions,
};
use options_forms::{Forms, Unsupported};
use options_rows::RenameTable;
use std::alloc::{AllocError, Global};

/// The form that stands first in the text. Of options that have faults none is asked: that is want of memory here.
pub(crate) fn first_form(
    alloc: Global,
    decls: &[DeriveInput],
    table: &RenameTable,
) -> Mem<Option<Unsupported>>
    ensures { IfOk result (λ it. it ≡ spec.first_form table.now decls.now) }
{
    let mut places = Items::new(alloc);
    for decl in decls {
        push_decl(alloc, decl, table, &mut places)?;
    }
    Ok(earliest_form(places.as_slice()))
}

/// Adds the forms of a declaration.
fn push_decl(
    alloc: Global,
    decl: &DeriveInput,
    table: &RenameTable,
    places: &mut Items<Unsupported>,
) -> Mem<()>
    ensures { OnOk result (places.new ≡ places.old ++ spec.decl_forms table.now decl.now) }
{
    let derives = derives_of(alloc, decl.attrs.as_slice())?;
    push_derived(alloc, decl, derives.as_slice(), table, places)?;
    push_declared_forms(places, decl)
}

/// Adds what the options show under each derive.
fn push_derived(
    alloc: Global,
    decl: &DeriveInput,
    derives: &[Derived],
    table: &RenameTable,
    places: &mut Items<Unsupported>,
) -> Mem<()>
    ensures { OnOk result (places.new ≡ places.old ++ flat_map (spec.derived_forms table.now decl.now) derives.now) }
{
    for it in derives {
        push_under(alloc, decl, it.derive, table, places)?;
    }
    Ok(())
}

/// Adds what the options show under one derive.
fn push_under(
    alloc: Global,
    decl: &DeriveInput,
    derive: Derive,
    table: &RenameTable,
    places: &mut Items<Unsupported>,
) -> Mem<()>
    ensures { OnOk result (places.new ≡ places.old ++ spec.forms_under table.now decl.now derive) }
{
    match derive {
        Derive::FromMeta => push_by::<FromMetaOptions>(alloc, decl, table, places),
        Derive::FromAttributes => push_by::<FromAttributesOptions>(alloc, decl, table, places),
        Derive::FromDeriveInput => push_by::<FdiOptions>(alloc, decl, table, places),
        Derive::FromField => push_by::<FromFieldOptions>(alloc, decl, table, places),
        Derive::FromTypeParam => push_by::<FromTypeParamOptions>(alloc, decl, table, places),
        Derive::FromVariant => push_by::<FromVariantOptions>(alloc, decl, table, places),
    }
}

/// Adds what such options of the declaration show.
fn push_by<O: DeriveOptions + Forms>(
    alloc: Global,
    decl: &DeriveInput,
    table: &RenameTable,
    places: &mut Items<Unsupported>,
) -> Mem<()>
    ensures { OnOk result (places.new ≡ places.old ++ O.forms (options_of (O.reader table.now decl.now) decl.now)) }
{
    match O::of(alloc, decl, table) {
        Ok(options) => options.push_forms(places),
        Err(_) => Err(AllocError),
    }
}
