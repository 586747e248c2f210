//! Vectors of names: identifiers and paths.

ghost use Rattle.std.specs.Prelude.{◌≡◌, ◌++◌, flat_map, IfOk, OnOk};
ghost use Rattle.std.specs.List.{filter_map};
ghost use Rattle.error_fault.specs.Outcome.{faults_of, value_of};
ghost use Rattle.error_core.specs.Answers.{Answers};
ghost use Rattle.error_core.specs.ErrorView.{held};
ghost use Rattle.error_core.specs.Each.{every};
ghost use Rattle.meta_core.specs.Lists as spec;

use crate::from_meta::FromMeta;
use base_core::{Mem, TryClone};
use error_core::{Accumulator, Error, Fail, Result};
use meta_nested::{Call, NestedMeta};
use node_core::Meta;
use node_expr::Path;
use std::alloc::Global;
use tok_types::Ident;

/// The items of a list. All faults are told.
impl FromMeta for Vec<Ident> {
    ghost use Rattle.std.specs.Prelude.{List};
    ghost use Rattle.tok_types.specs.declared.ident.Ident.{Ident};
    ghost use Rattle.meta_core.specs.Lists.{ident_item, names_cells};

    ghost Seen = { List Ident };

    ghost seen = { λ it. it.items };

    ghost cells = { names_cells ident_item };

    fn cell(alloc: Global, call: Call<'_>) -> Result<Option<Vec<Ident>>> {
        match call {
            Call::List(items) => Ok(Some(read_names(alloc, items)?)),
            _ => Ok(None),
        }
    }
}

/// The items of a list. All faults are told.
impl FromMeta for Vec<Path> {
    ghost use Rattle.std.specs.Prelude.{List};
    ghost use Rattle.node_expr.specs.declared.path.Path.{Path};
    ghost use Rattle.meta_core.specs.Lists.{path_item, names_cells};

    ghost Seen = { List Path };

    ghost seen = { λ it. it.items };

    ghost cells = { names_cells path_item };

    fn cell(alloc: Global, call: Call<'_>) -> Result<Option<Vec<Path>>> {
        match call {
            Call::List(items) => Ok(Some(read_names(alloc, items)?)),
            _ => Ok(None),
        }
    }
}

/// A name that is the item of a list.
pub(crate) trait Name: Sized {
    ghost use Rattle.error_fault.specs.Outcome.{Outcome};
    ghost use Rattle.error_core.specs.Answers.{Answers};
    ghost use Rattle.meta_nested.specs.declared.nested.NestedMeta.{NestedMeta};

    ghost of_item: { NestedMeta → Outcome Self };

    /// The name that the item is.
    fn of_item(alloc: Global, item: &NestedMeta) -> Result<Self>
        ensures { Answers (λ it. it) result (of_item item.now) };
}

impl Name for Ident {
    ghost of_item = { spec.ident_item };

    fn of_item(alloc: Global, item: &NestedMeta) -> Result<Ident> {
        let path = path_of_item(alloc, item)?;
        match path.get_ident() {
            Some(ident) => Ok(ident.try_clone(alloc)?),
            None => {
                let error = Error::custom(alloc, "expected an identifier")?;
                Err(Fail::Faults(error.with_span(path)))
            }
        }
    }
}

impl Name for Path {
    ghost of_item = { spec.path_item };

    fn of_item(alloc: Global, item: &NestedMeta) -> Result<Path> {
        Ok(path_of_item(alloc, item)?.try_clone(alloc)?)
    }
}

/// The path that the item is.
fn path_of_item<'a>(alloc: Global, item: &'a NestedMeta) -> Result<&'a Path>
    ensures { Answers (λ it. it.now) result (spec.path_item item.now) }
{
    match item {
        NestedMeta::Meta(Meta::Path(path)) => Ok(path),
        NestedMeta::Meta(other) => {
            let error = Error::custom(alloc, "expected a path only")?;
            Err(Fail::Faults(error.with_span(other)))
        }
        _ => Err(Fail::Faults(Error::unsupported_format(alloc, "expression")?)),
    }
}

fn read_names<T: Name + Drop>(alloc: Global, items: &[NestedMeta]) -> Result<Vec<T>>
    ensures { Answers (λ it. it.items) result (every T.of_item items.now) }
{
    let mut errors = Error::accumulator(alloc);
    match collect_names(alloc, items, &mut errors) {
        Ok(names) => errors.finish_with(names),
        Err(_) => {
            let _errors = errors.into_inner();
            Err(Fail::NoMemory)
        }
    }
}

/// The names of the items that are names. The errors of the others are put behind those that are there.
fn collect_names<T: Name + Drop>(
    alloc: Global,
    items: &[NestedMeta],
    errors: &mut Accumulator,
) -> Mem<Vec<T>>
    ensures names { IfOk result (λ names. names.items ≡ filter_map (λ item. value_of (T.of_item item)) items.now) }
    ensures faults { OnOk result (held errors.new ≡ held errors.old ++ flat_map (λ item. faults_of (T.of_item item)) items.now) }
{
    let mut names = Vec::new(alloc);
    for item in items {
        if let Some(name) = collect_name(alloc, item, errors)? {
            names.push(name)?;
        }
    }
    Ok(names)
}

pub(crate) fn collect_name<T: Name>(
    alloc: Global,
    item: &NestedMeta,
    errors: &mut Accumulator,
) -> Mem<Option<T>>
    ensures name { IfOk result (λ found. found ≡ value_of (T.of_item item.now)) }
    ensures faults { OnOk result (held errors.new ≡ held errors.old ++ faults_of (T.of_item item.now)) }
{
    errors.handle(alloc, T::of_item(alloc, item))
}
