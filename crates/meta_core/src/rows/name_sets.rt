//! Sets of names: identifiers and paths.

ghost use Rattle.std.specs.Prelude.{◌≡◌, ◌++◌, ◌∷◌, ◌||◌, [], List, IfOk, OnOk};
ghost use Rattle.std.specs.HashSet.{contains, get};
ghost use Rattle.std.specs.List.{find};
ghost use Rattle.std.specs.Option.{option_or};
ghost use Rattle.error_fault.specs.Outcome.{Value, settle};
ghost use Rattle.error_core.specs.Answers.{Answers};
ghost use Rattle.error_core.specs.ErrorView.{held};
ghost use Rattle.meta_reads.specs.KnownKeys.{Knows};
ghost use Rattle.meta_reads.specs.Maps.{repeated, with_key};
ghost use Rattle.meta_core.specs.Sets.{is_name, kept_name, name_faults, set_faults};

use crate::from_meta::FromMeta;
use crate::rows::name_lists::{Name, collect_name};
use base_core::Mem;
use error_core::{Accumulator, Error, Fail, Result};
use meta_nested::{Call, NestedMeta};
use meta_reads::{MapKey, push_repeat};
use node_expr::Path;
use node_span::Spanned;
use std::alloc::Global;
use std::collections::HashSet;
use std::hash::Hash;
use tok_types::Ident;

/// The items of a list, each once. All faults are told.
impl FromMeta for HashSet<Ident> {
    ghost use Rattle.std.specs.Prelude.{Option};
    ghost use Rattle.std.specs.HashSet.{get};
    ghost use Rattle.tok_types.specs.Ident.{ident_text};
    ghost use Rattle.tok_types.specs.declared.ident.Ident.{Ident};
    ghost use Rattle.meta_reads.specs.Keys.{ident_same};
    ghost use Rattle.meta_core.specs.Lists.{ident_item};
    ghost use Rattle.meta_core.specs.Sets.{set_cells};

    ghost Seen = { Ident → Option Ident };

    ghost seen = { get ident_same };

    ghost cells = { set_cells ident_same ident_text (λ ident. ident.span) ident_item };

    fn cell(alloc: Global, call: Call<'_>) -> Result<Option<HashSet<Ident>>> {
        match call {
            Call::List(items) => Ok(Some(read_set(alloc, items)?)),
            _ => Ok(None),
        }
    }
}

/// The items of a list, each once. All faults are told.
impl FromMeta for HashSet<Path> {
    ghost use Rattle.std.specs.Prelude.{Option};
    ghost use Rattle.std.specs.HashSet.{get};
    ghost use Rattle.node_expr.specs.declared.path.Path.{Path};
    ghost use Rattle.node_make.specs.PathText.{path_text};
    ghost use Rattle.node_span.specs.Spanned.{path_span};
    ghost use Rattle.meta_reads.specs.Keys.{path_same};
    ghost use Rattle.meta_core.specs.Lists.{path_item};
    ghost use Rattle.meta_core.specs.Sets.{set_cells};

    ghost Seen = { Path → Option Path };

    ghost seen = { get path_same };

    ghost cells = { set_cells path_same path_text path_span path_item };

    fn cell(alloc: Global, call: Call<'_>) -> Result<Option<HashSet<Path>>> {
        match call {
            Call::List(items) => Ok(Some(read_set(alloc, items)?)),
            _ => Ok(None),
        }
    }
}

/// The names of the items, each once, or the faults of all of them.
fn read_set<T: Name + MapKey + Hash + Spanned + Drop>(
    alloc: Global,
    items: &[NestedMeta],
) -> Result<HashSet<T>>
    ensures { Answers (get T.eq) result (settle (set_faults T.eq (λ name. T.text (T.seen name)) T.span_of T.of_item [] items.now) (Value (kept_name T.eq T.of_item items.now))) }
{
    let mut errors = Error::accumulator(alloc);
    match collect_set(alloc, items, &mut errors) {
        Ok(names) => errors.finish_with(names),
        Err(_) => {
            let _errors = errors.into_inner();
            Err(Fail::NoMemory)
        }
    }
}

/// The names of the items that are names. The faults of all are put behind the errors.
fn collect_set<T: Name + MapKey + Hash + Spanned + Drop>(
    alloc: Global,
    items: &[NestedMeta],
    errors: &mut Accumulator,
) -> Mem<HashSet<T>>
    ensures names { IfOk result (λ names. (name : T) → get T.eq names name ≡ kept_name T.eq T.of_item items.now name) }
    ensures faults { OnOk result (held errors.new ≡ held errors.old ++ set_faults T.eq (λ name. T.text (T.seen name)) T.span_of T.of_item [] items.now) }
{
    let mut names = HashSet::new(alloc);
    for item in items {
        put_item(alloc, item, &mut names, errors)?;
    }
    Ok(names)
}

/// Puts the name that the item is to the others. Its faults are put behind the errors.
fn put_item<T: Name + MapKey + Hash + Spanned + Drop>(
    alloc: Global,
    item: &NestedMeta,
    names: &mut HashSet<T>,
    errors: &mut Accumulator,
) -> Mem<()>
    ensures names { OnOk result ((name : T) → contains T.eq names.new name ≡ (contains T.eq names.old name || is_name T.eq name (T.of_item item.now))) }
    ensures stored { OnOk result ((name : T) → get T.eq names.new name ≡ option_or (get T.eq names.old name) (find (T.eq name) (with_key [] (T.of_item item.now)))) }
    ensures faults { (before : List T) → Knows T.eq (λ name. name) (contains T.eq names.old) before → OnOk result (held errors.new ≡ held errors.old ++ name_faults T.eq (λ name. T.text (T.seen name)) T.span_of before (T.of_item item.now)) }
{
    let found: Option<T> = collect_name(alloc, item, errors)?;
    match found {
        Some(name) => {
            put_name(alloc, name, names, errors)?;
            Ok(())
        }
        None => Ok(()),
    }
}

/// Puts the name to the others. The fault of a repeated one is put behind the errors.
fn put_name<T: MapKey + Hash + Spanned + Drop>(
    alloc: Global,
    name: T,
    names: &mut HashSet<T>,
    errors: &mut Accumulator,
) -> Mem<()>
    ensures names { OnOk result ((other : T) → contains T.eq names.new other ≡ (contains T.eq names.old other || T.eq name other)) }
    ensures stored { OnOk result ((other : T) → get T.eq names.new other ≡ option_or (get T.eq names.old other) (find (T.eq other) (name ∷ []))) }
    ensures faults { (before : List T) → Knows T.eq (λ name. name) (contains T.eq names.old) before → OnOk result (held errors.new ≡ held errors.old ++ repeated T.eq (λ name. T.text (T.seen name)) before (T.span_of name) name) }
{
    let again = names.contains(&name);
    push_repeat(alloc, again, &name, name.spanned(), errors)?;
    names.insert(name)?;
    Ok(())
}
