//! The entries of a map, read from the items of a list, whatever reads the values.

ghost use Rattle.std.specs.Prelude.{◌≡◌, ◌++◌, ◌∷◌, [], List, OnOk, IfOk, option_map, if◌then◌else◌};
ghost use Rattle.error_fault.specs.Fault.{at_span};
ghost use Rattle.error_fault.specs.Outcome.{Outcome, Value, faults_of, under, value_of};
ghost use Rattle.error_fault.specs.declared.kind.FaultKind.{FaultKind};
ghost use Rattle.node_make.specs.PathText.{path_text};
ghost use Rattle.node_span.specs.Spanned.{path_span};
ghost use Rattle.error_core.specs.Answers.{Answers};
ghost use Rattle.error_core.specs.ErrorView.{held};
ghost use Rattle.meta_nested.specs.Cells.{AnswersCell, cell_at};
ghost use Rattle.meta_reads.specs.KnownKeys.{Knows};
ghost use Rattle.meta_reads.specs.Maps as spec;
ghost use Rattle.meta_reads.specs.Maps.{entries_of, entry, entry_of, item_faults, key_faults, keys_with, map_faults, pair_in, repeated, seen_entries, with_key};

use crate::key::KeyFromPath;
use crate::map_key::{KeySet, MapKey};
use crate::reader::Reader;
use base_core::Mem;
use error_core::{Accumulator, Error, Fail, Result};
use meta_nested::{Call, NestedMeta};
use node_expr::Path;
use node_span::Spanned;
use std::alloc::Global;
use tok_types::Span;

/// What a map answers: a list, an entry an item, in the items' order. A repeated key is found by a set of those before.
pub fn entries_cell<K: MapKey + Drop, S: KeySet<K> + Drop, R: Reader>(
    alloc: Global,
    inner: &R,
    call: Call<'_>,
) -> Result<Option<Vec<(K, R::Value)>>>
where
    R::Value: Drop,
    requires { R.is_callable inner.now }
    ensures { AnswersCell (λ it. seen_entries K.seen R.seen it.items) result (cell_at (spec.entries_cells K.same K.text K.key (R.cells inner.now)) call.entry) }
{
    match call {
        Call::List(items) => Ok(Some(read_entries::<K, S, R>(alloc, inner, items)?)),
        _ => Ok(None),
    }
}

/// The entries of the items, or the faults of all of them.
fn read_entries<K: MapKey + Drop, S: KeySet<K> + Drop, R: Reader>(
    alloc: Global,
    inner: &R,
    items: &[NestedMeta],
) -> Result<Vec<(K, R::Value)>>
where
    R::Value: Drop,
    requires { R.is_callable inner.now }
    ensures { Answers (λ it. seen_entries K.seen R.seen it.items) result (spec.read_entries K.same K.text K.key (R.cells inner.now) items.now) }
{
    let mut errors = Error::accumulator(alloc);
    match collect_entries::<K, S, R>(alloc, inner, items, &mut errors) {
        Ok(entries) => errors.finish_with(entries),
        Err(_) => {
            let _errors = errors.into_inner();
            Err(Fail::NoMemory)
        }
    }
}

/// The entries of the items that have one. The faults of all are put behind the errors.
fn collect_entries<K: MapKey + Drop, S: KeySet<K> + Drop, R: Reader>(
    alloc: Global,
    inner: &R,
    items: &[NestedMeta],
    errors: &mut Accumulator,
) -> Mem<Vec<(K, R::Value)>>
where
    R::Value: Drop,
    requires { R.is_callable inner.now }
    ensures entries { IfOk result (λ entries. seen_entries K.seen R.seen entries.items ≡ entries_of K.key (R.cells inner.now) items.now) }
    ensures faults { OnOk result (held errors.new ≡ held errors.old ++ map_faults K.same K.text K.key (R.cells inner.now) [] items.now) }
{
    let mut keys = S::empty(alloc);
    let mut entries = Vec::new(alloc);
    for item in items {
        read_item::<K, S, R>(alloc, inner, item, &mut keys, &mut entries, errors)?;
    }
    Ok(entries)
}

/// Reads an item.
fn read_item<K: MapKey + Drop, S: KeySet<K>, R: Reader>(
    alloc: Global,
    inner: &R,
    item: &NestedMeta,
    keys: &mut S,
    entries: &mut Vec<(K, R::Value)>,
    errors: &mut Accumulator,
) -> Mem<()>
where
    R::Value: Drop,
    requires { R.is_callable inner.now }
    ensures known { (before : List K.Seen) → Knows K.same K.seen (S.has keys.old) before → OnOk result (Knows K.same K.seen (S.has keys.new) (keys_with K.key before (pair_in (R.cells inner.now) item.now))) }
    ensures faults { (before : List K.Seen) → Knows K.same K.seen (S.has keys.old) before → OnOk result (held errors.new ≡ held errors.old ++ item_faults K.same K.text K.key before (pair_in (R.cells inner.now) item.now)) }
    ensures entries { OnOk result (seen_entries K.seen R.seen entries.new.items ≡ seen_entries K.seen R.seen entries.old.items ++ entry_of K.key (pair_in (R.cells inner.now) item.now)) }
{
    match item {
        NestedMeta::Meta(it) => {
            let path = it.path();
            let value = at_path::<R>(alloc, inner.from_meta(alloc, it), path);
            read_pair::<K, S, R>(alloc, path, value, keys, entries, errors)
        }
        NestedMeta::NameValueInvalidExpr(it) => {
            let value = at_path::<R>(alloc, inner.from_invalid_expr(alloc, it), &it.path);
            read_pair::<K, S, R>(alloc, &it.path, value, keys, entries, errors)
        }
        NestedMeta::Lit(_) => {
            let error = Error::unsupported_format(alloc, "expression")?;
            errors.push(alloc, error)
        }
    }
}

/// The answer, whose faults stand in the field of that path.
fn at_path<R: Reader>(alloc: Global, answer: Result<R::Value>, path: &Path) -> Result<R::Value>
    ensures { (outcome : Outcome R.Seen) → Answers R.seen answer outcome → Answers R.seen result (under (path_text path.now) outcome) }
{
    match answer {
        Ok(value) => Ok(value),
        Err(fail) => match fail.into_error() {
            Some(error) => Err(Fail::Faults(error.at_path(alloc, path)?)),
            None => Err(Fail::NoMemory),
        },
    }
}

/// Reads a key and the value behind it.
fn read_pair<K: MapKey + Drop, S: KeySet<K>, R: Reader>(
    alloc: Global,
    path: &Path,
    value: Result<R::Value>,
    keys: &mut S,
    entries: &mut Vec<(K, R::Value)>,
    errors: &mut Accumulator,
) -> Mem<()>
where
    R::Value: Drop,
    ensures known { (before : List K.Seen) → Knows K.same K.seen (S.has keys.old) before → OnOk result (Knows K.same K.seen (S.has keys.new) (with_key before (K.key path.now))) }
    ensures faults { (before : List K.Seen) → Knows K.same K.seen (S.has keys.old) before → (outcome : Outcome R.Seen) → Answers R.seen value outcome → OnOk result (held errors.new ≡ held errors.old ++ (key_faults K.same K.text before (path_span path.now) (K.key path.now) ++ faults_of outcome)) }
    ensures entries { (outcome : Outcome R.Seen) → Answers R.seen value outcome → OnOk result (seen_entries K.seen R.seen entries.new.items ≡ seen_entries K.seen R.seen entries.old.items ++ entry (K.key path.now) outcome) }
{
    let key = read_key(alloc, path, keys, errors)?;
    let value = errors.handle(alloc, value)?;
    push_entry::<K, R>(key, value, entries)?;
    Ok(())
}

/// The key that the path is, which is put to those before. Its faults are put behind the errors.
fn read_key<K: MapKey + Drop, S: KeySet<K>>(
    alloc: Global,
    path: &Path,
    keys: &mut S,
    errors: &mut Accumulator,
) -> Mem<Option<K>>
    ensures key { IfOk result (λ key. option_map K.seen key ≡ value_of (K.key path.now)) }
    ensures known { (before : List K.Seen) → Knows K.same K.seen (S.has keys.old) before → OnOk result (Knows K.same K.seen (S.has keys.new) (with_key before (K.key path.now))) }
    ensures faults { (before : List K.Seen) → Knows K.same K.seen (S.has keys.old) before → OnOk result (held errors.new ≡ held errors.old ++ key_faults K.same K.text before (path_span path.now) (K.key path.now)) }
{
    let found: Option<K> = errors.handle(alloc, K::from_path(alloc, path))?;
    match found {
        Some(key) => {
            note_key(alloc, &key, path.spanned(), keys, errors)?;
            Ok(Some(key))
        }
        None => Ok(None),
    }
}

/// Puts the key to those before. The fault of a repeated one is put behind the errors.
fn note_key<K: MapKey + Drop, S: KeySet<K>>(
    alloc: Global,
    key: &K,
    span: Span,
    keys: &mut S,
    errors: &mut Accumulator,
) -> Mem<()>
    ensures known { (before : List K.Seen) → Knows K.same K.seen (S.has keys.old) before → OnOk result (Knows K.same K.seen (S.has keys.new) (K.seen key.now ∷ before)) }
    ensures faults { (before : List K.Seen) → Knows K.same K.seen (S.has keys.old) before → OnOk result (held errors.new ≡ held errors.old ++ repeated K.same K.text before span (K.seen key.now)) }
{
    let copy = key.copy(alloc)?;
    let again = keys.put(copy)?;
    push_repeat(alloc, again, key, span, errors)?;
    Ok(())
}

/// Puts the fault of a repeated key behind the errors.
pub fn push_repeat<K: KeyFromPath>(
    alloc: Global,
    again: bool,
    key: &K,
    span: Span,
    errors: &mut Accumulator,
) -> Mem<()>
    ensures { OnOk result (held errors.new ≡ held errors.old ++ (if again then at_span (FaultKind.DuplicateField (K.text (K.seen key.now))) span ∷ [] else [])) }
{
    if again {
        let name = key.to_display(alloc)?;
        let error = Error::duplicate_field(alloc, name.as_str())?;
        errors.push(alloc, error.with_span_at(span))?;
    }
    Ok(())
}

/// Puts the entry behind the others, where its key and its value are there.
fn push_entry<K: KeyFromPath + Drop, R: Reader>(
    key: Option<K>,
    value: Option<R::Value>,
    entries: &mut Vec<(K, R::Value)>,
) -> Mem<()>
where
    R::Value: Drop,
    ensures { (path : Outcome K.Seen) → option_map K.seen key ≡ value_of path → (outcome : Outcome R.Seen) → option_map R.seen value ≡ value_of outcome → OnOk result (seen_entries K.seen R.seen entries.new.items ≡ seen_entries K.seen R.seen entries.old.items ++ entry path outcome) }
{
    if let (Some(key), Some(value)) = (key, value) {
        entries.push((key, value))?;
    }
    Ok(())
}
