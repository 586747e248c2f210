//! Maps.

ghost use Rattle.std.specs.Prelude.{◌≡◌, IfOk};
ghost use Rattle.meta_reads.specs.Maps.{seen_entries, sorted};
ghost use Rattle.meta_core.specs.Tables.{looked_up, seen_table};

use crate::by_type::ByType;
use crate::from_meta::FromMeta;
use base_core::Mem;
use error_core::Result;
use meta_nested::Call;
use meta_reads::{MapKey, SortedKey, entries_cell};
use std::alloc::Global;
use std::collections::{BTreeMap, BTreeSet, HashMap, HashSet};
use std::hash::Hash;

/// A list, an entry an item. Keys are paths.
impl<K: SortedKey + Drop, V: FromMeta + Drop> FromMeta for BTreeMap<K, V> {
    ghost use Rattle.std.specs.Prelude.{List};
    ghost use Rattle.meta_reads.specs.Maps.{seen_entries, sorted_cells};

    ghost Seen = { List (K.Seen × V.Seen) };

    ghost seen = { λ it. seen_entries K.seen V.seen it.entries };

    ghost cells = { sorted_cells K.same K.order K.text K.key V.cells };

    fn cell(alloc: Global, call: Call<'_>) -> Result<Option<BTreeMap<K, V>>> {
        let inner = ByType::<V>::new();
        match entries_cell::<K, BTreeSet<K>, ByType<V>>(alloc, &inner, call)? {
            Some(entries) => Ok(Some(sort(alloc, entries)?)),
            None => Ok(None),
        }
    }
}

/// The entries in the order of their keys.
fn sort<K: SortedKey + Drop, V: FromMeta + Drop>(
    alloc: Global,
    entries: Vec<(K, V)>,
) -> Mem<BTreeMap<K, V>>
    ensures { IfOk result (λ map. seen_entries K.seen V.seen map.entries ≡ sorted K.order (seen_entries K.seen V.seen entries.items)) }
{
    let mut map = BTreeMap::new(alloc);
    for (key, value) in entries {
        map.insert(key, value)?;
    }
    Ok(map)
}

/// A list, an entry an item. Keys are paths.
impl<K: MapKey + Hash + Drop, V: FromMeta + Drop> FromMeta for HashMap<K, V> {
    ghost use Rattle.std.specs.Prelude.{Option};
    ghost use Rattle.meta_core.specs.Tables.{seen_table, table_cells};

    ghost Seen = { K.Seen → Option (K.Seen × V.Seen) };

    ghost seen = { λ it. seen_table K.same K.seen V.seen it.entries };

    ghost cells = { table_cells K.same K.text K.key V.cells };

    fn cell(alloc: Global, call: Call<'_>) -> Result<Option<HashMap<K, V>>> {
        let inner = ByType::<V>::new();
        match entries_cell::<K, HashSet<K>, ByType<V>>(alloc, &inner, call)? {
            Some(entries) => Ok(Some(hash(alloc, entries)?)),
            None => Ok(None),
        }
    }
}

/// The entries by the hashes of their keys.
fn hash<K: MapKey + Hash + Drop, V: FromMeta + Drop>(
    alloc: Global,
    entries: Vec<(K, V)>,
) -> Mem<HashMap<K, V>>
    ensures { IfOk result (λ map. seen_table K.same K.seen V.seen map.entries ≡ looked_up K.same (seen_entries K.seen V.seen entries.items)) }
{
    let mut map = HashMap::new(alloc);
    for (key, value) in entries {
        map.insert(key, value)?;
    }
    Ok(map)
}
