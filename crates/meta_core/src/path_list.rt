//! Lists of paths.

ghost use Rattle.std.specs.Prelude.{◌≡◌, map, IfOk};
ghost use Rattle.node_make.specs.PathText.{path_text};
ghost use Rattle.error_core.specs.Answers.{Answers};
ghost use Rattle.error_core.specs.Each.{each};
ghost use Rattle.meta_core.specs.PathLists.{common, path_word};

use crate::from_meta::FromMeta;
use base_core::{Items, Mem, Text, TryClone};
use error_core::{Error, Fail, Result};
use meta_nested::{Call, NestedMeta};
use node_core::Meta;
use node_expr::Path;
use node_make::path_to_string;
use std::alloc::Global;
use std::iter::FusedIterator;
use std::marker::Model;
use std::ops::Deref;
use std::slice;

/// The paths of a list of words, as in `derive(serde::Debug, Clone)`.
#[derive(PartialEq, Eq)]
pub struct PathList(pub Items<Path>);

impl PathList {
    /// The list of these paths, in their order.
    pub fn new(vals: Vec<Path>) -> PathList
        ensures { result.0 ≡ vals.items }
    {
        PathList(Items::from_vec(vals))
    }

    /// The texts of the paths.
    pub fn to_strings(&self, alloc: Global) -> Mem<Vec<Text>>
        ensures { IfOk result (λ texts. texts.items ≡ map path_text self.now.0) }
    {
        let mut texts = Vec::new(alloc);
        for path in self.0.as_slice() {
            texts.push(path_to_string(alloc, path)?)?;
        }
        Ok(texts)
    }

    /// Those of the paths that are in `other` too, in their order here and as often as here. It takes no memory: each
    /// is looked for in all of `other`.
    pub fn intersection<'a>(&'a self, other: &'a PathList) -> Intersection<'a>
        ensures { result ≡ common self.now.0 other.now.0 }
    {
        Intersection {
            paths: self.0.as_slice().iter(),
            others: other.0.as_slice(),
        }
    }
}

impl Deref for PathList {
    type Target = Items<Path>;

    ghost deref_gives = { λ list paths. paths ≡ list.0 };

    fn deref(&self) -> &Items<Path> {
        &self.0
    }
}

impl TryClone for PathList {
    fn try_clone(&self, alloc: Global) -> Mem<PathList> {
        Ok(PathList(self.0.try_clone(alloc)?))
    }
}

impl Drop for PathList {
    fn drop(self) {
        let PathList(_paths) = self;
    }
}

/// The paths that two lists have in common. A contract sees those that are still to come.
pub struct Intersection<'a> {
    paths: slice::Iter<'a, Path>,
    others: &'a [Path],
}

impl<'a> Model for Intersection<'a> {
    ghost use Rattle.std.specs.Prelude.{List};
    ghost use Rattle.std.specs.Coded.{coded_list};
    ghost use Rattle.std.specs.Slice.Iter.{iter_rest};
    ghost use Rattle.node_expr.specs.contracts.path.Path as path;
    ghost use Rattle.node_expr.specs.declared.path.Path.{Path};
    ghost use Rattle.meta_core.specs.PathLists.{common};

    ghost Value = { List Path };

    ghost coded = { coded_list path.the_row.coded };

    ghost view = { λ it. common (iter_rest it.paths) it.others.now };
}

impl<'a> Iterator for Intersection<'a> {
    ghost use Rattle.std.specs.Iterator.{YieldsFirstRef, item_count};

    type Item = &'a Path;

    ghost next_gives = { YieldsFirstRef (λ paths. paths) };

    ghost remaining = { item_count (λ paths. paths) };

    fn next(&mut self) -> Option<&'a Path> {
        while let Some(path) = self.paths.next() {
            if self.others.contains(path) {
                return Some(path);
            }
        }
        None
    }
}

impl<'a> FusedIterator for Intersection<'a> {}

impl<'a> Drop for Intersection<'a> {
    fn drop(self) {
        let Intersection {
            paths: _paths,
            others: _,
        } = self;
    }
}

/// The items of a list. The first fault is told alone.
impl FromMeta for PathList {
    ghost use Rattle.std.specs.Prelude.{List};
    ghost use Rattle.node_expr.specs.declared.path.Path.{Path};
    ghost use Rattle.meta_core.specs.PathLists.{path_list_cells};

    ghost Seen = { List Path };

    ghost seen = { λ list. list.0 };

    ghost cells = { path_list_cells };

    fn cell(alloc: Global, call: Call<'_>) -> Result<Option<PathList>> {
        match call {
            Call::List(items) => Ok(Some(PathList::new(read_words(alloc, items)?))),
            _ => Ok(None),
        }
    }
}

/// The paths that the items are.
fn read_words(alloc: Global, items: &[NestedMeta]) -> Result<Vec<Path>>
    ensures { Answers (λ it. it.items) result (each path_word items.now) }
{
    let mut paths = Vec::new(alloc);
    for item in items {
        paths.push(read_word(alloc, item)?)?;
    }
    Ok(paths)
}

/// The path that the item is.
fn read_word(alloc: Global, item: &NestedMeta) -> Result<Path>
    ensures { Answers (λ it. it) result (path_word item.now) }
{
    match item {
        NestedMeta::Meta(Meta::Path(path)) => Ok(path.try_clone(alloc)?),
        other => {
            let error = Error::unexpected_type(alloc, "non-word")?;
            Err(Fail::Faults(error.with_span(other)))
        }
    }
}
