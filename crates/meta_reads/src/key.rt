//! Keys of maps, which are read from paths.

ghost use Rattle.std.specs.Prelude.{◌≡◌, IfOk};
ghost use Rattle.error_core.specs.Answers.{Answers};

use base_core::{Mem, Text, TryClone};
use error_core::{Error, Fail, Result};
use node_expr::Path;
use node_make::path_to_string;
use std::alloc::Global;
use tok_types::Ident;

/// A type that a map's keys have: each is read from the path of an item.
pub trait KeyFromPath: Sized {
    ghost use Rattle.std.specs.Prelude.{Bool};
    ghost use Rattle.std.specs.declared.cmp.Ordering.{Ordering};
    ghost use Rattle.base_core.specs.declared.text.Text.{Text};
    ghost use Rattle.error_fault.specs.Outcome.{Outcome};
    ghost use Rattle.node_expr.specs.declared.path.Path.{Path};

    /// What contracts see of a key.
    ghost Seen: { Type 0 };

    ghost seen: { Self → Seen };

    /// The key that a path is, or why it is none.
    ghost key: { Path → Outcome Seen };

    /// Whether two keys are the same.
    ghost same: { Seen → Seen → Bool };

    /// A key as errors tell it.
    ghost text: { Seen → Text };

    /// The order of the keys in a sorted map. Of a type that is no [`SortedKey`](crate::SortedKey) it says nothing.
    ghost order: { Seen → Seen → Ordering };

    /// The key that the path is.
    fn from_path(alloc: Global, path: &Path) -> Result<Self>
        ensures { Answers seen result (key path.now) };

    /// The key as errors tell it.
    fn to_display(&self, alloc: Global) -> Mem<Text>
        ensures { IfOk result (λ it. it ≡ text (seen self.now)) };
}

/// The text of every path.
impl KeyFromPath for Text {
    ghost use Rattle.base_core.specs.declared.text.Text.{Text};
    ghost use Rattle.std.specs.Str.{bytes_eq};
    ghost use Rattle.meta_reads.specs.Keys.{text_key};
    ghost use Rattle.meta_reads.specs.Maps.{text_order};

    ghost Seen = { Text };

    ghost seen = { λ it. it };

    ghost key = { text_key };

    ghost same = { bytes_eq };

    ghost text = { λ it. it };

    ghost order = { text_order };

    fn from_path(alloc: Global, path: &Path) -> Result<Text> {
        Ok(path_to_string(alloc, path)?)
    }

    fn to_display(&self, alloc: Global) -> Mem<Text> {
        self.try_clone(alloc)
    }
}

/// The text of every path.
impl KeyFromPath for String {
    ghost use Rattle.base_core.specs.declared.text.Text.{Text};
    ghost use Rattle.std.specs.Prelude.{string_bytes};
    ghost use Rattle.std.specs.Str.{bytes_eq};
    ghost use Rattle.meta_reads.specs.Keys.{text_key};
    ghost use Rattle.meta_reads.specs.Maps.{text_order};

    ghost Seen = { Text };

    ghost seen = { string_bytes };

    ghost key = { text_key };

    ghost same = { bytes_eq };

    ghost text = { λ it. it };

    ghost order = { text_order };

    fn from_path(alloc: Global, path: &Path) -> Result<String> {
        Ok(path_to_string(alloc, path)?.into_string()?)
    }

    fn to_display(&self, alloc: Global) -> Mem<Text> {
        Text::from_str(alloc, self.as_str())
    }
}

/// A path that is one identifier.
impl KeyFromPath for Ident {
    ghost use Rattle.tok_types.specs.Ident.{ident_text};
    ghost use Rattle.tok_types.specs.declared.ident.Ident.{Ident};
    ghost use Rattle.meta_reads.specs.Keys.{ident_key, ident_same};
    ghost use Rattle.meta_reads.specs.Maps.{ident_order};

    ghost Seen = { Ident };

    ghost seen = { λ it. it };

    ghost key = { ident_key };

    ghost same = { ident_same };

    ghost text = { ident_text };

    ghost order = { ident_order };

    fn from_path(alloc: Global, path: &Path) -> Result<Ident> {
        match path.get_ident() {
            Some(ident) => Ok(ident.try_clone(alloc)?),
            None => {
                let error = Error::custom(alloc, "Key must be an identifier")?;
                Err(Fail::Faults(error.with_span(path)))
            }
        }
    }

    fn to_display(&self, alloc: Global) -> Mem<Text> {
        self.to_text(alloc)
    }
}

/// Every path. Paths have no order.
impl KeyFromPath for Path {
    ghost use Rattle.std.specs.declared.cmp.Ordering.TheVariants.{Equal};
    ghost use Rattle.node_expr.specs.declared.path.Path.{Path};
    ghost use Rattle.node_make.specs.PathText.{path_text};
    ghost use Rattle.error_fault.specs.Outcome.{Value};
    ghost use Rattle.meta_reads.specs.Keys.{path_same};

    ghost Seen = { Path };

    ghost seen = { λ it. it };

    ghost key = { λ path. Value path };

    ghost same = { path_same };

    ghost text = { path_text };

    ghost order = { λ a b. Equal };

    fn from_path(alloc: Global, path: &Path) -> Result<Path> {
        Ok(path.try_clone(alloc)?)
    }

    fn to_display(&self, alloc: Global) -> Mem<Text> {
        path_to_string(alloc, self)
    }
}
