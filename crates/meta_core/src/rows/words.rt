//! Words, characters and strings.

use crate::from_meta::FromMeta;
use base_core::Text;
use error_core::{Error, Fail, Result};
use meta_nested::Call;
use meta_reads::{bool_in, char_in, no_items};
use std::alloc::Global;
use std::path::PathBuf;

/// A word. Each item of a list is a fault.
impl FromMeta for () {
    ghost use Rattle.meta_core.specs.Rows.{unit_cells};

    ghost Seen = { Unit {0} };

    ghost seen = { λ it. it };

    ghost cells = { unit_cells };

    fn cell(alloc: Global, call: Call<'_>) -> Result<Option<()>> {
        match call {
            Call::Word => Ok(Some(())),
            Call::List(items) => Ok(Some(no_items(alloc, items)?)),
            _ => Ok(None),
        }
    }
}

/// A word is `true`.
impl FromMeta for bool {
    ghost use Rattle.std.specs.Prelude.{Bool};
    ghost use Rattle.meta_core.specs.Rows.{bool_cells};

    ghost Seen = { Bool };

    ghost seen = { λ it. it };

    ghost cells = { bool_cells };

    fn cell(alloc: Global, call: Call<'_>) -> Result<Option<bool>> {
        match call {
            Call::Word => Ok(Some(true)),
            Call::Bool(value) => Ok(Some(value)),
            Call::String(text, _) => match bool_in(text) {
                Some(value) => Ok(Some(value)),
                None => Err(Fail::Faults(Error::unknown_value(alloc, text)?)),
            },
            _ => Ok(None),
        }
    }
}

/// A character, or a string of one.
impl FromMeta for char {
    ghost use Rattle.std.specs.Prelude.{ℕ};
    ghost use Rattle.meta_core.specs.Rows.{char_cells};

    ghost Seen = { ℕ };

    ghost seen = { λ it. it };

    ghost cells = { char_cells };

    fn cell(alloc: Global, call: Call<'_>) -> Result<Option<char>> {
        match call {
            Call::Char(value) => Ok(Some(value)),
            Call::String(text, _) => Ok(char_in(text)),
            _ => Ok(None),
        }
    }
}

impl FromMeta for Text {
    ghost use Rattle.base_core.specs.declared.text.Text.{Text};
    ghost use Rattle.meta_core.specs.Rows.{text_cells};

    ghost Seen = { Text };

    ghost seen = { λ it. it };

    ghost cells = { text_cells };

    fn cell(alloc: Global, call: Call<'_>) -> Result<Option<Text>> {
        match call {
            Call::String(text, _) => Ok(Some(Text::from_str(alloc, text)?)),
            _ => Ok(None),
        }
    }
}

impl FromMeta for String {
    ghost use Rattle.base_core.specs.declared.text.Text.{Text};
    ghost use Rattle.std.specs.Prelude.{string_bytes};
    ghost use Rattle.meta_core.specs.Rows.{text_cells};

    ghost Seen = { Text };

    ghost seen = { string_bytes };

    ghost cells = { text_cells };

    fn cell(alloc: Global, call: Call<'_>) -> Result<Option<String>> {
        match call {
            Call::String(text, _) => Ok(Some(String::from_str(alloc, text)?)),
            _ => Ok(None),
        }
    }
}

impl FromMeta for PathBuf {
    ghost use Rattle.base_core.specs.declared.text.Text.{Text};
    ghost use Rattle.std.specs.Path.{path_buf_bytes};
    ghost use Rattle.meta_core.specs.Rows.{text_cells};

    ghost Seen = { Text };

    ghost seen = { path_buf_bytes };

    ghost cells = { text_cells };

    fn cell(alloc: Global, call: Call<'_>) -> Result<Option<PathBuf>> {
        match call {
            Call::String(text, _) => Ok(Some(PathBuf::from_str(alloc, text)?)),
            _ => Ok(None),
        }
    }
}
