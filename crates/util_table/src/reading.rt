//! From a text to its rows.

ghost use Rattle.std.specs.Prelude.{◌≡◌, ◌+◌, ◌≤◌, length, IfOk, IfErr};
ghost use Rattle.util_table.specs.Table as spec;
ghost use Rattle.util_table.specs.Table.{bad_line, IsRefused};

use crate::fail::TableFail;
use crate::row::{Row, row_of};
use base_core::Items;
use std::alloc::Global;
use tok_core::MAX_LEN;

/// The rows of the text, in their order.
pub(crate) fn rows_of(alloc: Global, text: &str) -> Result<Items<Row>, TableFail>
    requires { length text.now ≤ MAX_LEN }
    ensures rows { IfOk result (λ rows. rows ≡ spec.rows_of text.now) }
    ensures table { IfOk result (λ rows. bad_line text.now ≡ None) }
    ensures fail { IfErr result (IsRefused text.now) }
    ensures count { IfOk result (λ rows. length rows ≤ MAX_LEN + 1) }
{
    let mut rows = Items::new(alloc);
    let mut number = 0;
    for line in text.split('\n') {
        number += 1;
        if line.is_empty() {
            continue;
        }
        match row_of(alloc, line)? {
            Some(row) => rows.push(row)?,
            None => return Err(TableFail::BadTable { line: number }),
        }
    }
    Ok(rows)
}
