//! The defaults of the table.

ghost use Rattle.std.specs.Prelude.{◌≡◌, IfOk};
ghost use Rattle.machine_cells.specs.Defaults as spec;

use crate::words::ignored;
use base_core::{Items, Mem, Text};
use machine_rows::Leaf;
use machine_value::Value;
use std::alloc::Global;

/// The default of a type of the table, where it has one.
pub fn leaf_default(alloc: Global, leaf: &Leaf) -> Mem<Option<Value>>
    ensures { IfOk result (λ it. it ≡ spec.leaf_default leaf.now) }
{
    let value = match leaf {
        Leaf::Bool => Value::Bool(false),
        Leaf::Char => Value::Char('\0'),
        Leaf::String | Leaf::PathBuf => Value::Text(Text::new(alloc)),
        Leaf::Integer(_) => Value::Int {
            negative: false,
            digits: 0,
        },
        Leaf::Flag => Value::Opt(None),
        Leaf::Vec(_) | Leaf::HashSet(_) | Leaf::PathList | Leaf::Punctuated(_) => {
            Value::List(Items::new(alloc))
        }
        Leaf::Ignored => ignored(alloc)?,
        _ => return Ok(None),
    };
    Ok(Some(value))
}
