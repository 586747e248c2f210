//! What the types of the table answer, as values: each type's own conversion, with what it reads shown.
#![tactic(auto)]

mod default;
mod lists;
mod literals;
mod numbers;
mod order;
mod sets;
mod shown;
mod syntax;
mod table;
mod words;

pub use default::leaf_default;
pub use machine_cells::{
    Callable, KeyFromPath, Override, Reader, box_cell, entries_cell, option_cell, override_cell,
    result_cell, result_meta_cell, value_and_meta_cell, value_and_span_cell,
};
pub use order::in_order;
pub use shown::syntax_value;
pub use table::{leaf_cell, unit_cell};
