//! What showing values changes of a conversion. The function does nothing: its clause is the law.

ghost use Rattle.machine_cells.specs.Laws.{Shows};
ghost use Rattle.machine_value.specs.declared.value.Value.{Value as Datum};

use util_core::FromMeta;

/// By cells whose values are shown each call reads what it reads by the type's own, shown.
pub fn shown_values_are_read_alike<T: FromMeta>()
    ensures { (show : T.Seen → Datum) → Shows show T.cells }
{}
