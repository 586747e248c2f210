//! What types around another read, shown as values.

ghost use Rattle.std.specs.Prelude.{◌≡◌, IfOk};
ghost use Rattle.machine_leaf.specs.Maps.{seen_entries};
ghost use Rattle.machine_read.specs.Answers.{Shows};
ghost use Rattle.machine_read.specs.Entries.{texts};

use crate::values::{
    explicit, inherit, kept_faults, kept_meta, original_value, read_value, spanned_value,
};
use base_core::{Boxed, Items, Mem, Text};
use error_core::{Error, Result};
use machine_leaf::{KeyFromPath, Override, in_order};
use machine_value::Value;
use node_core::Meta;
use std::alloc::Global;
use std::result;
use tok_types::Span;

/// What a type around another reads, where the one inside reads values.
pub(crate) trait IntoValue {
    ghost use Rattle.std.specs.Prelude.{◌≡◌, IfOk};
    ghost use Rattle.machine_value.specs.declared.value.Value.{Value as Datum};

    /// What contracts see of it.
    ghost Seen: { Type 0 };

    ghost seen: { Self → Seen };

    /// The value that is shown of that.
    ghost show: { Seen → Datum };

    fn into_value(self, alloc: Global) -> Mem<Value>
        ensures { IfOk result (λ value. value ≡ show (seen self)) };
}

/// The answer, with its value shown.
pub(crate) fn as_value<T: IntoValue>(
    alloc: Global,
    answer: Result<Option<T>>,
) -> Result<Option<Value>>
    ensures { Shows T.seen T.show answer result }
{
    match answer {
        Ok(Some(it)) => Ok(Some(it.into_value(alloc)?)),
        Ok(None) => Ok(None),
        Err(fail) => Err(fail),
    }
}

impl IntoValue for Option<Value> {
    ghost use Rattle.std.specs.Prelude.{Option, option_map};
    ghost use Rattle.machine_value.specs.declared.value.Value.{Value as Datum};
    ghost use Rattle.machine_value.specs.declared.value.Value.TheVariants as value;

    ghost Seen = { Option Datum };

    ghost seen = { option_map (λ it. it) };

    ghost show = { value.Opt };

    fn into_value(self, alloc: Global) -> Mem<Value> {
        match self {
            Some(it) => Ok(Value::Opt(Some(Boxed::new(alloc, it)?))),
            None => Ok(Value::Opt(None)),
        }
    }
}

impl IntoValue for result::Result<Value, Error> {
    ghost use Rattle.error_fault.specs.Outcome.{Outcome};
    ghost use Rattle.machine_value.specs.declared.value.Value.{Value as Datum};
    ghost use Rattle.machine_leaf.specs.Values as spec;
    ghost use Rattle.machine_leaf.specs.Wrappers.{outcome_of};

    ghost Seen = { Outcome Datum };

    ghost seen = { outcome_of (λ it. it) };

    ghost show = { spec.kept };

    fn into_value(self, alloc: Global) -> Mem<Value> {
        match self {
            Ok(value) => read_value(alloc, value),
            Err(error) => kept_faults(alloc, error),
        }
    }
}

impl IntoValue for result::Result<Value, Meta> {
    ghost use Rattle.std.specs.Prelude.{Result};
    ghost use Rattle.node_core.specs.declared.attr.Meta.{Meta};
    ghost use Rattle.machine_value.specs.declared.value.Value.{Value as Datum};
    ghost use Rattle.machine_leaf.specs.Values as spec;
    ghost use Rattle.machine_leaf.specs.Wrappers.{either_of};

    ghost Seen = { Result Datum Meta };

    ghost seen = { either_of (λ it. it) };

    ghost show = { spec.kept_meta };

    fn into_value(self, alloc: Global) -> Mem<Value> {
        match self {
            Ok(value) => read_value(alloc, value),
            Err(item) => kept_meta(alloc, &item),
        }
    }
}

impl IntoValue for Override<Value> {
    ghost use Rattle.machine_value.specs.declared.value.Value.{Value as Datum};
    ghost use Rattle.machine_leaf.specs.MetaOverride.{on_explicit};
    ghost use Rattle.machine_leaf.specs.Override.{Override};
    ghost use Rattle.machine_leaf.specs.Values as spec;

    ghost Seen = { Override Datum };

    ghost seen = { on_explicit (λ it. it) };

    ghost show = { spec.given };

    fn into_value(self, alloc: Global) -> Mem<Value> {
        match self {
            Override::Inherit => inherit(alloc),
            Override::Explicit(value) => explicit(alloc, value),
        }
    }
}

/// What `SpannedValue` reads.
impl IntoValue for (Value, Span) {
    ghost use Rattle.tok_types.specs.declared.span.Span.{Span};
    ghost use Rattle.machine_value.specs.declared.value.Value.{Value as Datum};
    ghost use Rattle.machine_leaf.specs.Pairs.{seen_pair};
    ghost use Rattle.machine_leaf.specs.Values as spec;

    ghost Seen = { Datum × Span };

    ghost seen = { seen_pair (λ it. it) };

    ghost show = { λ it. spec.spanned it.0 it.1 };

    fn into_value(self, alloc: Global) -> Mem<Value> {
        let (value, span) = self;
        spanned_value(alloc, value, span)
    }
}

/// What `WithOriginal` reads.
impl IntoValue for (Value, Meta) {
    ghost use Rattle.node_core.specs.declared.attr.Meta.{Meta};
    ghost use Rattle.machine_value.specs.declared.value.Value.{Value as Datum};
    ghost use Rattle.machine_leaf.specs.Pairs.{seen_pair};
    ghost use Rattle.machine_leaf.specs.Values as spec;

    ghost Seen = { Datum × Meta };

    ghost seen = { seen_pair (λ it. it) };

    ghost show = { λ it. spec.with_original it.0 it.1 };

    fn into_value(self, alloc: Global) -> Mem<Value> {
        let (value, item) = self;
        original_value(alloc, value, &item)
    }
}

/// The entries of a map.
impl<K: KeyFromPath + Drop> IntoValue for Vec<(K, Value)> {
    ghost use Rattle.std.specs.Prelude.{List};
    ghost use Rattle.machine_value.specs.declared.value.Value.{Value as Datum};
    ghost use Rattle.machine_leaf.specs.MachineCellsMaps.{map_value};
    ghost use Rattle.machine_leaf.specs.Maps.{seen_entries};

    ghost Seen = { List (K.Seen × Datum) };

    ghost seen = { λ it. seen_entries K.seen (λ value. value) it.items };

    ghost show = { map_value K.text };

    fn into_value(self, alloc: Global) -> Mem<Value> {
        Ok(Value::Map(in_order(under_texts(alloc, self)?)?))
    }
}

/// The entries under the texts of their keys.
fn under_texts<K: KeyFromPath + Drop>(
    alloc: Global,
    entries: Vec<(K, Value)>,
) -> Mem<Items<(Text, Value)>>
    ensures { IfOk result (λ them. them ≡ texts K.text (seen_entries K.seen (λ value. value) entries.items)) }
{
    let mut them = Items::new(alloc);
    for (key, value) in entries {
        let text = key.to_display(alloc)?;
        them.push((text, value))?;
    }
    Ok(them)
}
