//! Clones of values.

ghost use Rattle.std.specs.Prelude.{◌≡◌, IfOk};

use crate::value::Value;
use base_core::{Boxed, Items, Mem, Text, TryClone};
use std::alloc::Global;

impl TryClone for Value {
    #[cycle(clone)]
    fn try_clone(&self, alloc: Global) -> Mem<Value> {
        match self {
            Value::Unit => Ok(Value::Unit),
            Value::Bool(it) => Ok(Value::Bool(*it)),
            Value::Int { negative, digits } => Ok(Value::Int {
                negative: *negative,
                digits: *digits,
            }),
            Value::Char(it) => Ok(Value::Char(*it)),
            Value::Text(text) => Ok(Value::Text(text.try_clone(alloc)?)),
            Value::List(values) => Ok(Value::List(clone_values(values, alloc)?)),
            Value::Map(entries) => Ok(Value::Map(clone_fields(entries, alloc)?)),
            Value::Opt(None) => Ok(Value::Opt(None)),
            Value::Opt(Some(inner)) => {
                let copy = inner.get().try_clone(alloc)?;
                Ok(Value::Opt(Some(Boxed::new(alloc, copy)?)))
            }
            Value::Struct {
                name,
                style,
                fields,
            } => Ok(Value::Struct {
                name: name.try_clone(alloc)?,
                style: *style,
                fields: clone_fields(fields, alloc)?,
            }),
            Value::Variant {
                ty,
                name,
                style,
                fields,
            } => Ok(Value::Variant {
                ty: ty.try_clone(alloc)?,
                name: name.try_clone(alloc)?,
                style: *style,
                fields: clone_fields(fields, alloc)?,
            }),
            Value::Syntax(tokens) => Ok(Value::Syntax(tokens.try_clone(alloc)?)),
            Value::Faults(faults) => Ok(Value::Faults(faults.try_clone(alloc)?)),
            Value::Span(span) => Ok(Value::Span(*span)),
            Value::Host { ty, text } => Ok(Value::Host {
                ty: ty.try_clone(alloc)?,
                text: text.try_clone(alloc)?,
            }),
        }
    }
}

#[cycle(clone)]
fn clone_values(values: &Items<Value>, alloc: Global) -> Mem<Items<Value>>
    ensures { IfOk result (λ copies. copies ≡ values.now) }
{
    let mut copies = Items::new(alloc);
    for value in values.as_slice() {
        let copy = value.try_clone(alloc)?;
        copies.push(copy)?;
    }
    Ok(copies)
}

#[cycle(clone)]
fn clone_fields(fields: &Items<(Text, Value)>, alloc: Global) -> Mem<Items<(Text, Value)>>
    ensures { IfOk result (λ copies. copies ≡ fields.now) }
{
    let mut copies = Items::new(alloc);
    for field in fields.as_slice() {
        let name = field.0.try_clone(alloc)?;
        let value = field.1.try_clone(alloc)?;
        copies.push((name, value))?;
    }
    Ok(copies)
}
