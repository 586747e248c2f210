//! The texts of values.

ghost use Rattle.std.specs.Prelude.{◌≡◌, ◌++◌, map, option_map, IfOk, OnOk};
ghost use Rattle.run_text.specs.ValueText.{keyed, labelled, listed, map_text, members_text, opt_text, struct_text, shown, value_text, variant_text};

use crate::leaves::{
    push_bool, push_faults, push_host, push_int, push_key, push_label, push_tokens,
};
use crate::quoted::{push_char, push_quoted};
use base_core::{Boxed, Mem, Text};
use error_fault::push_span;
use machine_value::Value;
use node_core::Style;
use std::alloc::Global;

/// The text of a value, as `Opts {name: "a"}`.
pub fn value_text(alloc: Global, value: &Value) -> Mem<Text>
    ensures { IfOk result (λ text. text ≡ value_text value.now) }
{
    let mut text = Text::new(alloc);
    push_value(alloc, &mut text, value)?;
    Ok(text)
}

#[cycle(value)]
pub fn push_value(alloc: Global, out: &mut Text, value: &Value) -> Mem<()>
    ensures { OnOk result (out.new ≡ out.old ++ value_text value.now) }
{
    match value {
        Value::Unit => out.push_str("()"),
        Value::Bool(it) => push_bool(out, *it),
        Value::Int { negative, digits } => push_int(alloc, out, *negative, *digits),
        Value::Char(c) => push_char(out, *c),
        Value::Text(text) => push_quoted(out, '"', text.as_str()),
        Value::List(values) => {
            out.push_str("[")?;
            push_values(alloc, out, values.as_slice())?;
            out.push_str("]")
        }
        Value::Map(entries) => push_map(alloc, out, entries.as_slice()),
        Value::Opt(inner) => push_opt(alloc, out, inner),
        Value::Struct {
            name,
            style,
            fields,
        } => push_struct(alloc, out, name, *style, fields.as_slice()),
        Value::Variant {
            ty,
            name,
            style,
            fields,
        } => push_variant(alloc, out, ty, name, *style, fields.as_slice()),
        Value::Syntax(tokens) => push_tokens(alloc, out, tokens),
        Value::Faults(faults) => push_faults(alloc, out, faults.as_slice()),
        Value::Span(span) => push_span(alloc, out, *span),
        Value::Host { ty, text } => push_host(out, ty, text),
    }
}

#[cycle(value)]
fn push_map(alloc: Global, out: &mut Text, entries: &[(Text, Value)]) -> Mem<()>
    ensures { OnOk result (out.new ≡ out.old ++ map_text (map shown entries.now)) }
{
    out.push_str("{")?;
    push_entries(alloc, out, entries)?;
    out.push_str("}")
}

#[cycle(value)]
fn push_opt(alloc: Global, out: &mut Text, it: &Option<Boxed<Value>>) -> Mem<()>
    ensures { OnOk result (out.new ≡ out.old ++ opt_text (option_map value_text it.now)) }
{
    match it {
        None => out.push_str("none"),
        Some(inner) => {
            out.push_str("some(")?;
            push_value(alloc, out, inner.get())?;
            out.push_str(")")
        }
    }
}

#[cycle(value)]
fn push_variant(
    alloc: Global,
    out: &mut Text,
    ty: &Text,
    name: &Text,
    style: Style,
    members: &[(Text, Value)],
) -> Mem<()>
    ensures { OnOk result (out.new ≡ out.old ++ variant_text ty.now name.now style (map shown members.now)) }
{
    out.push_str(ty.as_str())?;
    out.push_str("::")?;
    push_struct(alloc, out, name, style, members)
}

#[cycle(value)]
fn push_struct(
    alloc: Global,
    out: &mut Text,
    name: &Text,
    style: Style,
    members: &[(Text, Value)],
) -> Mem<()>
    ensures { OnOk result (out.new ≡ out.old ++ struct_text name.now style (map shown members.now)) }
{
    out.push_str(name.as_str())?;
    push_members(alloc, out, style, members)
}

#[cycle(value)]
fn push_members(alloc: Global, out: &mut Text, style: Style, members: &[(Text, Value)]) -> Mem<()>
    ensures { OnOk result (out.new ≡ out.old ++ members_text style (map shown members.now)) }
{
    match style {
        Style::Struct => {
            out.push_str(" {")?;
            push_named(alloc, out, members)?;
            out.push_str("}")
        }
        Style::Tuple => {
            out.push_str("(")?;
            push_unnamed(alloc, out, members)?;
            out.push_str(")")
        }
        Style::Unit => Ok(()),
    }
}

#[cycle(value)]
fn push_values(alloc: Global, out: &mut Text, values: &[Value]) -> Mem<()>
    ensures { OnOk result (out.new ≡ out.old ++ listed (map value_text values.now)) }
{
    let [first, others @ ..] = values else {
        return Ok(());
    };
    push_value(alloc, out, first)?;
    for value in others {
        out.push_str(", ")?;
        push_value(alloc, out, value)?;
    }
    Ok(())
}

#[cycle(value)]
fn push_entries(alloc: Global, out: &mut Text, entries: &[(Text, Value)]) -> Mem<()>
    ensures { OnOk result (out.new ≡ out.old ++ listed (map keyed (map shown entries.now))) }
{
    let [first, others @ ..] = entries else {
        return Ok(());
    };
    push_key(out, &first.0)?;
    push_value(alloc, out, &first.1)?;
    for entry in others {
        out.push_str(", ")?;
        push_key(out, &entry.0)?;
        push_value(alloc, out, &entry.1)?;
    }
    Ok(())
}

#[cycle(value)]
fn push_named(alloc: Global, out: &mut Text, members: &[(Text, Value)]) -> Mem<()>
    ensures { OnOk result (out.new ≡ out.old ++ listed (map labelled (map shown members.now))) }
{
    let [first, others @ ..] = members else {
        return Ok(());
    };
    push_label(out, &first.0)?;
    push_value(alloc, out, &first.1)?;
    for member in others {
        out.push_str(", ")?;
        push_label(out, &member.0)?;
        push_value(alloc, out, &member.1)?;
    }
    Ok(())
}

#[cycle(value)]
fn push_unnamed(alloc: Global, out: &mut Text, members: &[(Text, Value)]) -> Mem<()>
    ensures { OnOk result (out.new ≡ out.old ++ listed (map (λ member. member.1) (map shown members.now))) }
{
    let [first, others @ ..] = members else {
        return Ok(());
    };
    push_value(alloc, out, &first.1)?;
    for member in others {
        out.push_str(", ")?;
        push_value(alloc, out, &member.1)?;
    }
    Ok(())
}
