//! The texts of values that no item has yet. A row: WORDS => TEXT. A word makes a value; one with `@` takes all values
//! before it as its members, by the names behind the `@`, and makes one of them.

use base_core::{Boxed, Items, Mem, Text, TryClone};
use machine_value::Value;
use node_core::Style;
use run_text::value_text;
use std::alloc::Global;
use std::mem::replace;
use std::test::Fail;
use tests_checks::{Tested, row_of};
use tok_types::{Literal, Span, TokenStream, TokenTree};

const VALUES: &str = "least => -340282366920938463463374607431768211455
nowhere => -
no_faults => faults[]
no_tokens => ``
raw => `\"\\\\\\r\\n\\t\\0'\"`
list@ => []
true a list@ => [true, \"a\"]
true () list@ true list@ => [[true, ()], true]
none some@ => some(none)
map@ => {}
true () list@ false map@a,b => {\"a\": [true, ()], \"b\": false}
() map@\"'\t => {\"\\\"'\\t\": ()}
unit@ => N
tuple@ => N()
named@ => N {}
() tuple@a => N(())
true ' named@a,b => N {a: true, b: \"'\"}
true () tuple@a,b => N(true, ())
variant_unit@ => E::V
variant_named@ => E::V {}
unit@ variant_tuple@a => E::V(N)
variant_unit@ () variant_named@a,b => E::V {a: E::V, b: ()}";

/// The value of a word.
fn leaf(alloc: Global, word: &str) -> Mem<Value> {
    match word {
        "()" => Ok(Value::Unit),
        "true" => Ok(Value::Bool(true)),
        "false" => Ok(Value::Bool(false)),
        "none" => Ok(Value::Opt(None)),
        "nowhere" => Ok(Value::Span(None)),
        "no_faults" => Ok(Value::Faults(Items::new(alloc))),
        "no_tokens" => Ok(Value::Syntax(TokenStream {
            trees: Items::new(alloc),
        })),
        "raw" => literal(alloc, "\"\\\r\n\t\0'\""),
        "least" => Ok(Value::Int {
            negative: true,
            digits: 340_282_366_920_938_463_463_374_607_431_768_211_455,
        }),
        text => Ok(Value::Text(Text::from_str(alloc, text)?)),
    }
}

/// A literal of this text.
fn literal(alloc: Global, text: &str) -> Mem<Value> {
    let literal = Literal {
        text: Text::from_str(alloc, text)?,
        span: Span::CallSite,
    };
    let trees = Items::of(alloc, TokenTree::Literal(literal))?;
    Ok(Value::Syntax(TokenStream { trees }))
}

/// The values, each under its name.
fn members(alloc: Global, values: &mut Items<Value>, names: &str) -> Mem<Items<(Text, Value)>> {
    let mut members = Items::new(alloc);
    values.reverse();
    for name in names.split(',') {
        if let Some(value) = values.pop() {
            members.push((Text::from_str(alloc, name)?, value))?;
        }
    }
    Ok(members)
}

/// A struct `N`, or the variant `V` of an enum `E`.
fn built(alloc: Global, kind: &str, fields: Items<(Text, Value)>) -> Mem<Value> {
    let style = match kind.strip_prefix("variant_").unwrap_or(kind) {
        "unit" => Style::Unit,
        "tuple" => Style::Tuple,
        _ => Style::Struct,
    };
    if !kind.starts_with("variant_") {
        let name = Text::from_str(alloc, "N")?;
        return Ok(Value::Struct {
            name,
            style,
            fields,
        });
    }
    let ty = Text::from_str(alloc, "E")?;
    Ok(Value::Variant {
        ty,
        name: Text::from_str(alloc, "V")?,
        style,
        fields,
    })
}

/// The value of a word that takes those before it.
fn held(alloc: Global, kind: &str, names: &str, values: &mut Items<Value>) -> Mem<Value> {
    match kind {
        "list" => Ok(Value::List(replace(values, Items::new(alloc)))),
        "map" => Ok(Value::Map(members(alloc, values, names)?)),
        "some" => match values.pop() {
            Some(inner) => Ok(Value::Opt(Some(Boxed::new(alloc, inner)?))),
            None => Ok(Value::Opt(None)),
        },
        _ => built(alloc, kind, members(alloc, values, names)?),
    }
}

/// The text of a copy of the last value of a row.
fn shown(alloc: Global, words: &str) -> Mem<Text> {
    let mut values = Items::new(alloc);
    for word in words.split(' ') {
        let value = match word.split_once('@') {
            Some((kind, names)) => held(alloc, kind, names, &mut values)?,
            None => leaf(alloc, word)?,
        };
        values.push(value)?;
    }
    match values.last() {
        Some(value) => value_text(alloc, &value.try_clone(alloc)?),
        None => Ok(Text::new(alloc)),
    }
}

#[test]
fn values_have_their_texts(rt: HostRuntime) -> Tested<()> {
    for row in VALUES.lines() {
        let (words, wanted) = row_of(row);
        let text = shown(rt.alloc(), words)?;
        if !text.is(wanted) {
            return Err(Fail::new(format_args!("{row}: {}", text.as_str())));
        }
    }
    Ok(())
}
