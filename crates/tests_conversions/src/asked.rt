//! How a test asks a type, and what it tells of the answer. A row: QUESTION => VALUE, or the faults with their places. A
//! question is a nested item, or `from_` and the name of a call, with what it is given behind it: `from_kind` asks by the
//! call for the item's kind, and `from_groups` of an expression in groups without delimiters.

use crate::shown::Shows;
use error_core::{Fail as Refusal, Text};
use error_fault::push_fault_line;
use meta_core::{Boxed, Expr, ExprArray, FromMeta, Items, NestedMeta, Span, TryClone};
use std::alloc::Global;
use std::test::Fail;
use syn_core::parse_expr;
use tests_checks::{Tested, given, row_of, tokens};

/// Each fault with its place.
pub fn faults(alloc: Global, refusal: Refusal) -> Tested<Text> {
    let Some(error) = refusal.into_error() else {
        return Err(Fail::new(format_args!("no memory is left")));
    };
    let mut text = Text::new(alloc);
    let faults = error.into_faults(alloc)?;
    for fault in faults.as_slice() {
        push_fault_line(alloc, &mut text, fault)?;
        text.push(';')?;
    }
    Ok(text)
}

/// The value, or each fault with its place.
pub fn told<T: Drop, S: Shows<T>>(alloc: Global, answer: Result<T, Refusal>) -> Tested<Text> {
    match answer {
        Ok(value) => {
            let mut text = Text::new(alloc);
            S::show(alloc, &mut text, &value)?;
            Ok(text)
        }
        Err(refusal) => faults(alloc, refusal),
    }
}

/// Whether the text is the one of the row.
pub fn must_be(text: &Text, row: &str, wanted: &str) -> Tested<()> {
    if text.is(wanted) {
        return Ok(());
    }
    Err(Fail::new(format_args!("{row}: {}", text.as_str())))
}

/// The one item of the text.
pub fn item_of(alloc: Global, text: &str) -> Tested<NestedMeta> {
    let tokens = tokens(alloc, 0, text)?;
    let items = given(NestedMeta::parse_meta_list(alloc, &tokens), text)?;
    match items.as_slice() {
        [item] => Ok(item.try_clone(alloc)?),
        _ => Err(Fail::new(format_args!("{text} has one item"))),
    }
}

/// The expression in so many groups.
fn grouped(alloc: Global, expr: Expr, groups: usize) -> Tested<Expr> {
    let mut expr = expr;
    for _group in 0..groups {
        let inner = Boxed::new(alloc, expr)?;
        let span = Span::CallSite;
        expr = Expr::Group { expr: inner, span };
    }
    Ok(expr)
}

/// The expression of the text, or it in two groups, or an array in two whose one element it is, in none, one or two.
fn in_groups(alloc: Global, name: &str, text: &str) -> Tested<Expr> {
    let tokens = tokens(alloc, 0, text)?;
    let expr = given(parse_expr(alloc, &tokens), text)?;
    let elements = match name {
        "expr" => return Ok(expr),
        "groups" => return grouped(alloc, expr, 2),
        "array" => 0,
        "array_of_group" => 1,
        "array_of_groups" => 2,
        _ => return Err(Fail::new(format_args!("{name} is no call"))),
    };
    let elems = Items::of(alloc, grouped(alloc, expr, elements)?)?;
    let span = Span::CallSite;
    grouped(alloc, Expr::Array(ExprArray { elems, span }), 2)
}

/// What the type makes of the item by the call for its kind.
fn by_kind<T: FromMeta>(alloc: Global, item: &NestedMeta) -> Result<T, Refusal> {
    match item {
        NestedMeta::Meta(meta) => T::from_meta(alloc, meta),
        NestedMeta::Lit(lit) => T::from_value(alloc, lit),
        NestedMeta::NameValueInvalidExpr(_) => T::from_nested_meta(alloc, item),
    }
}

/// What the type makes of the question.
fn answer<T: FromMeta + Drop, S: Shows<T>>(alloc: Global, question: &str) -> Tested<Text> {
    let Some(call) = question.strip_prefix("from_") else {
        return told::<T, S>(
            alloc,
            T::from_nested_meta(alloc, &item_of(alloc, question)?),
        );
    };
    let (name, argument) = call.split_once(' ').unwrap_or((call, ""));
    match name {
        "none" => match T::from_none(alloc)? {
            Some(value) => told::<T, S>(alloc, Ok(value)),
            None => Ok(Text::from_str(alloc, "nothing")?),
        },
        "word" => told::<T, S>(alloc, T::from_word(alloc)),
        "list" => told::<T, S>(alloc, T::from_list(alloc, &[])),
        "string" => told::<T, S>(alloc, T::from_string(alloc, argument)),
        "char" => told::<T, S>(
            alloc,
            T::from_char(alloc, argument.chars().next().unwrap_or(' ')),
        ),
        "bool" => told::<T, S>(alloc, T::from_bool(alloc, argument == "true")),
        "kind" => told::<T, S>(alloc, by_kind::<T>(alloc, &item_of(alloc, argument)?)),
        _ => told::<T, S>(
            alloc,
            T::from_expr(alloc, &in_groups(alloc, name, argument)?),
        ),
    }
}

/// What the type makes of the question of each row, shown in the form. A line that begins with `//` is
/// the name of a test of the crate's own, whose rows stand below it.
pub fn rows<T: FromMeta + Drop, S: Shows<T>>(alloc: Global, tables: &[&str]) -> Tested<()> {
    for table in tables {
        for row in table.lines() {
            if !row.starts_with("//") {
                let (question, wanted) = row_of(row);
                must_be(&answer::<T, S>(alloc, question)?, row, wanted)?;
            }
        }
    }
    Ok(())
}
