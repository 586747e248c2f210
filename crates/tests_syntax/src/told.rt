//! What is told of a text, by the kind of its row: `kind | text => answer`, or `text => answer` where a table has
//! one kind. A row without an arrow is answered by its text.

use crate::calls::{CALLS, NO_CALLS, of_path, place_of};
use crate::exprs::{EXPRS, NO_EXPRS};
use crate::items::{ITEMS, LISTS, NO_ITEMS, NO_LISTS};
use crate::nested::{METAS, metas, pair, path_alone};
use crate::node::{SOURCE, fault, printing, read, told as told_of};
use crate::operators::{CHAINS, FAR, LEVELS, parted};
use crate::parts::{ITEM_PARTS, PARTS, nodes};
use crate::types::{NAMED, NO_TYPES, NOT_NAMED, TYPES};
use node_core::{
    Comma, DeriveInput, Expr, FnArg, Ident, Items, Path, Punctuated, Text, TokenStream, Type,
    TypeParam, Visibility, WhereClause,
};
use print_core::ToTokens;
use std::alloc::Global;
use std::test::Fail;
use syn_core::{
    Parse, item_prefix, parse_expr_array, parse_expr_path, parse_expr_range, parse_exprs,
    parse_idents, parse_items, parse_paths,
};
use tests_checks::{Tested, kind_of, row_of, tokens};

/// What is told of the text.
pub fn told(alloc: Global, kind: &str, text: &str) -> Tested<Text> {
    match kind {
        "expr" => told_of::<Expr>(alloc, text),
        "type" => told_of::<Type>(alloc, text),
        "path" => told_of::<Path>(alloc, text),
        "ident" => told_of::<Ident>(alloc, text),
        "item" => told_of::<DeriveInput>(alloc, text),
        "where" => told_of::<WhereClause>(alloc, text),
        "visibility" => told_of::<Visibility>(alloc, text),
        "parameter" => told_of::<TypeParam>(alloc, text),
        "arguments" => told_of::<Punctuated<FnArg, Comma>>(alloc, text),
        "sides" => parted(alloc, text),
        "meta" => metas(alloc, text),
        "metas" => pair(alloc, text),
        "absolute_path" => path_alone(alloc, text),
        _ => match kind.strip_prefix("place of ") {
            Some(node) => place_of(alloc, node, text),
            None => of_tokens(alloc, kind, text, &tokens(alloc, SOURCE, text)?),
        },
    }
}

fn of_tokens(alloc: Global, kind: &str, text: &str, tokens: &TokenStream) -> Tested<Text> {
    match kind {
        "exprs" => listing(alloc, parse_exprs(alloc, tokens)),
        "idents" => listing(alloc, parse_idents(alloc, tokens)),
        "paths" => listing(alloc, parse_paths(alloc, tokens)),
        "items" => listing(alloc, parse_items(alloc, tokens)),
        "array expr" => outcome(alloc, parse_expr_array(alloc, tokens)),
        "path expr" => outcome(alloc, parse_expr_path(alloc, tokens)),
        "range expr" => outcome(alloc, parse_expr_range(alloc, tokens)),
        "front" => {
            let front = item_prefix(alloc, tokens)?;
            let told = format!(in alloc; "{} {front}", tokens.trees.len())?;
            Ok(Text::from_string(alloc, told)?)
        }
        "path_to_string" | "get_ident" => Ok(of_path(alloc, kind, &read(alloc, text)?)?),
        _ if kind.starts_with("is_ident ") => Ok(of_path(alloc, kind, &read(alloc, text)?)?),
        _ => nodes(alloc, kind, text),
    }
}

/// The number of the items, and each.
fn items_told<T: ToTokens>(alloc: Global, items: &[T]) -> Tested<Text> {
    let number = format!(in alloc; "{}", items.len())?;
    let mut told = Text::from_string(alloc, number)?;
    for item in items {
        told.push_str(" ~ ")?;
        told.push_str(printing(alloc, item)?.as_str())?;
    }
    Ok(told)
}

fn listing<T: ToTokens + Drop>(alloc: Global, parsed: Parse<Items<T>>) -> Tested<Text> {
    match parsed {
        Ok(items) => items_told(alloc, items.as_slice()),
        Err(fail) => fault(alloc, &fail),
    }
}

fn outcome<T: Drop>(alloc: Global, parsed: Parse<T>) -> Tested<Text> {
    match parsed {
        Ok(_) => Ok(Text::from_str(alloc, "read")?),
        Err(fail) => fault(alloc, &fail),
    }
}

/// Each row is answered so. Where no kind is given, each has its own.
fn hold(alloc: Global, kind: &str, rows: &str) -> Tested<()> {
    for row in rows.lines() {
        let (kind, rest) = if kind.is_empty() {
            kind_of(row)?
        } else {
            (kind, row)
        };
        let (text, answer) = row_of(rest);
        let found = told(alloc, kind, text)?;
        if !found.is(answer) {
            return Err(Fail::new(format_args!("{row} is {}", found.as_str())));
        }
    }
    Ok(())
}

/// The text of each row is refused.
fn refused(alloc: Global, kind: &str, rows: &str) -> Tested<()> {
    for row in rows.lines() {
        let (kind, text) = if kind.is_empty() {
            kind_of(row)?
        } else {
            (kind, row)
        };
        if !told(alloc, kind, text)?.as_str().starts_with("refused at ") {
            return Err(Fail::new(format_args!("{row} is read")));
        }
    }
    Ok(())
}

#[test]
fn rows_are_answered(rt: HostRuntime) -> Tested<()> {
    let alloc = rt.alloc();
    hold(alloc, "expr", EXPRS)?;
    hold(alloc, "type", TYPES)?;
    hold(alloc, "item", ITEMS)?;
    // A comment ends with its line, so no row has it.
    assert!(rt; told(alloc, "item", "/// x\nstruct S;")?.is("# [doc = \" x\"] struct S ;"));
    hold(alloc, "", NAMED)?;
    hold(alloc, "", LISTS)?;
    hold(alloc, "", CALLS)?;
    hold(alloc, "", PARTS)?;
    hold(alloc, "DeriveInput", ITEM_PARTS)?;
    hold(alloc, "", METAS)?;
    hold(alloc, "sides", LEVELS)?;
    hold(alloc, "sides", CHAINS)?;
    hold(alloc, "sides", FAR)?;
    refused(alloc, "expr", NO_EXPRS)?;
    refused(alloc, "type", NO_TYPES)?;
    refused(alloc, "item", NO_ITEMS)?;
    refused(alloc, "", NOT_NAMED)?;
    refused(alloc, "", NO_LISTS)?;
    refused(alloc, "", NO_CALLS)
}
