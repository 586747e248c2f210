//! Names and nodes: a row `T U | NODE => T | T U` has the names that are sought in the node, and those that are used for
//! bounds and for declarations. A `-` stands for no name; names with a mark are lifetimes.

use crate::ask::item_of;
use body_core::ast;
use body_usage::{
    CollectLifetimes, CollectTypeParams, GenericsExt, IdentSet, LifetimeSet, Options, Purpose,
    Searched, UsesLifetimes, UsesTypeParams,
};
use error_core::Text;
use node_core::{Data, DeriveInput, Field, Fields, Ident, Lifetime, Span, Type};
use std::alloc::Global;
use std::collections::HashSet;
use std::hash::Hash;
use std::test::Fail;
use syn_core::{parse_ident, parse_type, parse_type_param, parse_where};
use tests_checks::{Tested, given, kind_of, tokens};

fn ident(alloc: Global, name: &str) -> Tested<Ident> {
    match Ident::new(alloc, name, Span::CallSite) {
        Ok(ident) => Ok(ident),
        Err(_) => Err(Fail::new(format_args!("{name} is no identifier"))),
    }
}

fn idents(alloc: Global, names: &str) -> Tested<IdentSet> {
    let mut set = HashSet::new(alloc);
    for name in names.split(' ') {
        if !name.starts_with('\'') {
            set.insert(ident(alloc, name)?)?;
        }
    }
    Ok(set)
}

fn lifetimes(alloc: Global, names: &str) -> Tested<LifetimeSet> {
    let mut set = HashSet::new(alloc);
    for name in names.split(' ') {
        if let Some(name) = name.strip_prefix('\'') {
            let ident = ident(alloc, name)?;
            set.insert(Lifetime { ident })?;
        }
    }
    Ok(set)
}

/// Whether the names that are lent are those of the copies.
fn are_alike<T: Eq + Hash>(lent: &HashSet<&T>, copies: &HashSet<T>) -> bool {
    for name in copies {
        if !(&*lent).contains(&name) {
            return false;
        }
    }
    lent.len() == copies.len()
}

/// The names that are in one of the sets, in the order in which they are sought.
fn push_names(
    alloc: Global,
    text: &mut Text,
    sought: &str,
    types: &IdentSet,
    marks: &LifetimeSet,
) -> Tested<()> {
    let mut is_first = true;
    for name in sought.split(' ') {
        let is_used = match name.strip_prefix('\'') {
            Some(bare) => marks.contains(&Lifetime {
                ident: ident(alloc, bare)?,
            }),
            None => types.contains(&ident(alloc, name)?),
        };
        if is_used {
            text.push_str(if is_first { "" } else { " " })?;
            text.push_str(name)?;
            is_first = false;
        }
    }
    text.push_str(if is_first { "-" } else { "" })?;
    Ok(())
}

/// Adds the names that the node uses for a purpose. Those that are lent are those of the copies.
fn push_used<N: Searched>(
    alloc: Global,
    text: &mut Text,
    node: &N,
    sought: &str,
    purpose: Purpose,
) -> Tested<()> {
    let options = Options::from(purpose);
    let idents = idents(alloc, sought)?;
    let types = node.uses_type_params_cloned(alloc, &options, &idents)?;
    let lent = node.uses_type_params(alloc, &options, &idents)?;
    let lifetimes = lifetimes(alloc, sought)?;
    let marks = node.uses_lifetimes_cloned(alloc, &options, &lifetimes)?;
    let lent_marks = node.uses_lifetimes(alloc, &options, &lifetimes)?;
    if are_alike(&lent, &types) && are_alike(&lent_marks, &marks) {
        return push_names(alloc, text, sought, &types, &marks);
    }
    Err(Fail::new(format_args!("copies differ from what is lent")))
}

fn used<N: Searched>(alloc: Global, node: &N, sought: &str) -> Tested<Text> {
    let mut text = Text::new(alloc);
    push_used(alloc, &mut text, node, sought, Purpose::BoundImpl)?;
    text.push_str(" | ")?;
    push_used(alloc, &mut text, node, sought, Purpose::Declare)?;
    Ok(text)
}

fn unnamed(item: &DeriveInput) -> &[Field] {
    match &item.body {
        Data::Struct(body) => match &body.fields {
            Fields::Unnamed(fields) => fields.unnamed.as_slice(),
            _ => &[],
        },
        _ => &[],
    }
}

/// The names that the fields of a struct in parentheses use for bounds, together.
fn collected(alloc: Global, fields: &[Field], sought: &str) -> Tested<Text> {
    let options = Options::from(Purpose::BoundImpl);
    if options.include_type_path_qself() {
        return Err(Fail::new(format_args!("bounds look at types in front of paths")));
    }
    let idents = idents(alloc, sought)?;
    let types = fields.collect_type_params_cloned(alloc, &options, &idents)?;
    let lent = fields.collect_type_params(alloc, &options, &idents)?;
    let lifetimes = lifetimes(alloc, sought)?;
    let marks = fields.collect_lifetimes_cloned(alloc, &options, &lifetimes)?;
    let lent_marks = fields.collect_lifetimes(alloc, &options, &lifetimes)?;
    let mut text = Text::new(alloc);
    if are_alike(&lent, &types) && are_alike(&lent_marks, &marks) {
        push_names(alloc, &mut text, sought, &types, &marks)?;
    }
    Ok(text)
}

/// The parameters that an item declares: a row `T U | ITEM => T`.
pub fn declared(alloc: Global, row: &str) -> Tested<Text> {
    let (sought, text) = kind_of(row)?;
    let item = item_of(alloc, text)?;
    let types = item.generics.declared_type_params(alloc)?;
    let marks = item.generics.declared_lifetimes(alloc)?;
    let mut told = Text::new(alloc);
    push_names(alloc, &mut told, sought, &types, &marks)?;
    Ok(told)
}

/// The names that a node of this kind uses.
pub fn searched(alloc: Global, kind: &str, row: &str) -> Tested<Text> {
    let (sought, text) = kind_of(row)?;
    let tokens = tokens(alloc, 0, text)?;
    match kind {
        "type" => used(alloc, &given(parse_type(alloc, &tokens), text)?, sought),
        "where clause" => {
            let clause = given(parse_where(alloc, &tokens), text)?;
            used(alloc, &clause.predicates, sought)
        }
        "type parameter" => used(
            alloc,
            &given(parse_type_param(alloc, &tokens), text)?,
            sought,
        ),
        "name" => used(alloc, &given(parse_ident(alloc, &tokens), text)?, sought),
        "some name" => used(
            alloc,
            &Some(given(parse_ident(alloc, &tokens), text)?),
            sought,
        ),
        "no name" => used::<Option<Ident>>(alloc, &None, sought),
        "no lifetime" => used::<Option<Lifetime>>(alloc, &None, sought),
        "()" => used(alloc, &(), sought),
        _ => of_item(alloc, kind, &item_of(alloc, text)?, sought),
    }
}

fn of_item(alloc: Global, kind: &str, item: &DeriveInput, sought: &str) -> Tested<Text> {
    match kind {
        "body" => used(alloc, &item.body, sought),
        "parameters" => used(alloc, &item.generics.params, sought),
        "fields" => collected(alloc, unnamed(item), sought),
        _ => match ast::Data::<Ident, Type>::try_from(alloc, &item.body) {
            Ok(body) => used(alloc, &body, sought),
            Err(_refusal) => Err(Fail::new(format_args!("the item has no body"))),
        },
    }
}
