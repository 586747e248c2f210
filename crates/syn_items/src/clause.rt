//! `where` clauses.

ghost use Rattle.std.specs.Prelude.{◌≡◌};
ghost use Rattle.syn_items.specs.Generics as spec;
ghost use Rattle.syn_grammar.specs.Reads.{Gives};

use crate::generics::{bounds, lifetimes, ty};
use crate::look::ends_where;
use base_core::Items;
use node_core::{WhereClause, WherePredicate};
use node_expr::TypeParamBound;
use std::alloc::Global;
use syn_grammar::{Cursor, ReadFail, Word, lifetime_of, peek};
use syn_types::binder;

/// `'a: 'b + 'c`
#[tactic(auto, unfolding(crate::specs::Generics::lifetime_predicate))]
fn lifetime_predicate(alloc: Global, tokens: &mut Cursor<'_>) -> Result<WherePredicate, ReadFail>
    ensures { Gives (spec.lifetime_predicate tokens.old) result tokens.new }
{
    let start = tokens.here();
    let lifetime = tokens.take_lifetime(alloc)?;
    tokens.expect_colon()?;
    let bounds = lifetimes(alloc, tokens)?;
    let span = tokens.upto(start);
    Ok(WherePredicate::Lifetime {
        lifetime,
        bounds,
        span,
    })
}

/// `: A + B`
fn colon_bounds(alloc: Global, tokens: &mut Cursor<'_>) -> Result<Items<TypeParamBound>, ReadFail>
    ensures { Gives (spec.colon_bounds tokens.old) result tokens.new }
{
    tokens.expect_colon()?;
    bounds(alloc, tokens)
}

/// `for<'a> &'a T: A + B`
#[tactic(auto, unfolding(crate::specs::Generics::type_predicate))]
fn type_predicate(alloc: Global, tokens: &mut Cursor<'_>) -> Result<WherePredicate, ReadFail>
    ensures { Gives (spec.type_predicate tokens.old) result tokens.new }
{
    let start = tokens.here();
    let lifetimes = binder(alloc, tokens)?;
    let bounded_ty = ty(alloc, tokens)?;
    let bounds = colon_bounds(alloc, tokens)?;
    let span = tokens.upto(start);
    Ok(WherePredicate::Ty {
        lifetimes,
        bounded_ty,
        bounds,
        span,
    })
}

#[tactic(auto, unfolding(crate::specs::Generics::where_predicate))]
fn where_predicate(alloc: Global, tokens: &mut Cursor<'_>) -> Result<WherePredicate, ReadFail>
    ensures { Gives (spec.where_predicate tokens.old) result tokens.new }
{
    if lifetime_of(tokens.rest()).is_some() {
        lifetime_predicate(alloc, tokens)
    } else {
        type_predicate(alloc, tokens)
    }
}

/// The predicates of a clause, with at most one comma at its end.
fn predicates(alloc: Global, tokens: &mut Cursor<'_>) -> Result<Items<WherePredicate>, ReadFail>
    ensures { Gives (spec.predicates tokens.old) result tokens.new }
{
    let mut found = Items::new(alloc);
    for _turn in 0..tokens.left() {
        if ends_where(tokens.rest()) {
            return Ok(found);
        }
        let next = where_predicate(alloc, tokens)?;
        found.push(next)?;
        if !tokens.eat_mark(',') {
            return Ok(found);
        }
    }
    if ends_where(tokens.rest()) {
        Ok(found)
    } else {
        Err(ReadFail::Syntax)
    }
}

/// `where 'a: 'b, T: A`
#[tactic(auto, unfolding(crate::specs::Generics::where_clause))]
pub fn where_clause(alloc: Global, tokens: &mut Cursor<'_>) -> Result<WhereClause, ReadFail>
    ensures { Gives (spec.where_clause tokens.old) result tokens.new }
{
    let start = tokens.here();
    tokens.expect_word(Word::Where)?;
    let predicates = predicates(alloc, tokens)?;
    let span = tokens.upto(start);
    Ok(WhereClause { predicates, span })
}

/// A `where` clause, or nothing.
#[tactic(auto, unfolding(crate::specs::Generics::maybe_where))]
pub(crate) fn maybe_where(
    alloc: Global,
    tokens: &mut Cursor<'_>,
) -> Result<Option<WhereClause>, ReadFail>
    ensures { Gives (spec.maybe_where tokens.old) result tokens.new }
{
    if !peek(Word::Where, tokens.rest()) {
        return Ok(None);
    }
    let clause = where_clause(alloc, tokens)?;
    Ok(Some(clause))
}
