//! Callables of tokens.

ghost use Rattle.std.specs.Prelude.{codes};
ghost use Rattle.meta_core.specs.Parses.{Parses};
ghost use Rattle.util_core.specs.ParseCallable as spec;

use codegen_program::Callable;
use meta_core::{Parse, parse_expr};
use std::alloc::Global;
use tok_types::TokenStream;

/// What all of the tokens call, an expression of whatever kind: `a::b`, `|item| item`, `a + b`
pub fn parse_callable(alloc: Global, tokens: &TokenStream) -> Parse<Callable>
    ensures { Parses (codes "expected an expression") tokens.now (spec.callable_of tokens.now) result }
{
    let call = parse_expr(alloc, tokens)?;
    Ok(Callable { call })
}
