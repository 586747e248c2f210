//! Lists that commas separate.

ghost use Rattle.std.specs.Prelude.{codes, option_map};
ghost use Rattle.syn_grammar.specs.Trees as trees;
ghost use Rattle.meta_reads.specs.Parsed.{punctuated};

use crate::from_tokens::FromTokens;
use node_core::{Comma, Punctuated};
use node_expr::{Expr, FnArg, Path};
use std::alloc::Global;
use std::marker::PhantomData;
use syn_core::{Parse, parse_exprs, parse_fn_args, parse_idents, parse_paths};
use tok_types::{Ident, TokenStream};

impl FromTokens for Punctuated<Expr, Comma> {
    ghost tree = { λ tokens. option_map punctuated (trees.exprs_of tokens) };

    ghost expected = { codes "expected a list" };

    fn from_tokens(alloc: Global, tokens: &TokenStream) -> Parse<Punctuated<Expr, Comma>> {
        let items = parse_exprs(alloc, tokens)?;
        Ok(Punctuated {
            items,
            by: PhantomData,
        })
    }
}

impl FromTokens for Punctuated<Ident, Comma> {
    ghost tree = { λ tokens. option_map punctuated (trees.idents_of tokens) };

    ghost expected = { codes "expected a list" };

    fn from_tokens(alloc: Global, tokens: &TokenStream) -> Parse<Punctuated<Ident, Comma>> {
        let items = parse_idents(alloc, tokens)?;
        Ok(Punctuated {
            items,
            by: PhantomData,
        })
    }
}

impl FromTokens for Punctuated<Path, Comma> {
    ghost tree = { λ tokens. option_map punctuated (trees.paths_of tokens) };

    ghost expected = { codes "expected a list" };

    fn from_tokens(alloc: Global, tokens: &TokenStream) -> Parse<Punctuated<Path, Comma>> {
        let items = parse_paths(alloc, tokens)?;
        Ok(Punctuated {
            items,
            by: PhantomData,
        })
    }
}

impl FromTokens for Punctuated<FnArg, Comma> {
    ghost tree = { λ tokens. option_map punctuated (trees.fn_args_of tokens) };

    ghost expected = { codes "expected a list" };

    fn from_tokens(alloc: Global, tokens: &TokenStream) -> Parse<Punctuated<FnArg, Comma>> {
        let items = parse_fn_args(alloc, tokens)?;
        Ok(Punctuated {
            items,
            by: PhantomData,
        })
    }
}
