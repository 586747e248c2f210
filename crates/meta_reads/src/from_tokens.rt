//! What all of some tokens are: the trait, and the nodes that have a parser of their own.

ghost use Rattle.std.specs.Prelude.{codes};
ghost use Rattle.syn_grammar.specs.Trees as trees;
ghost use Rattle.syn_items.specs.Trees as item_trees;

use node_core::{TypeParam, Visibility, WhereClause};
use node_expr::{Expr, ExprArray, ExprPath, ExprRange, Path, Type};
use std::alloc::Global;
use syn_core::{
    Parse, parse_expr, parse_expr_array, parse_expr_path, parse_expr_range, parse_ident,
    parse_path, parse_type, parse_type_param, parse_visibility, parse_where,
};
use tok_types::{Ident, TokenStream};

/// A node that all of some tokens are.
pub trait FromTokens: Sized {
    ghost use Rattle.std.specs.Prelude.{Option};
    ghost use Rattle.base_core.specs.declared.text.Text.{Text};
    ghost use Rattle.tok_types.specs.declared.tree.TokenStream.{TokenStream};
    ghost use Rattle.syn_core.specs.Parses.{Parses};

    // The tree of the tokens, in the grammar of the node.
    ghost tree: { TokenStream → Option Self };

    // What the fault of other tokens says.
    ghost expected: { Text };

    /// The node, or the one fault where the tokens stand.
    fn from_tokens(alloc: Global, tokens: &TokenStream) -> Parse<Self>
        ensures { Parses expected tokens.now (tree tokens.now) result };
}

impl FromTokens for Ident {
    ghost tree = { trees.ident_of };

    ghost expected = { codes "expected an identifier" };

    fn from_tokens(alloc: Global, tokens: &TokenStream) -> Parse<Ident> {
        parse_ident(alloc, tokens)
    }
}

impl FromTokens for Path {
    ghost tree = { trees.path_of };

    ghost expected = { codes "expected a path" };

    fn from_tokens(alloc: Global, tokens: &TokenStream) -> Parse<Path> {
        parse_path(alloc, tokens)
    }
}

impl FromTokens for Expr {
    ghost tree = { trees.expr_of };

    ghost expected = { codes "expected an expression" };

    fn from_tokens(alloc: Global, tokens: &TokenStream) -> Parse<Expr> {
        parse_expr(alloc, tokens)
    }
}

impl FromTokens for ExprArray {
    ghost tree = { trees.expr_array_of };

    ghost expected = { codes "expected an array" };

    fn from_tokens(alloc: Global, tokens: &TokenStream) -> Parse<ExprArray> {
        parse_expr_array(alloc, tokens)
    }
}

impl FromTokens for ExprPath {
    ghost tree = { trees.expr_path_of };

    ghost expected = { codes "expected an expression path" };

    fn from_tokens(alloc: Global, tokens: &TokenStream) -> Parse<ExprPath> {
        parse_expr_path(alloc, tokens)
    }
}

impl FromTokens for ExprRange {
    ghost tree = { trees.expr_range_of };

    ghost expected = { codes "expected a range" };

    fn from_tokens(alloc: Global, tokens: &TokenStream) -> Parse<ExprRange> {
        parse_expr_range(alloc, tokens)
    }
}

impl FromTokens for Type {
    ghost tree = { trees.type_of };

    ghost expected = { codes "expected a type" };

    fn from_tokens(alloc: Global, tokens: &TokenStream) -> Parse<Type> {
        parse_type(alloc, tokens)
    }
}

impl FromTokens for TypeParam {
    ghost tree = { item_trees.type_param_of };

    ghost expected = { codes "expected a type parameter" };

    fn from_tokens(alloc: Global, tokens: &TokenStream) -> Parse<TypeParam> {
        parse_type_param(alloc, tokens)
    }
}

impl FromTokens for Visibility {
    ghost tree = { item_trees.visibility_of };

    ghost expected = { codes "expected a visibility" };

    fn from_tokens(alloc: Global, tokens: &TokenStream) -> Parse<Visibility> {
        parse_visibility(alloc, tokens)
    }
}

impl FromTokens for WhereClause {
    ghost tree = { item_trees.where_of };

    ghost expected = { codes "expected a where clause" };

    fn from_tokens(alloc: Global, tokens: &TokenStream) -> Parse<WhereClause> {
        parse_where(alloc, tokens)
    }
}
