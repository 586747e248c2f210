//! Each call prints a tree and reads the printing. A tree that a parser gave comes back as the same but
//! for places.

ghost use Rattle.law_spans.specs.Erased.{erased_expr, erased_path, erased_type};
ghost use Rattle.law_spans_items.specs.Erased.{erased_derive_input, erased_type_param, erased_visibility, erased_where};
ghost use Rattle.syn_grammar.specs.Trees as trees;
ghost use Rattle.syn_items.specs.Trees as items;
ghost use Rattle.syn_reread.specs.Reread.{ComesBack};

use node_core::{DeriveInput, TypeParam, Visibility, WhereClause};
use node_expr::{Expr, Path, Type};
use print_core::ToTokens;
use std::alloc::Global;
use syn_core::{
    Parse, parse_derive_input, parse_expr, parse_path, parse_type, parse_type_param,
    parse_visibility, parse_where,
};

/// A type, printed and read again.
pub fn reread_type(alloc: Global, tree: &Type) -> Parse<Type>
    ensures { ComesBack erased_type trees.type_of tree.now result }
{
    let tokens = tree.to_token_stream(alloc)?;
    parse_type(alloc, &tokens)
}

/// An expression, printed and read again.
pub fn reread_expr(alloc: Global, tree: &Expr) -> Parse<Expr>
    ensures { ComesBack erased_expr trees.expr_of tree.now result }
{
    let tokens = tree.to_token_stream(alloc)?;
    parse_expr(alloc, &tokens)
}

/// A path as in a type, printed and read again.
pub fn reread_path(alloc: Global, tree: &Path) -> Parse<Path>
    ensures { ComesBack erased_path trees.path_of tree.now result }
{
    let tokens = tree.to_token_stream(alloc)?;
    parse_path(alloc, &tokens)
}

/// An item, printed and read again.
pub fn reread_derive_input(alloc: Global, tree: &DeriveInput) -> Parse<DeriveInput>
    ensures { ComesBack erased_derive_input items.derive_input_of tree.now result }
{
    let tokens = tree.to_token_stream(alloc)?;
    parse_derive_input(alloc, &tokens)
}

/// A `where` clause, printed and read again.
pub fn reread_where(alloc: Global, tree: &WhereClause) -> Parse<WhereClause>
    ensures { ComesBack erased_where items.where_of tree.now result }
{
    let tokens = tree.to_token_stream(alloc)?;
    parse_where(alloc, &tokens)
}

/// A visibility, printed and read again.
pub fn reread_visibility(alloc: Global, tree: &Visibility) -> Parse<Visibility>
    ensures { ComesBack erased_visibility items.visibility_of tree.now result }
{
    let tokens = tree.to_token_stream(alloc)?;
    parse_visibility(alloc, &tokens)
}

/// A type parameter, printed and read again.
pub fn reread_type_param(alloc: Global, tree: &TypeParam) -> Parse<TypeParam>
    ensures { ComesBack erased_type_param items.type_param_of tree.now result }
{
    let tokens = tree.to_token_stream(alloc)?;
    parse_type_param(alloc, &tokens)
}
