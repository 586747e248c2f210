//! Pieces of syntax: names, paths, expressions, parameters, visibilities, `where` clauses, lists and metas.

use crate::from_meta::FromMeta;
use base_core::TryClone;
use error_core::Result;
use meta_nested::Call;
use meta_reads::{
    read_expr, read_expr_kind, read_ident, read_path, read_quoted, read_syntax,
    read_where_predicates,
};
use node_core::{Comma, Meta, Punctuated, TypeParam, Visibility, WhereClause, WherePredicate};
use node_expr::{Expr, ExprArray, ExprPath, ExprRange, FnArg, Path};
use std::alloc::Global;
use tok_types::Ident;

impl FromMeta for Ident {
    ghost use Rattle.tok_types.specs.declared.ident.Ident.{Ident};
    ghost use Rattle.meta_reads.specs.Exprs.{ident_cells};

    ghost Seen = { Ident };

    ghost seen = { λ it. it };

    ghost cells = { ident_cells };

    fn cell(alloc: Global, call: Call<'_>) -> Result<Option<Ident>> {
        read_ident(alloc, call)
    }
}

impl FromMeta for Path {
    ghost use Rattle.node_expr.specs.declared.path.Path.{Path};
    ghost use Rattle.meta_reads.specs.Exprs.{path_cells};

    ghost Seen = { Path };

    ghost seen = { λ it. it };

    ghost cells = { path_cells };

    fn cell(alloc: Global, call: Call<'_>) -> Result<Option<Path>> {
        read_path(alloc, call)
    }
}

impl FromMeta for Expr {
    ghost use Rattle.node_expr.specs.declared.expr.Expr.{Expr};
    ghost use Rattle.meta_reads.specs.Exprs.{expr_cells};

    ghost Seen = { Expr };

    ghost seen = { λ it. it };

    ghost cells = { expr_cells };

    fn cell(alloc: Global, call: Call<'_>) -> Result<Option<Expr>> {
        read_expr(alloc, call)
    }
}

impl FromMeta for ExprArray {
    ghost use Rattle.node_expr.specs.declared.expr.Expr.{Expr};
    ghost use Rattle.node_expr.specs.declared.expr.ExprArray.{ExprArray};
    ghost use Rattle.meta_core.specs.Rows.{expr_array_cells};

    ghost Seen = { ExprArray Expr };

    ghost seen = { λ it. it };

    ghost cells = { expr_array_cells };

    fn cell(alloc: Global, call: Call<'_>) -> Result<Option<ExprArray>> {
        read_expr_kind(alloc, call)
    }
}

impl FromMeta for ExprPath {
    ghost use Rattle.node_expr.specs.declared.expr.ExprPath.{ExprPath};
    ghost use Rattle.meta_core.specs.Rows.{expr_path_cells};

    ghost Seen = { ExprPath };

    ghost seen = { λ it. it };

    ghost cells = { expr_path_cells };

    fn cell(alloc: Global, call: Call<'_>) -> Result<Option<ExprPath>> {
        read_expr_kind(alloc, call)
    }
}

impl FromMeta for ExprRange {
    ghost use Rattle.node_expr.specs.declared.expr.Expr.{Expr};
    ghost use Rattle.node_expr.specs.declared.expr.ExprRange.{ExprRange};
    ghost use Rattle.meta_core.specs.Rows.{expr_range_cells};

    ghost Seen = { ExprRange Expr };

    ghost seen = { λ it. it };

    ghost cells = { expr_range_cells };

    fn cell(alloc: Global, call: Call<'_>) -> Result<Option<ExprRange>> {
        read_expr_kind(alloc, call)
    }
}

impl FromMeta for TypeParam {
    ghost use Rattle.node_core.specs.declared.generics.TypeParam.{TypeParam};
    ghost use Rattle.meta_core.specs.Rows.{type_param_cells};

    ghost Seen = { TypeParam };

    ghost seen = { λ it. it };

    ghost cells = { type_param_cells };

    fn cell(alloc: Global, call: Call<'_>) -> Result<Option<TypeParam>> {
        read_syntax(alloc, call)
    }
}

impl FromMeta for Visibility {
    ghost use Rattle.node_core.specs.declared.data.Visibility.{Visibility};
    ghost use Rattle.meta_core.specs.Rows.{visibility_cells};

    ghost Seen = { Visibility };

    ghost seen = { λ it. it };

    ghost cells = { visibility_cells };

    fn cell(alloc: Global, call: Call<'_>) -> Result<Option<Visibility>> {
        read_syntax(alloc, call)
    }
}

impl FromMeta for WhereClause {
    ghost use Rattle.node_core.specs.declared.generics.WhereClause.{WhereClause};
    ghost use Rattle.meta_core.specs.Rows.{where_clause_cells};

    ghost Seen = { WhereClause };

    ghost seen = { λ it. it };

    ghost cells = { where_clause_cells };

    fn cell(alloc: Global, call: Call<'_>) -> Result<Option<WhereClause>> {
        read_syntax(alloc, call)
    }
}

impl FromMeta for Vec<WherePredicate> {
    ghost use Rattle.std.specs.Prelude.{List};
    ghost use Rattle.node_core.specs.declared.generics.WherePredicate.{WherePredicate};
    ghost use Rattle.meta_reads.specs.Syntax.{where_predicates_cells};

    ghost Seen = { List WherePredicate };

    ghost seen = { λ it. it.items };

    ghost cells = { where_predicates_cells };

    fn cell(alloc: Global, call: Call<'_>) -> Result<Option<Vec<WherePredicate>>> {
        match read_where_predicates(alloc, call)? {
            Some(predicates) => Ok(Some(predicates.into_vec())),
            None => Ok(None),
        }
    }
}

impl FromMeta for Meta {
    ghost use Rattle.node_core.specs.declared.attr.Meta.{Meta};
    ghost use Rattle.meta_core.specs.Rows.{meta_cells};

    ghost Seen = { Meta };

    ghost seen = { λ it. it };

    ghost cells = { meta_cells };

    fn cell(alloc: Global, call: Call<'_>) -> Result<Option<Meta>> {
        match call {
            Call::Meta(it) => Ok(Some(it.try_clone(alloc)?)),
            _ => Ok(None),
        }
    }
}

impl FromMeta for Punctuated<Expr, Comma> {
    ghost use Rattle.node_expr.specs.declared.expr.Expr.{Expr};
    ghost use Rattle.node_core.specs.declared.punctuated.Punctuated.{Punctuated};
    ghost use Rattle.node_core.specs.declared.punctuated.Comma.{Comma};
    ghost use Rattle.meta_core.specs.Rows.{exprs_cells};

    ghost Seen = { Punctuated Expr Comma };

    ghost seen = { λ it. it };

    ghost cells = { exprs_cells };

    fn cell(alloc: Global, call: Call<'_>) -> Result<Option<Punctuated<Expr, Comma>>> {
        read_quoted(alloc, call)
    }
}

impl FromMeta for Punctuated<Ident, Comma> {
    ghost use Rattle.tok_types.specs.declared.ident.Ident.{Ident};
    ghost use Rattle.node_core.specs.declared.punctuated.Punctuated.{Punctuated};
    ghost use Rattle.node_core.specs.declared.punctuated.Comma.{Comma};
    ghost use Rattle.meta_core.specs.Rows.{idents_cells};

    ghost Seen = { Punctuated Ident Comma };

    ghost seen = { λ it. it };

    ghost cells = { idents_cells };

    fn cell(alloc: Global, call: Call<'_>) -> Result<Option<Punctuated<Ident, Comma>>> {
        read_quoted(alloc, call)
    }
}

impl FromMeta for Punctuated<Path, Comma> {
    ghost use Rattle.node_expr.specs.declared.path.Path.{Path};
    ghost use Rattle.node_core.specs.declared.punctuated.Punctuated.{Punctuated};
    ghost use Rattle.node_core.specs.declared.punctuated.Comma.{Comma};
    ghost use Rattle.meta_core.specs.Rows.{paths_cells};

    ghost Seen = { Punctuated Path Comma };

    ghost seen = { λ it. it };

    ghost cells = { paths_cells };

    fn cell(alloc: Global, call: Call<'_>) -> Result<Option<Punctuated<Path, Comma>>> {
        read_quoted(alloc, call)
    }
}

impl FromMeta for Punctuated<FnArg, Comma> {
    ghost use Rattle.node_expr.specs.declared.ty.FnArg.{FnArg};
    ghost use Rattle.node_core.specs.declared.punctuated.Punctuated.{Punctuated};
    ghost use Rattle.node_core.specs.declared.punctuated.Comma.{Comma};
    ghost use Rattle.meta_core.specs.Rows.{fn_args_cells};

    ghost Seen = { Punctuated FnArg Comma };

    ghost seen = { λ it. it };

    ghost cells = { fn_args_cells };

    fn cell(alloc: Global, call: Call<'_>) -> Result<Option<Punctuated<FnArg, Comma>>> {
        read_quoted(alloc, call)
    }
}
