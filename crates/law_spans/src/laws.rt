//! What nodes and their reading promise of places. These functions do nothing: their clauses are the
//! laws.

ghost use Rattle.law_spans.specs.Erased.{erased_bound, erased_expr, erased_fn_arg, erased_ident, erased_path, erased_stream, erased_type};
ghost use Rattle.law_spans.specs.IgnoresSpans.{IgnoresSpans};
ghost use Rattle.syn_grammar.specs.Depth.{bound_depth, expr_depth, path_depth, type_depth};
ghost use Rattle.node_expr.specs.declared.expr.Expr.{Expr};
ghost use Rattle.node_expr.specs.declared.generics.TypeParamBound.{TypeParamBound};
ghost use Rattle.node_expr.specs.declared.path.Path.{Path};
ghost use Rattle.node_expr.specs.declared.ty.«Type».{«Type» as Ty};
ghost use Rattle.syn_grammar.specs.Grammar.{within};
ghost use Rattle.syn_grammar.specs.Paths.{path};
ghost use Rattle.syn_grammar.specs.Trees.{expr_of, exprs_of, fn_args_of, ident_of, idents_of, path_of, paths_of, type_of};
ghost use Rattle.std.specs.Prelude.{◌≡◌, ℕ, Bool, map, option_map};
ghost use Rattle.tok_types.specs.declared.tree.TokenStream.{TokenStream};

/// Tokens without their places are read as the same tree without its places, with the same tokens
/// left, and as none exactly where the tokens with their places are: types, expressions, bounds and
/// paths, at every depth.
pub fn reading_sees_no_spans()
    ensures ty { (depth : ℕ) (allow_plus : Bool) → IgnoresSpans erased_type ((within depth).ty allow_plus) ((within depth).ty allow_plus) }
    ensures expr { (depth level : ℕ) → IgnoresSpans erased_expr ((within depth).expr level) ((within depth).expr level) }
    ensures bounds { (depth : ℕ) → IgnoresSpans (map erased_bound) ((within depth).bounds) ((within depth).bounds) }
    ensures path { (depth : ℕ) (in_type : Bool) → IgnoresSpans erased_path (path (within depth) in_type) (path (within depth) in_type) }
{}

/// All of the tokens without their places are read as the same tree without its places, and as none
/// exactly where the tokens with their places are.
pub fn trees_see_no_spans()
    ensures type_of { (tokens : TokenStream) → type_of (erased_stream tokens) ≡ option_map erased_type (type_of tokens) }
    ensures expr_of { (tokens : TokenStream) → expr_of (erased_stream tokens) ≡ option_map erased_expr (expr_of tokens) }
    ensures path_of { (tokens : TokenStream) → path_of (erased_stream tokens) ≡ option_map erased_path (path_of tokens) }
    ensures ident_of { (tokens : TokenStream) → ident_of (erased_stream tokens) ≡ option_map erased_ident (ident_of tokens) }
    ensures exprs_of { (tokens : TokenStream) → exprs_of (erased_stream tokens) ≡ option_map (map erased_expr) (exprs_of tokens) }
    ensures idents_of { (tokens : TokenStream) → idents_of (erased_stream tokens) ≡ option_map (map erased_ident) (idents_of tokens) }
    ensures paths_of { (tokens : TokenStream) → paths_of (erased_stream tokens) ≡ option_map (map erased_path) (paths_of tokens) }
    ensures fn_args_of { (tokens : TokenStream) → fn_args_of (erased_stream tokens) ≡ option_map (map erased_fn_arg) (fn_args_of tokens) }
{}

/// A node without its places is as deep as it was.
pub fn depth_sees_no_spans()
    ensures ty { (node : Ty) → type_depth (erased_type node) ≡ type_depth node }
    ensures expr { (node : Expr) → expr_depth (erased_expr node) ≡ expr_depth node }
    ensures bound { (node : TypeParamBound) → bound_depth (erased_bound node) ≡ bound_depth node }
    ensures path { (node : Path) → path_depth (erased_path node) ≡ path_depth node }
{}
