//! What the rules of the grammar read of the printing of what they read. These functions do nothing:
//! their clauses are the laws.

ghost use Rattle.law_round_trip.specs.Follow.{AfterExpr, AfterPath, AfterType, BeginsExpr, BeginsPath, BeginsType, NotEnded};
ghost use Rattle.law_spans.specs.Kinds.{erased_expr_array, erased_expr_range};
ghost use Rattle.law_round_trip.specs.Parts.{bounds_tokens, style_of};
ghost use Rattle.law_round_trip.specs.Printed.{RoundTrips, ReadBack, separated};
ghost use Rattle.law_spans.specs.Erased.{erased_bound, erased_expr, erased_expr_path, erased_fn_arg, erased_ident, erased_path, erased_type};
ghost use Rattle.syn_grammar.specs.Grammar.{within};
ghost use Rattle.syn_grammar.specs.Paths.{bounds, path};
ghost use Rattle.syn_grammar.specs.Trees.{expr_array_of, expr_of, expr_path_of, expr_range_of, exprs_of, fn_args_of, ident_of, idents_of, path_of, paths_of, type_of};
ghost use Rattle.print_core.specs.declared.path.PathStyle.TheVariants.{Plain};
ghost use Rattle.print_core.specs.Items.{fn_arg_tokens};
ghost use Rattle.print_core.specs.Kinds.{array_tokens, range_tokens};
ghost use Rattle.print_core.specs.Marks.{ident};
ghost use Rattle.print_core.specs.Nodes.{expr_path_tokens, expr_tokens, path_tokens, type_tokens};
ghost use Rattle.std.specs.Prelude.{ℕ, Bool, map};
ghost use Rattle.tok_types.specs.declared.span.Span.{Span};

/// What is read at the front of some tokens is read, as the same but for places, of its printing,
/// wherever that stands, and whatever follows that goes on only where the source did: types,
/// expressions of every level, paths and bounds, at every depth.
pub fn prefixes_are_read_back()
    ensures ty { (depth : ℕ) (allow_plus : Bool) → RoundTrips erased_type type_tokens BeginsType (AfterType allow_plus) ((within depth).ty allow_plus) }
    ensures expr { (depth level : ℕ) → RoundTrips erased_expr expr_tokens (BeginsExpr level) (AfterExpr level) ((within depth).expr level) }
    ensures path { (depth : ℕ) (in_type : Bool) → RoundTrips erased_path (path_tokens (style_of in_type)) (BeginsPath in_type) (AfterPath in_type) (path (within depth) in_type) }
    ensures bounds { (depth : ℕ) (allow_plus : Bool) (span : Span) → RoundTrips (map erased_bound) (bounds_tokens span) NotEnded (AfterType allow_plus) (bounds (within depth) allow_plus) }
{}

/// What is read from all of some tokens is read, as the same but for places, of its printing: a tree
/// alone, an expression of one kind, or a list with commas.
pub fn trees_are_read_back()
    ensures type_of { ReadBack erased_type type_tokens type_of }
    ensures expr_of { ReadBack erased_expr expr_tokens expr_of }
    ensures path_of { ReadBack erased_path (path_tokens Plain) path_of }
    ensures ident_of { ReadBack erased_ident ident ident_of }
    ensures expr_array_of { ReadBack erased_expr_array array_tokens expr_array_of }
    ensures expr_path_of { ReadBack erased_expr_path expr_path_tokens expr_path_of }
    ensures expr_range_of { ReadBack erased_expr_range range_tokens expr_range_of }
    ensures exprs_of { ReadBack (map erased_expr) (separated expr_tokens) exprs_of }
    ensures paths_of { ReadBack (map erased_path) (separated (path_tokens Plain)) paths_of }
    ensures idents_of { ReadBack (map erased_ident) (separated ident) idents_of }
    ensures fn_args_of { ReadBack (map erased_fn_arg) (separated fn_arg_tokens) fn_args_of }
{}
