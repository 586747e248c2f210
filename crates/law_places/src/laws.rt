//! What reading promises of the places of nodes. These functions do nothing: their clauses are the
//! laws.

ghost use Rattle.law_places.specs.Stands.{ListStands, Stands};
ghost use Rattle.node_span.specs.Spanned.{argument_span, arguments_span, bound_span, expr_path_span, expr_span, lifetime_span, path_span, segment_span, stream_span, type_span};
ghost use Rattle.node_expr.specs.declared.expr.Expr.{Expr};
ghost use Rattle.node_expr.specs.declared.expr.ExprArray.{ExprArray};
ghost use Rattle.node_expr.specs.declared.expr.ExprPath.{ExprPath};
ghost use Rattle.node_expr.specs.declared.expr.ExprRange.{ExprRange};
ghost use Rattle.node_expr.specs.declared.lit.LitInt.{LitInt};
ghost use Rattle.node_expr.specs.declared.path.Path.{Path};
ghost use Rattle.node_expr.specs.declared.ty.FnArg.{FnArg};
ghost use Rattle.node_expr.specs.declared.ty.NamedArg.{NamedArg};
ghost use Rattle.node_expr.specs.declared.ty.«Type».{«Type» as Ty};
ghost use Rattle.std.specs.Prelude.{◌≡◌, ℕ, Bool, List, Some};
ghost use Rattle.syn_grammar.specs.Arguments.{fn_arg};
ghost use Rattle.syn_grammar.specs.Expressions.{literal};
ghost use Rattle.syn_grammar.specs.Grammar.{within};
ghost use Rattle.syn_grammar.specs.Input.{take_as};
ghost use Rattle.syn_grammar.specs.Literals.{index_of};
ghost use Rattle.syn_grammar.specs.Paths.{generic_argument, one_bound, parenthesized, path, segment};
ghost use Rattle.syn_grammar.specs.Token.{lifetime_of};
ghost use Rattle.syn_grammar.specs.Trees.{expr_array_of, expr_of, expr_path_of, expr_range_of, exprs_of, fn_args_of, ident_of, idents_of, path_of, paths_of, type_of};
ghost use Rattle.syn_grammar.specs.Types.{named_arg};
ghost use Rattle.syn_grammar.specs.Words.{name_of};
ghost use Rattle.tok_types.specs.declared.ident.Ident.{Ident};
ghost use Rattle.tok_types.specs.declared.tree.TokenStream.{TokenStream, out-TokenStream};

/// What is read from the front of some tokens stands where the tokens stand that it was read from,
/// one at least: from the start of the first to the end of the last. So do types and expressions of
/// every depth, and their parts: paths, their segments, each argument in angles, the inputs in parentheses
/// with their output, each bound, each input of a function pointer, the arguments of functions, names,
/// lifetimes, literals and the indices of fields.
pub fn prefixes_stand_where_they_are_read()
    ensures ty { (depth : ℕ) (allow_plus : Bool) → Stands type_span ((within depth).ty allow_plus) }
    ensures expr { (depth level : ℕ) → Stands expr_span ((within depth).expr level) }
    ensures path { (depth : ℕ) (in_type : Bool) → Stands path_span (path (within depth) in_type) }
    ensures segment { (depth : ℕ) (in_type : Bool) → Stands segment_span (segment (within depth) in_type) }
    ensures argument { (depth : ℕ) → Stands argument_span (generic_argument (within depth)) }
    ensures inputs { (depth : ℕ) → Stands arguments_span (parenthesized (within depth)) }
    ensures bound { (depth : ℕ) → Stands bound_span (one_bound (within depth)) }
    ensures named_arg { (depth : ℕ) → Stands (λ (it : NamedArg Ty). it.span) (named_arg (within depth)) }
    ensures fn_arg { (depth : ℕ) → Stands (λ (it : FnArg). it.span) (fn_arg (within depth)) }
    ensures name { Stands (λ (it : Ident). it.span) (take_as name_of) }
    ensures lifetime { Stands lifetime_span (take_as lifetime_of) }
    ensures literal { Stands expr_span literal }
    ensures index { Stands (λ (it : LitInt). it.span) (take_as index_of) }
{}

/// The tree of all of the tokens stands where the tokens do.
pub fn trees_stand_where_their_tokens_do()
    ensures type_of { (tokens : TokenStream) (found : Ty) → type_of tokens ≡ Some found → type_span found ≡ stream_span tokens }
    ensures expr_of { (tokens : TokenStream) (found : Expr) → expr_of tokens ≡ Some found → expr_span found ≡ stream_span tokens }
    ensures path_of { (tokens : TokenStream) (found : Path) → path_of tokens ≡ Some found → path_span found ≡ stream_span tokens }
    ensures ident_of { (tokens : TokenStream) (found : Ident) → ident_of tokens ≡ Some found → found.span ≡ stream_span tokens }
    ensures expr_array_of { (tokens : TokenStream) (found : ExprArray Expr) → expr_array_of tokens ≡ Some found → found.span ≡ stream_span tokens }
    ensures expr_path_of { (tokens : TokenStream) (found : ExprPath) → expr_path_of tokens ≡ Some found → expr_path_span found ≡ stream_span tokens }
    ensures expr_range_of { (tokens : TokenStream) (found : ExprRange Expr) → expr_range_of tokens ≡ Some found → found.span ≡ stream_span tokens }
{}

/// A list that all of the tokens are, with commas between its items: each item stands where its own
/// tokens do, and together with the commas these are all of the tokens.
pub fn lists_stand_where_their_tokens_do()
    ensures exprs_of { (tokens : TokenStream) (found : List Expr) → exprs_of tokens ≡ Some found → ListStands expr_span (out-TokenStream tokens).trees found }
    ensures idents_of { (tokens : TokenStream) (found : List Ident) → idents_of tokens ≡ Some found → ListStands (λ it. it.span) (out-TokenStream tokens).trees found }
    ensures paths_of { (tokens : TokenStream) (found : List Path) → paths_of tokens ≡ Some found → ListStands path_span (out-TokenStream tokens).trees found }
    ensures fn_args_of { (tokens : TokenStream) (found : List FnArg) → fn_args_of tokens ≡ Some found → ListStands (λ it. it.span) (out-TokenStream tokens).trees found }
{}
