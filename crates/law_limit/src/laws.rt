//! What a limit on depth promises. These functions do nothing: their clauses are the laws.

ghost use Rattle.law_limit.specs.IsExtendedBy.{IsExtendedBy};
ghost use Rattle.node_expr.specs.declared.expr.Expr.{Expr};
ghost use Rattle.node_expr.specs.declared.generics.TypeParamBound.{TypeParamBound};
ghost use Rattle.node_expr.specs.declared.ty.«Type».{«Type» as Ty};
ghost use Rattle.std.specs.Prelude.{◌≡◌, ◌≤◌, Bool, List, Some, ℕ};
ghost use Rattle.syn_grammar.specs.Depth.{expr_depth, type_depth};
ghost use Rattle.syn_grammar.specs.Grammar.{bounds_depth, within};
ghost use Rattle.syn_grammar.specs.Input.{Input};
ghost use Rattle.syn_grammar.specs.Paths.{path};

/// What is read at one limit is read at every larger one, as the same tree with the same tokens left:
/// types, expressions, bounds and paths. So a limit decides whether there is a tree, and never which.
pub fn a_larger_limit_reads_as_much()
    ensures ty { (limit larger : ℕ) (allow_plus : Bool) → limit ≤ larger → IsExtendedBy ((within limit).ty allow_plus) ((within larger).ty allow_plus) }
    ensures expr { (limit larger level : ℕ) → limit ≤ larger → IsExtendedBy ((within limit).expr level) ((within larger).expr level) }
    ensures bounds { (limit larger : ℕ) → limit ≤ larger → IsExtendedBy ((within limit).bounds) ((within larger).bounds) }
    ensures path { (limit larger : ℕ) (in_type : Bool) → limit ≤ larger → IsExtendedBy (path (within limit) in_type) (path (within larger) in_type) }
{}

/// What is read at a limit is no deeper than it.
pub fn what_is_read_is_within_its_limit()
    ensures ty { (limit : ℕ) (allow_plus : Bool) (input rest : Input) (ty : Ty) → (within limit).ty allow_plus input ≡ Some (ty, rest) → type_depth ty ≤ limit }
    ensures expr { (limit level : ℕ) (input rest : Input) (expr : Expr) → (within limit).expr level input ≡ Some (expr, rest) → expr_depth expr ≤ limit }
    ensures bounds { (limit : ℕ) (input rest : Input) (bounds : List TypeParamBound) → (within limit).bounds input ≡ Some (bounds, rest) → bounds_depth bounds ≤ limit }
{}
