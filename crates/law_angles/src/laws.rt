//! What the angles of an expression promise. This function does nothing: its clauses are the law.

ghost use Rattle.law_angles.specs.Ends.{ends, nothing};
ghost use Rattle.law_prefix.specs.SameLookahead.{stops};
ghost use Rattle.node_expr.specs.declared.expr.Expr.{Expr};
ghost use Rattle.std.specs.Prelude.{◌≡◌, drop, List, Some, take, true, ℕ};
ghost use Rattle.syn_grammar.specs.Grammar.{max_depth, within};
ghost use Rattle.syn_grammar.specs.Input.{Input, start_of};
ghost use Rattle.syn_grammar.specs.Readers.{any_level};
ghost use Rattle.syn_grammar.specs.Trees.{all};
ghost use Rattle.tok_types.specs.declared.tree.TokenTree.{TokenTree};

/// Where an expression is read before a comma or before the end, the angles close that its turbofishes
/// open; and so where it is all of some tokens there. So where they do not close, no expression is read.
pub fn angles_close_where_an_expression_ends()
    ensures read { (input after : Input) (found : Expr) → (within max_depth).expr any_level input ≡ Some (found, after) → stops after.rest ≡ true → ends nothing 0 input.rest ≡ true }
    ensures run { (trees : List TokenTree) (count : ℕ) (found : Expr) → all ((within max_depth).expr any_level (start_of (take count trees))) ≡ Some found → stops (drop count trees) ≡ true → ends nothing 0 trees ≡ true }
{}
