//! What every grammar promises. This function does nothing: its clauses are the law.

ghost use Rattle.syn_grammar.specs.Trees as trees;
ghost use Rattle.syn_items.specs.Trees as item_trees;
ghost use Rattle.syn_core.specs.OneTree.{HaveOneTree};

/// A list of tokens has at most one tree in each grammar.
pub fn tokens_have_one_tree()
    ensures ty { HaveOneTree trees.type_of }
    ensures path { HaveOneTree trees.path_of }
    ensures expr { HaveOneTree trees.expr_of }
    ensures ident { HaveOneTree trees.ident_of }
    ensures expr_array { HaveOneTree trees.expr_array_of }
    ensures expr_path { HaveOneTree trees.expr_path_of }
    ensures expr_range { HaveOneTree trees.expr_range_of }
    ensures fn_args { HaveOneTree trees.fn_args_of }
    ensures exprs { HaveOneTree trees.exprs_of }
    ensures idents { HaveOneTree trees.idents_of }
    ensures paths { HaveOneTree trees.paths_of }
    ensures items { HaveOneTree item_trees.items_of }
    ensures derive_input { HaveOneTree item_trees.derive_input_of }
    ensures where_clause { HaveOneTree item_trees.where_of }
    ensures visibility { HaveOneTree item_trees.visibility_of }
    ensures type_param { HaveOneTree item_trees.type_param_of }
{}
