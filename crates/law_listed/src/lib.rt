//! Laws of nested items: each literal in the value of an item is an item of some list itself. The
//! function does nothing: its clauses are the law.
#![tactic(auto)]

ghost use Rattle.law_listed.specs.Listed.{HasListed, IsListed, IsListedLit};
ghost use Rattle.meta_nested.specs.Groups.{without_groups};
ghost use Rattle.meta_nested.specs.declared.nested.NestedMeta.TheVariants as nested;
ghost use Rattle.node_core.specs.declared.attr.Meta.TheVariants as meta;
ghost use Rattle.node_core.specs.declared.attr.MetaNameValue.{MetaNameValue};
ghost use Rattle.node_expr.specs.Kinds.{array_in};
ghost use Rattle.node_expr.specs.declared.expr.Expr.{Expr, out-Expr};
ghost use Rattle.node_expr.specs.declared.expr.ExprArray.{ExprArray};
ghost use Rattle.std.specs.Prelude.{Some, ◌≡◌};
ghost use Rattle.syn_grammar.specs.Trees.{expr_array_of};
ghost use Rattle.tok_types.specs.declared.tree.TokenStream.{TokenStream};

/// The literal that the value of an item is, and each among the elements of an array that the value
/// is or that all of some tokens are, is an item of some list, without invisible groups around them.
#[tactic(auto, using(crate::proofs::Elements::value_literal, crate::proofs::Elements::value_elements, crate::proofs::Elements::array_elements))]
pub fn literals_of_values_are_items()
    ensures literal { (pair : MetaNameValue) → IsListed (nested.Meta (meta.NameValue pair)) → IsListedLit pair.value }
    ensures elements { (pair : MetaNameValue) → IsListed (nested.Meta (meta.NameValue pair)) → (array : ExprArray Expr) → array_in (out-Expr (without_groups pair.value)) ≡ Some array → HasListed array }
    ensures array { (tokens : TokenStream) (array : ExprArray Expr) → expr_array_of tokens ≡ Some array → HasListed array }
{}
