//! Law of the fields that a text declares: those in braces are named by identifiers, and their types are no deeper
//! than a parser reads. The function does nothing: its clause is the law.
#![tactic(auto)]

ghost use Rattle.law_fields.specs.Fields.{HasTextFields};
ghost use Rattle.node_core.specs.declared.derive.DeriveInput.{DeriveInput};
ghost use Rattle.std.specs.Prelude.{All, List, Some, chars, ℕ, ◌≡◌};
ghost use Rattle.syn_items.specs.Trees.{items_of};
ghost use Rattle.tok_core.specs.Spells.{Spells};
ghost use Rattle.tok_types.specs.declared.tree.TokenStream.{TokenStream};

/// The items that the tokens of a text are have such fields alone.
pub fn items_of_a_text_have_text_fields()
    ensures { (source : ℕ) (text : List ℕ) (tokens : TokenStream) (items : List DeriveInput) → Spells source (chars text) tokens → items_of tokens ≡ Some items → All HasTextFields items }
{}
