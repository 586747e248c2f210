//! What reading promises of the places of nested items. This function does nothing: its clauses are
//! the law.

ghost use Rattle.law_places.specs.Stands.{ListOf, ListStands};
ghost use Rattle.law_nested.specs.Places.{NestedStands};
ghost use Rattle.law_nested.specs.OneText.{AllIn};
ghost use Rattle.meta_nested.specs.Nested.{nested_of};
ghost use Rattle.meta_nested.specs.Nodes.{nested_span};
ghost use Rattle.meta_nested.specs.declared.nested.NestedMeta.{NestedMeta};
ghost use Rattle.std.specs.Prelude.{◌≡◌, ℕ, List, Some};
ghost use Rattle.tok_types.specs.declared.tree.TokenStream.{TokenStream, out-TokenStream};

/// The nested items that all of some tokens are stand where their own tokens do, and these with the
/// commas between them are all of the tokens. A bad value has its path, which stands where its tokens
/// do, and behind it the `=` and the tokens that are kept. Where all of the tokens are in one text, each
/// item stands from the start of its first token to the end of its last.
pub fn nested_items_stand_where_their_tokens_do()
    ensures nested_of { (tokens : TokenStream) (found : List NestedMeta) → nested_of tokens ≡ Some found → ListOf NestedStands (out-TokenStream tokens).trees found }
    ensures one_text { (text : ℕ) (tokens : TokenStream) (found : List NestedMeta) → AllIn text (out-TokenStream tokens).trees → nested_of tokens ≡ Some found → ListStands nested_span (out-TokenStream tokens).trees found }
{}
