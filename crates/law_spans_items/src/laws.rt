//! What items and their reading promise of places. The function does nothing: its clauses are the
//! law.

ghost use Rattle.law_spans.specs.Erased.{erased_stream};
ghost use Rattle.law_spans_items.specs.Erased.{erased_derive_input, erased_type_param, erased_visibility, erased_where};
ghost use Rattle.syn_items.specs.Trees.{derive_input_of, items_of, type_param_of, visibility_of, where_of};
ghost use Rattle.std.specs.Prelude.{◌≡◌, map, option_map};
ghost use Rattle.tok_types.specs.declared.tree.TokenStream.{TokenStream};

/// All of the tokens without their places are read as the same items, clause, visibility or
/// parameter without its places, and as none exactly where the tokens with their places are.
pub fn items_see_no_spans()
    ensures items_of { (tokens : TokenStream) → items_of (erased_stream tokens) ≡ option_map (map erased_derive_input) (items_of tokens) }
    ensures derive_input_of { (tokens : TokenStream) → derive_input_of (erased_stream tokens) ≡ option_map erased_derive_input (derive_input_of tokens) }
    ensures where_of { (tokens : TokenStream) → where_of (erased_stream tokens) ≡ option_map erased_where (where_of tokens) }
    ensures visibility_of { (tokens : TokenStream) → visibility_of (erased_stream tokens) ≡ option_map erased_visibility (visibility_of tokens) }
    ensures type_param_of { (tokens : TokenStream) → type_param_of (erased_stream tokens) ≡ option_map erased_type_param (type_param_of tokens) }
{}
