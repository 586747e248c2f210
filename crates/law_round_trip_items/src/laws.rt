//! What the rules of items read of the printing of what they read. The function does nothing: its
//! clauses are the law.

ghost use Rattle.law_round_trip.specs.Printed.{ReadBack};
ghost use Rattle.law_spans_items.specs.Erased.{erased_derive_input, erased_type_param, erased_visibility, erased_where};
ghost use Rattle.syn_items.specs.Trees.{derive_input_of, items_of, type_param_of, visibility_of, where_of};
ghost use Rattle.print_core.specs.Items.{derive_input_tokens, type_param_tokens, visibility_tokens, where_tokens};
ghost use Rattle.std.specs.Prelude.{flat_map, map};

/// What is read from all of some tokens is read, as the same but for places, of its printing: items,
/// one item, a clause, a visibility or a type parameter.
pub fn items_are_read_back()
    ensures items_of { ReadBack (map erased_derive_input) (flat_map derive_input_tokens) items_of }
    ensures derive_input_of { ReadBack erased_derive_input derive_input_tokens derive_input_of }
    ensures where_of { ReadBack erased_where where_tokens where_of }
    ensures visibility_of { ReadBack erased_visibility visibility_tokens visibility_of }
    ensures type_param_of { ReadBack erased_type_param type_param_tokens type_param_of }
{}
