//! What reading promises of the places of items and their parts. These functions do nothing: their
//! clauses are the laws.

ghost use Rattle.law_places.specs.Stands.{Stands, StandsOrNowhere};
ghost use Rattle.law_places_items.specs.Rows.{HoldsList, RowStands, variants_in};
ghost use Rattle.node_core.specs.declared.attr.Attribute.{Attribute};
ghost use Rattle.node_core.specs.declared.data.Field.{Field};
ghost use Rattle.node_core.specs.declared.data.FieldsNamed.{FieldsNamed};
ghost use Rattle.node_core.specs.declared.data.FieldsUnnamed.{FieldsUnnamed};
ghost use Rattle.node_core.specs.declared.data.Variant.{Variant};
ghost use Rattle.node_core.specs.declared.data.Visibility.{Visibility};
ghost use Rattle.node_core.specs.declared.data.«Data».{«Data»};
ghost use Rattle.node_core.specs.declared.derive.DeriveInput.{DeriveInput};
ghost use Rattle.node_core.specs.declared.generics.GenericParam.{GenericParam};
ghost use Rattle.node_core.specs.declared.generics.TypeParam.{TypeParam};
ghost use Rattle.node_core.specs.declared.generics.WhereClause.{WhereClause};
ghost use Rattle.node_span.specs.Spanned.{body_span, expr_span, fields_span, list_span, lit_span, meta_span, param_span, path_span, predicate_span, stream_span, tree_span, visibility_span};
ghost use Rattle.std.specs.Prelude.{◌≡◌, List, Option, Some};
ghost use Rattle.syn_items.specs.Attributes.{attribute, meta, meta_path, signed, value_of};
ghost use Rattle.syn_items.specs.Fields.{fields, fields_named, fields_unnamed, named_field, unnamed_field, variant};
ghost use Rattle.syn_items.specs.Generics.{const_value, generic_param, one_type_param, params, where_clause, where_predicate};
ghost use Rattle.syn_items.specs.Items.{data_by, enum_body, item, tuple_struct};
ghost use Rattle.syn_items.specs.Trees.{derive_input_of, items_of, type_param_of, visibility_of, where_of};
ghost use Rattle.syn_items.specs.Visibility.{scope, visibility};
ghost use Rattle.syn_items.specs.declared.look.ItemStart.{ItemStart};
ghost use Rattle.tok_types.specs.declared.span.Span.{Span};
ghost use Rattle.tok_types.specs.declared.tree.TokenStream.{TokenStream, out-TokenStream};
ghost use Rattle.tok_types.specs.declared.tree.TokenTree.{TokenTree};

/// An attribute, the meta item in it and the path of that stand where the tokens stand that they were read from, one at
/// least: from the start of the first to the end of the last. So does a number with a minus. The value behind `=` stands where its
/// tokens do, whether these are a number with a sign, an expression or neither.
pub fn attributes_stand_where_they_are_read()
    ensures path { Stands path_span meta_path }
    ensures attribute { Stands (λ (it : Attribute). it.span) attribute }
    ensures meta { Stands meta_span meta }
    ensures number { Stands lit_span signed }
    ensures value { (trees : List TokenTree) → expr_span (value_of trees) ≡ list_span tree_span trees }
{}

/// An item stands where the tokens stand that it was read from, one at least, with its attributes and
/// its visibility. So do its body, fields, variants, parameters and predicates, each with its
/// attributes, and the parameters in angles together. A visibility, the fields of a variant and the
/// parameters may be left out: they stand nowhere then.
pub fn items_stand_where_they_are_read()
    ensures item { Stands (λ (it : DeriveInput). it.span) item }
    ensures body { (begins : ItemStart) → Stands body_span (data_by begins) }
    ensures tuple_body { Stands (λ (it : Option WhereClause × «Data»). body_span it.1) tuple_struct }
    ensures named_field { Stands (λ (it : Field). it.span) named_field }
    ensures unnamed_field { Stands (λ (it : Field). it.span) unnamed_field }
    ensures fields_named { Stands (λ (it : FieldsNamed). it.span) fields_named }
    ensures fields_unnamed { Stands (λ (it : FieldsUnnamed). it.span) fields_unnamed }
    ensures fields { StandsOrNowhere fields_span fields }
    ensures variant { Stands (λ (it : Variant). it.span) variant }
    ensures visibility { StandsOrNowhere visibility_span visibility }
    ensures scope { Stands path_span scope }
    ensures params { StandsOrNowhere (λ (it : List GenericParam × Span). it.1) params }
    ensures param { Stands param_span generic_param }
    ensures const_default { Stands expr_span const_value }
    ensures type_param { Stands (λ (it : TypeParam). it.span) one_type_param }
    ensures predicate { Stands predicate_span where_predicate }
    ensures clause { Stands (λ (it : WhereClause). it.span) where_clause }
{}

/// What all of the tokens are stands where the tokens do.
pub fn items_stand_where_their_tokens_do()
    ensures derive_input_of { (tokens : TokenStream) (found : DeriveInput) → derive_input_of tokens ≡ Some found → found.span ≡ stream_span tokens }
    ensures where_of { (tokens : TokenStream) (found : WhereClause) → where_of tokens ≡ Some found → found.span ≡ stream_span tokens }
    ensures type_param_of { (tokens : TokenStream) (found : TypeParam) → type_param_of tokens ≡ Some found → found.span ≡ stream_span tokens }
    ensures visibility_of { (tokens : TokenStream) (found : Visibility) → visibility_of tokens ≡ Some found → visibility_span found ≡ stream_span tokens }
{}

/// Items in a row stand where their tokens do, which are all of the tokens. The fields of a struct or
/// a variant and the variants of an enum stand where their own tokens in the group do, and these with
/// the commas between them are all that stands in it.
pub fn lists_of_items_stand_where_their_tokens_do()
    ensures items_of { (tokens : TokenStream) (found : List DeriveInput) → items_of tokens ≡ Some found → RowStands (λ it. it.span) (out-TokenStream tokens).trees found }
    ensures named { HoldsList (λ (it : FieldsNamed). it.named) (λ (it : Field). it.span) fields_named }
    ensures unnamed { HoldsList (λ (it : FieldsUnnamed). it.unnamed) (λ (it : Field). it.span) fields_unnamed }
    ensures variants { HoldsList variants_in (λ (it : Variant). it.span) enum_body }
{}
