//! What `==` promises of unlike items: two are equal exactly where they are the same without their places. This
//! function does nothing: its clauses are the laws.
#![tactic(auto)]

ghost use Rattle.law_equality.specs.IsEqualErased.{IsEqualErased};
ghost use Rattle.law_equality_items.specs.Erased.{erased_data_enum, erased_data_struct, erased_data_union};
ghost use Rattle.law_spans_items.specs.Erased.{erased_attribute, erased_const_param, erased_data, erased_derive_input, erased_field, erased_fields, erased_fields_named, erased_fields_unnamed, erased_generic_param, erased_generics, erased_lifetime_param, erased_meta, erased_meta_list, erased_name_value, erased_predicate, erased_type_param, erased_variant, erased_visibility, erased_where};

use node_core::{
    Attribute, ConstParam, Data, DataEnum, DataStruct, DataUnion, DeriveInput, Field, Fields,
    FieldsNamed, FieldsUnnamed, GenericParam, Generics, LifetimeParam, Meta, MetaList,
    MetaNameValue, TypeParam, Variant, Visibility, WhereClause, WherePredicate,
};

/// Two items, or parts of them, are equal exactly where they are the same without their places.
pub fn equal_items_differ_in_spans_alone()
    ensures attribute { IsEqualErased ⟦<Attribute as PartialEq>⟧.eq erased_attribute }
    ensures meta { IsEqualErased ⟦<Meta as PartialEq>⟧.eq erased_meta }
    ensures meta_list { IsEqualErased ⟦<MetaList as PartialEq>⟧.eq erased_meta_list }
    ensures meta_name_value { IsEqualErased ⟦<MetaNameValue as PartialEq>⟧.eq erased_name_value }
    ensures visibility { IsEqualErased ⟦<Visibility as PartialEq>⟧.eq erased_visibility }
    ensures field { IsEqualErased ⟦<Field as PartialEq>⟧.eq erased_field }
    ensures fields { IsEqualErased ⟦<Fields as PartialEq>⟧.eq erased_fields }
    ensures fields_named { IsEqualErased ⟦<FieldsNamed as PartialEq>⟧.eq erased_fields_named }
    ensures fields_unnamed { IsEqualErased ⟦<FieldsUnnamed as PartialEq>⟧.eq erased_fields_unnamed }
    ensures variant { IsEqualErased ⟦<Variant as PartialEq>⟧.eq erased_variant }
    ensures body { IsEqualErased ⟦<Data as PartialEq>⟧.eq erased_data }
    ensures data_struct { IsEqualErased ⟦<DataStruct as PartialEq>⟧.eq erased_data_struct }
    ensures data_enum { IsEqualErased ⟦<DataEnum as PartialEq>⟧.eq erased_data_enum }
    ensures data_union { IsEqualErased ⟦<DataUnion as PartialEq>⟧.eq erased_data_union }
    ensures derive_input { IsEqualErased ⟦<DeriveInput as PartialEq>⟧.eq erased_derive_input }
    ensures generics { IsEqualErased ⟦<Generics as PartialEq>⟧.eq erased_generics }
    ensures generic_param { IsEqualErased ⟦<GenericParam as PartialEq>⟧.eq erased_generic_param }
    ensures lifetime_param { IsEqualErased ⟦<LifetimeParam as PartialEq>⟧.eq erased_lifetime_param }
    ensures type_param { IsEqualErased ⟦<TypeParam as PartialEq>⟧.eq erased_type_param }
    ensures const_param { IsEqualErased ⟦<ConstParam as PartialEq>⟧.eq erased_const_param }
    ensures where_clause { IsEqualErased ⟦<WhereClause as PartialEq>⟧.eq erased_where }
    ensures where_predicate { IsEqualErased ⟦<WherePredicate as PartialEq>⟧.eq erased_predicate }
{}
