//! What equality and hashing of nodes promise, and the texts of paths. These functions do nothing:
//! their clauses are the laws.
#![tactic(auto)]

ghost use Rattle.std.specs.Prelude.{◌≡◌, true, Bool, List, Option};
ghost use Rattle.std.specs.Cmp.{IsEquivalence};
ghost use Rattle.std.specs.Hash.{Alike};
ghost use Rattle.tok_types.specs.declared.ident.Ident.{Ident};
ghost use Rattle.tok_types.specs.declared.span.Span.{Span};
ghost use Rattle.node_make.specs.Make.{make_expr_path, make_path, make_segment, make_trait_bound, make_type_array, make_type_path};
ghost use Rattle.node_make.specs.PathText.{idents_of, path_text};
ghost use Rattle.node_expr.specs.declared.expr.ExprPath.{ExprPath, out-ExprPath};
ghost use Rattle.node_expr.specs.declared.generics.TraitBound.{TraitBound, out-TraitBound};
ghost use Rattle.node_expr.specs.declared.path.Path.{Path, out-Path};
ghost use Rattle.node_expr.specs.declared.path.PathSegment.{PathSegment, out-PathSegment};
ghost use Rattle.node_expr.specs.declared.ty.TypeArray.{TypeArray, out-TypeArray};
ghost use Rattle.node_expr.specs.declared.ty.TypePath.{TypePath, out-TypePath};
ghost use Rattle.node_expr.specs.declared.expr.BinOp.{BinOp};
ghost use Rattle.node_expr.specs.declared.expr.Expr.{Expr};
ghost use Rattle.node_expr.specs.declared.expr.Member.{Member};
ghost use Rattle.node_expr.specs.declared.expr.UnOp.{UnOp};
ghost use Rattle.node_expr.specs.declared.path.GenericArgument.{GenericArgument};
ghost use Rattle.node_core.specs.declared.attr.Attribute.{Attribute};
ghost use Rattle.node_core.specs.declared.attr.MetaList.{MetaList};
ghost use Rattle.node_core.specs.declared.attr.MetaNameValue.{MetaNameValue};
ghost use Rattle.node_core.specs.declared.data.DataEnum.{DataEnum};
ghost use Rattle.node_core.specs.declared.data.DataStruct.{DataStruct};
ghost use Rattle.node_core.specs.declared.data.DataUnion.{DataUnion};
ghost use Rattle.node_core.specs.declared.data.Field.{Field};
ghost use Rattle.node_core.specs.declared.data.FieldsNamed.{FieldsNamed};
ghost use Rattle.node_core.specs.declared.data.FieldsUnnamed.{FieldsUnnamed};
ghost use Rattle.node_core.specs.declared.data.Variant.{Variant};
ghost use Rattle.node_core.specs.declared.derive.DeriveInput.{DeriveInput};
ghost use Rattle.node_core.specs.declared.generics.ConstParam.{ConstParam};
ghost use Rattle.node_core.specs.declared.generics.Generics.{Generics};
ghost use Rattle.node_core.specs.declared.generics.LifetimeParam.{LifetimeParam};
ghost use Rattle.node_core.specs.declared.generics.TypeParam.{TypeParam};
ghost use Rattle.node_core.specs.declared.generics.WhereClause.{WhereClause};
ghost use Rattle.node_expr.specs.declared.lit.LitBool.{LitBool};
ghost use Rattle.node_expr.specs.declared.lit.LitByte.{LitByte};
ghost use Rattle.node_expr.specs.declared.lit.LitByteStr.{LitByteStr};
ghost use Rattle.node_expr.specs.declared.lit.LitChar.{LitChar};
ghost use Rattle.node_expr.specs.declared.lit.LitFloat.{LitFloat};
ghost use Rattle.node_expr.specs.declared.lit.LitInt.{LitInt};
ghost use Rattle.node_expr.specs.declared.lit.LitStr.{LitStr};
ghost use Rattle.node_expr.specs.declared.ty.FnArg.{FnArg};
ghost use Rattle.node_expr.specs.declared.ty.TypeInfer.{TypeInfer};
ghost use Rattle.node_expr.specs.declared.ty.TypeNever.{TypeNever};

use node_core::{
    Attribute, ConstParam, Data, DataEnum, DataStruct, DataUnion, DeriveInput, Field, Fields,
    FieldsNamed, FieldsUnnamed, GenericParam, Generics, LifetimeParam, Meta, MetaList,
    MetaNameValue, TypeParam, Variant, Visibility, WhereClause, WherePredicate,
};
use node_expr::{
    Expr, ExprPath, FnArg, GenericArgument, Lit, LitBool, LitByte, LitByteStr, LitChar, LitFloat,
    LitInt, LitStr, Member, Path, PathArguments, PathSegment, TraitBound, Type, TypeArray,
    TypeInfer, TypeNever, TypeParamBound, TypePath,
};
use std::hash::Hash;

/// Equality of expressions, types and paths is an equivalence.
pub fn equality_of_expressions_is_an_equivalence()
    ensures expr { IsEquivalence ⟦<Expr as PartialEq>⟧.eq }
    ensures expr_path { IsEquivalence ⟦<ExprPath as PartialEq>⟧.eq }
    ensures ty { IsEquivalence ⟦<Type as PartialEq>⟧.eq }
    ensures type_path { IsEquivalence ⟦<TypePath as PartialEq>⟧.eq }
    ensures type_array { IsEquivalence ⟦<TypeArray as PartialEq>⟧.eq }
    ensures path { IsEquivalence ⟦<Path as PartialEq>⟧.eq }
    ensures path_segment { IsEquivalence ⟦<PathSegment as PartialEq>⟧.eq }
    ensures path_arguments { IsEquivalence ⟦<PathArguments as PartialEq>⟧.eq }
    ensures generic_argument { IsEquivalence ⟦<GenericArgument as PartialEq>⟧.eq }
    ensures type_param_bound { IsEquivalence ⟦<TypeParamBound as PartialEq>⟧.eq }
    ensures trait_bound { IsEquivalence ⟦<TraitBound as PartialEq>⟧.eq }
{}

/// Equality of items and their parts is an equivalence.
pub fn equality_of_items_is_an_equivalence()
    ensures attribute { IsEquivalence ⟦<Attribute as PartialEq>⟧.eq }
    ensures meta { IsEquivalence ⟦<Meta as PartialEq>⟧.eq }
    ensures meta_list { IsEquivalence ⟦<MetaList as PartialEq>⟧.eq }
    ensures meta_name_value { IsEquivalence ⟦<MetaNameValue as PartialEq>⟧.eq }
    ensures visibility { IsEquivalence ⟦<Visibility as PartialEq>⟧.eq }
    ensures field { IsEquivalence ⟦<Field as PartialEq>⟧.eq }
    ensures fields { IsEquivalence ⟦<Fields as PartialEq>⟧.eq }
    ensures fields_named { IsEquivalence ⟦<FieldsNamed as PartialEq>⟧.eq }
    ensures fields_unnamed { IsEquivalence ⟦<FieldsUnnamed as PartialEq>⟧.eq }
    ensures variant { IsEquivalence ⟦<Variant as PartialEq>⟧.eq }
    ensures body { IsEquivalence ⟦<Data as PartialEq>⟧.eq }
    ensures data_struct { IsEquivalence ⟦<DataStruct as PartialEq>⟧.eq }
    ensures data_enum { IsEquivalence ⟦<DataEnum as PartialEq>⟧.eq }
    ensures data_union { IsEquivalence ⟦<DataUnion as PartialEq>⟧.eq }
    ensures derive_input { IsEquivalence ⟦<DeriveInput as PartialEq>⟧.eq }
    ensures generics { IsEquivalence ⟦<Generics as PartialEq>⟧.eq }
    ensures generic_param { IsEquivalence ⟦<GenericParam as PartialEq>⟧.eq }
    ensures lifetime_param { IsEquivalence ⟦<LifetimeParam as PartialEq>⟧.eq }
    ensures type_param { IsEquivalence ⟦<TypeParam as PartialEq>⟧.eq }
    ensures const_param { IsEquivalence ⟦<ConstParam as PartialEq>⟧.eq }
    ensures where_clause { IsEquivalence ⟦<WhereClause as PartialEq>⟧.eq }
    ensures where_predicate { IsEquivalence ⟦<WherePredicate as PartialEq>⟧.eq }
    ensures fn_arg { IsEquivalence ⟦<FnArg as PartialEq>⟧.eq }
{}

/// Equality of literals and of other nodes without parts is an equivalence.
pub fn equality_of_leaves_is_an_equivalence()
    ensures lit { IsEquivalence ⟦<Lit as PartialEq>⟧.eq }
    ensures lit_str { IsEquivalence ⟦<LitStr as PartialEq>⟧.eq }
    ensures lit_byte_str { IsEquivalence ⟦<LitByteStr as PartialEq>⟧.eq }
    ensures lit_byte { IsEquivalence ⟦<LitByte as PartialEq>⟧.eq }
    ensures lit_char { IsEquivalence ⟦<LitChar as PartialEq>⟧.eq }
    ensures lit_int { IsEquivalence ⟦<LitInt as PartialEq>⟧.eq }
    ensures lit_float { IsEquivalence ⟦<LitFloat as PartialEq>⟧.eq }
    ensures lit_bool { IsEquivalence ⟦<LitBool as PartialEq>⟧.eq }
    ensures member { IsEquivalence ⟦<Member as PartialEq>⟧.eq }
    ensures type_never { IsEquivalence ⟦<TypeNever as PartialEq>⟧.eq }
    ensures type_infer { IsEquivalence ⟦<TypeInfer as PartialEq>⟧.eq }
{}

/// Equal expressions, types and paths feed a hasher alike.
pub fn equal_expressions_hash_alike()
    ensures expr { Alike ⟦<Expr as PartialEq>⟧.eq ⟦<Expr as Hash>⟧.hash_input }
    ensures expr_path { Alike ⟦<ExprPath as PartialEq>⟧.eq ⟦<ExprPath as Hash>⟧.hash_input }
    ensures ty { Alike ⟦<Type as PartialEq>⟧.eq ⟦<Type as Hash>⟧.hash_input }
    ensures type_path { Alike ⟦<TypePath as PartialEq>⟧.eq ⟦<TypePath as Hash>⟧.hash_input }
    ensures type_array { Alike ⟦<TypeArray as PartialEq>⟧.eq ⟦<TypeArray as Hash>⟧.hash_input }
    ensures path { Alike ⟦<Path as PartialEq>⟧.eq ⟦<Path as Hash>⟧.hash_input }
    ensures path_segment { Alike ⟦<PathSegment as PartialEq>⟧.eq ⟦<PathSegment as Hash>⟧.hash_input }
    ensures path_arguments { Alike ⟦<PathArguments as PartialEq>⟧.eq ⟦<PathArguments as Hash>⟧.hash_input }
    ensures generic_argument { Alike ⟦<GenericArgument as PartialEq>⟧.eq ⟦<GenericArgument as Hash>⟧.hash_input }
    ensures type_param_bound { Alike ⟦<TypeParamBound as PartialEq>⟧.eq ⟦<TypeParamBound as Hash>⟧.hash_input }
    ensures trait_bound { Alike ⟦<TraitBound as PartialEq>⟧.eq ⟦<TraitBound as Hash>⟧.hash_input }
{}

/// Equal items and their parts feed a hasher alike.
pub fn equal_items_hash_alike()
    ensures attribute { Alike ⟦<Attribute as PartialEq>⟧.eq ⟦<Attribute as Hash>⟧.hash_input }
    ensures meta { Alike ⟦<Meta as PartialEq>⟧.eq ⟦<Meta as Hash>⟧.hash_input }
    ensures meta_list { Alike ⟦<MetaList as PartialEq>⟧.eq ⟦<MetaList as Hash>⟧.hash_input }
    ensures meta_name_value { Alike ⟦<MetaNameValue as PartialEq>⟧.eq ⟦<MetaNameValue as Hash>⟧.hash_input }
    ensures visibility { Alike ⟦<Visibility as PartialEq>⟧.eq ⟦<Visibility as Hash>⟧.hash_input }
    ensures field { Alike ⟦<Field as PartialEq>⟧.eq ⟦<Field as Hash>⟧.hash_input }
    ensures fields { Alike ⟦<Fields as PartialEq>⟧.eq ⟦<Fields as Hash>⟧.hash_input }
    ensures fields_named { Alike ⟦<FieldsNamed as PartialEq>⟧.eq ⟦<FieldsNamed as Hash>⟧.hash_input }
    ensures fields_unnamed { Alike ⟦<FieldsUnnamed as PartialEq>⟧.eq ⟦<FieldsUnnamed as Hash>⟧.hash_input }
    ensures variant { Alike ⟦<Variant as PartialEq>⟧.eq ⟦<Variant as Hash>⟧.hash_input }
    ensures body { Alike ⟦<Data as PartialEq>⟧.eq ⟦<Data as Hash>⟧.hash_input }
    ensures data_struct { Alike ⟦<DataStruct as PartialEq>⟧.eq ⟦<DataStruct as Hash>⟧.hash_input }
    ensures data_enum { Alike ⟦<DataEnum as PartialEq>⟧.eq ⟦<DataEnum as Hash>⟧.hash_input }
    ensures data_union { Alike ⟦<DataUnion as PartialEq>⟧.eq ⟦<DataUnion as Hash>⟧.hash_input }
    ensures derive_input { Alike ⟦<DeriveInput as PartialEq>⟧.eq ⟦<DeriveInput as Hash>⟧.hash_input }
    ensures generics { Alike ⟦<Generics as PartialEq>⟧.eq ⟦<Generics as Hash>⟧.hash_input }
    ensures generic_param { Alike ⟦<GenericParam as PartialEq>⟧.eq ⟦<GenericParam as Hash>⟧.hash_input }
    ensures lifetime_param { Alike ⟦<LifetimeParam as PartialEq>⟧.eq ⟦<LifetimeParam as Hash>⟧.hash_input }
    ensures type_param { Alike ⟦<TypeParam as PartialEq>⟧.eq ⟦<TypeParam as Hash>⟧.hash_input }
    ensures const_param { Alike ⟦<ConstParam as PartialEq>⟧.eq ⟦<ConstParam as Hash>⟧.hash_input }
    ensures where_clause { Alike ⟦<WhereClause as PartialEq>⟧.eq ⟦<WhereClause as Hash>⟧.hash_input }
    ensures where_predicate { Alike ⟦<WherePredicate as PartialEq>⟧.eq ⟦<WherePredicate as Hash>⟧.hash_input }
    ensures fn_arg { Alike ⟦<FnArg as PartialEq>⟧.eq ⟦<FnArg as Hash>⟧.hash_input }
{}

/// Equal literals and other nodes without parts feed a hasher alike.
pub fn equal_leaves_hash_alike()
    ensures lit { Alike ⟦<Lit as PartialEq>⟧.eq ⟦<Lit as Hash>⟧.hash_input }
    ensures lit_str { Alike ⟦<LitStr as PartialEq>⟧.eq ⟦<LitStr as Hash>⟧.hash_input }
    ensures lit_byte_str { Alike ⟦<LitByteStr as PartialEq>⟧.eq ⟦<LitByteStr as Hash>⟧.hash_input }
    ensures lit_byte { Alike ⟦<LitByte as PartialEq>⟧.eq ⟦<LitByte as Hash>⟧.hash_input }
    ensures lit_char { Alike ⟦<LitChar as PartialEq>⟧.eq ⟦<LitChar as Hash>⟧.hash_input }
    ensures lit_int { Alike ⟦<LitInt as PartialEq>⟧.eq ⟦<LitInt as Hash>⟧.hash_input }
    ensures lit_float { Alike ⟦<LitFloat as PartialEq>⟧.eq ⟦<LitFloat as Hash>⟧.hash_input }
    ensures lit_bool { Alike ⟦<LitBool as PartialEq>⟧.eq ⟦<LitBool as Hash>⟧.hash_input }
    ensures member { Alike ⟦<Member as PartialEq>⟧.eq ⟦<Member as Hash>⟧.hash_input }
    ensures type_never { Alike ⟦<TypeNever as PartialEq>⟧.eq ⟦<TypeNever as Hash>⟧.hash_input }
    ensures type_infer { Alike ⟦<TypeInfer as PartialEq>⟧.eq ⟦<TypeInfer as Hash>⟧.hash_input }
{}

/// A node is equal to what it becomes where its span is replaced.
pub fn equality_ignores_the_span()
    ensures attribute { (a : Attribute) (span : Span) → ⟦<Attribute as PartialEq>⟧.eq a (record a { span = span }) ≡ true }
    ensures meta_list { (a : MetaList) (span : Span) → ⟦<MetaList as PartialEq>⟧.eq a (record a { span = span }) ≡ true }
    ensures meta_name_value { (a : MetaNameValue) (span : Span) → ⟦<MetaNameValue as PartialEq>⟧.eq a (record a { span = span }) ≡ true }
    ensures field { (a : Field) (span : Span) → ⟦<Field as PartialEq>⟧.eq a (record a { span = span }) ≡ true }
    ensures fields_named { (a : FieldsNamed) (span : Span) → ⟦<FieldsNamed as PartialEq>⟧.eq a (record a { span = span }) ≡ true }
    ensures fields_unnamed { (a : FieldsUnnamed) (span : Span) → ⟦<FieldsUnnamed as PartialEq>⟧.eq a (record a { span = span }) ≡ true }
    ensures variant { (a : Variant) (span : Span) → ⟦<Variant as PartialEq>⟧.eq a (record a { span = span }) ≡ true }
    ensures data_struct { (a : DataStruct) (span : Span) → ⟦<DataStruct as PartialEq>⟧.eq a (record a { span = span }) ≡ true }
    ensures data_enum { (a : DataEnum) (span : Span) → ⟦<DataEnum as PartialEq>⟧.eq a (record a { span = span }) ≡ true }
    ensures data_union { (a : DataUnion) (span : Span) → ⟦<DataUnion as PartialEq>⟧.eq a (record a { span = span }) ≡ true }
    ensures generics { (a : Generics) (span : Span) → ⟦<Generics as PartialEq>⟧.eq a (record a { span = span }) ≡ true }
    ensures lifetime_param { (a : LifetimeParam) (span : Span) → ⟦<LifetimeParam as PartialEq>⟧.eq a (record a { span = span }) ≡ true }
    ensures type_param { (a : TypeParam) (span : Span) → ⟦<TypeParam as PartialEq>⟧.eq a (record a { span = span }) ≡ true }
    ensures const_param { (a : ConstParam) (span : Span) → ⟦<ConstParam as PartialEq>⟧.eq a (record a { span = span }) ≡ true }
    ensures where_clause { (a : WhereClause) (span : Span) → ⟦<WhereClause as PartialEq>⟧.eq a (record a { span = span }) ≡ true }
    ensures fn_arg { (a : FnArg) (span : Span) → ⟦<FnArg as PartialEq>⟧.eq a (record a { span = span }) ≡ true }
    ensures lit_str { (a : LitStr) (span : Span) → ⟦<LitStr as PartialEq>⟧.eq a (record a { span = span }) ≡ true }
    ensures lit_byte_str { (a : LitByteStr) (span : Span) → ⟦<LitByteStr as PartialEq>⟧.eq a (record a { span = span }) ≡ true }
    ensures lit_byte { (a : LitByte) (span : Span) → ⟦<LitByte as PartialEq>⟧.eq a (record a { span = span }) ≡ true }
    ensures lit_char { (a : LitChar) (span : Span) → ⟦<LitChar as PartialEq>⟧.eq a (record a { span = span }) ≡ true }
    ensures lit_int { (a : LitInt) (span : Span) → ⟦<LitInt as PartialEq>⟧.eq a (record a { span = span }) ≡ true }
    ensures lit_float { (a : LitFloat) (span : Span) → ⟦<LitFloat as PartialEq>⟧.eq a (record a { span = span }) ≡ true }
    ensures lit_bool { (a : LitBool) (span : Span) → ⟦<LitBool as PartialEq>⟧.eq a (record a { span = span }) ≡ true }
    ensures type_never { (a : TypeNever) (span : Span) → ⟦<TypeNever as PartialEq>⟧.eq a (record a { span = span }) ≡ true }
    ensures type_infer { (a : TypeInfer) (span : Span) → ⟦<TypeInfer as PartialEq>⟧.eq a (record a { span = span }) ≡ true }
{}

/// A path, a segment, a bound, or an array type is equal to what it becomes where its span is
/// replaced.
pub fn equality_of_paths_ignores_the_span()
    ensures expr_path { (a : ExprPath) (span : Span) → ⟦<ExprPath as PartialEq>⟧.eq a (make_expr_path (out-ExprPath a).qself (out-ExprPath a).path span) ≡ true }
    ensures type_path { (a : TypePath) (span : Span) → ⟦<TypePath as PartialEq>⟧.eq a (make_type_path (out-TypePath a).qself (out-TypePath a).path span) ≡ true }
    ensures type_array { (a : TypeArray) (span : Span) → ⟦<TypeArray as PartialEq>⟧.eq a (make_type_array (out-TypeArray a).elem (out-TypeArray a).len span) ≡ true }
    ensures path { (a : Path) (span : Span) → ⟦<Path as PartialEq>⟧.eq a (make_path (out-Path a).leading_colon (out-Path a).segments span) ≡ true }
    ensures path_segment { (a : PathSegment) (span : Span) → ⟦<PathSegment as PartialEq>⟧.eq a (make_segment (out-PathSegment a).ident (out-PathSegment a).arguments span) ≡ true }
    ensures trait_bound { (a : TraitBound) (span : Span) → ⟦<TraitBound as PartialEq>⟧.eq a (make_trait_bound (out-TraitBound a).maybe (out-TraitBound a).lifetimes (out-TraitBound a).path span) ≡ true }
{}

/// An expression is equal to what it becomes where its span is replaced.
pub fn equality_of_expressions_ignores_the_span()
    ensures repeat { (expr : Expr) (len : Expr) (span other : Span) → ⟦<Expr as PartialEq>⟧.eq (Expr.Repeat expr len span) (Expr.Repeat expr len other) ≡ true }
    ensures tuple { (elems : List Expr) (span other : Span) → ⟦<Expr as PartialEq>⟧.eq (Expr.Tuple elems span) (Expr.Tuple elems other) ≡ true }
    ensures paren { (expr : Expr) (span other : Span) → ⟦<Expr as PartialEq>⟧.eq (Expr.Paren expr span) (Expr.Paren expr other) ≡ true }
    ensures group { (expr : Expr) (span other : Span) → ⟦<Expr as PartialEq>⟧.eq (Expr.Group expr span) (Expr.Group expr other) ≡ true }
    ensures unary { (op : UnOp) (expr : Expr) (span other : Span) → ⟦<Expr as PartialEq>⟧.eq (Expr.Unary op expr span) (Expr.Unary op expr other) ≡ true }
    ensures reference { (mutable : Bool) (expr : Expr) (span other : Span) → ⟦<Expr as PartialEq>⟧.eq (Expr.Reference mutable expr span) (Expr.Reference mutable expr other) ≡ true }
    ensures binary { (left : Expr) (op : BinOp) (right : Expr) (span other : Span) → ⟦<Expr as PartialEq>⟧.eq (Expr.Binary left op right span) (Expr.Binary left op right other) ≡ true }
    ensures call { (func : Expr) (args : List Expr) (span other : Span) → ⟦<Expr as PartialEq>⟧.eq (Expr.Call func args span) (Expr.Call func args other) ≡ true }
    ensures method_call { (receiver : Expr) (method : Ident) (turbofish : List GenericArgument) (args : List Expr) (span other : Span) → ⟦<Expr as PartialEq>⟧.eq (Expr.MethodCall receiver method turbofish args span) (Expr.MethodCall receiver method turbofish args other) ≡ true }
    ensures member { (base : Expr) (member : Member) (span other : Span) → ⟦<Expr as PartialEq>⟧.eq (Expr.Field base member span) (Expr.Field base member other) ≡ true }
    ensures index { (expr : Expr) (index : Expr) (span other : Span) → ⟦<Expr as PartialEq>⟧.eq (Expr.Index expr index span) (Expr.Index expr index other) ≡ true }
    ensures question { (expr : Expr) (span other : Span) → ⟦<Expr as PartialEq>⟧.eq (Expr.Try expr span) (Expr.Try expr other) ≡ true }
    ensures block { (stmts : List Expr) (last : Option Expr) (span other : Span) → ⟦<Expr as PartialEq>⟧.eq (Expr.Block stmts last span) (Expr.Block stmts last other) ≡ true }
    ensures infer { (span other : Span) → ⟦<Expr as PartialEq>⟧.eq (Expr.Infer span) (Expr.Infer other) ≡ true }
{}

/// Paths whose segments have the same identifiers have one text, whatever else differs.
pub fn the_text_of_a_path_is_of_its_identifiers()
    ensures { (a b : Path) → idents_of a ≡ idents_of b → path_text a ≡ path_text b }
{}
