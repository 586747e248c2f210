//! What `==` promises of unlike tokens and nodes: two are equal exactly where they are the same without their
//! places. These functions do nothing: their clauses are the laws.
#![tactic(auto)]

ghost use Rattle.law_equality.specs.Erased.{erased_bool, erased_byte, erased_byte_str, erased_char, erased_closure, erased_float, erased_fn_ptr, erased_group, erased_impl_trait, erased_infer, erased_never, erased_paren, erased_ptr, erased_punct, erased_reference, erased_slice, erased_str, erased_trait_object, erased_tuple, erased_type_group};
ghost use Rattle.law_equality.specs.IsEqualErased.{IsEqualErased};
ghost use Rattle.std.specs.Hash.{Alike};
ghost use Rattle.law_spans.specs.Erased.{erased_argument, erased_arguments, erased_array, erased_bound, erased_expr, erased_expr_path, erased_fn_arg, erased_ident, erased_int, erased_lifetime, erased_lit, erased_literal, erased_member, erased_named_arg, erased_output, erased_path, erased_qself, erased_segment, erased_stream, erased_trait_bound, erased_tree, erased_type, erased_type_path};
ghost use Rattle.law_spans.specs.Kinds.{erased_expr_array, erased_expr_range};

use node_expr::{
    Expr, ExprArray, ExprClosure, ExprPath, ExprRange, FnArg, GenericArgument, Lit, LitBool,
    LitByte, LitByteStr, LitChar, LitFloat, LitInt, LitStr, Member, NamedArg, Path, PathArguments,
    PathSegment, QSelf, ReturnType, TraitBound, Type, TypeArray, TypeFnPtr, TypeGroup,
    TypeImplTrait, TypeInfer, TypeNever, TypeParamBound, TypeParen, TypePath, TypePtr,
    TypeReference, TypeSlice, TypeTraitObject, TypeTuple,
};
use std::hash::Hash;
use tok_types::{Group, Ident, Lifetime, Literal, Punct, TokenStream, TokenTree};

/// Two tokens, or streams of them, are equal exactly where they are the same without their places.
pub fn equal_tokens_differ_in_spans_alone()
    ensures ident { IsEqualErased ⟦<Ident as PartialEq>⟧.eq erased_ident }
    ensures lifetime { IsEqualErased ⟦<Lifetime as PartialEq>⟧.eq erased_lifetime }
    ensures punct { IsEqualErased ⟦<Punct as PartialEq>⟧.eq erased_punct }
    ensures literal { IsEqualErased ⟦<Literal as PartialEq>⟧.eq erased_literal }
    ensures group { IsEqualErased ⟦<Group as PartialEq>⟧.eq erased_group }
    ensures tree { IsEqualErased ⟦<TokenTree as PartialEq>⟧.eq erased_tree }
    ensures stream { IsEqualErased ⟦<TokenStream as PartialEq>⟧.eq erased_stream }
{}

/// Two literals or other nodes without parts are equal exactly where they are the same without their places.
pub fn equal_leaves_differ_in_spans_alone()
    ensures lit { IsEqualErased ⟦<Lit as PartialEq>⟧.eq erased_lit }
    ensures lit_str { IsEqualErased ⟦<LitStr as PartialEq>⟧.eq erased_str }
    ensures lit_byte_str { IsEqualErased ⟦<LitByteStr as PartialEq>⟧.eq erased_byte_str }
    ensures lit_byte { IsEqualErased ⟦<LitByte as PartialEq>⟧.eq erased_byte }
    ensures lit_char { IsEqualErased ⟦<LitChar as PartialEq>⟧.eq erased_char }
    ensures lit_int { IsEqualErased ⟦<LitInt as PartialEq>⟧.eq erased_int }
    ensures lit_float { IsEqualErased ⟦<LitFloat as PartialEq>⟧.eq erased_float }
    ensures lit_bool { IsEqualErased ⟦<LitBool as PartialEq>⟧.eq erased_bool }
    ensures member { IsEqualErased ⟦<Member as PartialEq>⟧.eq erased_member }
    ensures type_never { IsEqualErased ⟦<TypeNever as PartialEq>⟧.eq erased_never }
    ensures type_infer { IsEqualErased ⟦<TypeInfer as PartialEq>⟧.eq erased_infer }
{}

/// Two expressions, types or paths are equal exactly where they are the same without their places.
pub fn equal_expressions_differ_in_spans_alone()
    ensures expr { IsEqualErased ⟦<Expr as PartialEq>⟧.eq erased_expr }
    ensures expr_path { IsEqualErased ⟦<ExprPath as PartialEq>⟧.eq erased_expr_path }
    ensures ty { IsEqualErased ⟦<Type as PartialEq>⟧.eq erased_type }
    ensures type_path { IsEqualErased ⟦<TypePath as PartialEq>⟧.eq erased_type_path }
    ensures type_array { IsEqualErased ⟦<TypeArray as PartialEq>⟧.eq erased_array }
    ensures path { IsEqualErased ⟦<Path as PartialEq>⟧.eq erased_path }
    ensures path_segment { IsEqualErased ⟦<PathSegment as PartialEq>⟧.eq erased_segment }
    ensures path_arguments { IsEqualErased ⟦<PathArguments as PartialEq>⟧.eq erased_arguments }
    ensures generic_argument { IsEqualErased ⟦<GenericArgument as PartialEq>⟧.eq erased_argument }
    ensures type_param_bound { IsEqualErased ⟦<TypeParamBound as PartialEq>⟧.eq erased_bound }
    ensures trait_bound { IsEqualErased ⟦<TraitBound as PartialEq>⟧.eq erased_trait_bound }
{}

/// Two nodes that one variant of an expression or a type holds are equal exactly where they are the same
/// without their places.
pub fn equal_parts_differ_in_spans_alone()
    ensures expr_array { IsEqualErased ⟦<ExprArray as PartialEq>⟧.eq erased_expr_array }
    ensures expr_range { IsEqualErased ⟦<ExprRange as PartialEq>⟧.eq erased_expr_range }
    ensures expr_closure { IsEqualErased ⟦<ExprClosure as PartialEq>⟧.eq erased_closure }
    ensures qself { IsEqualErased ⟦<QSelf as PartialEq>⟧.eq erased_qself }
    ensures type_reference { IsEqualErased ⟦<TypeReference as PartialEq>⟧.eq erased_reference }
    ensures type_ptr { IsEqualErased ⟦<TypePtr as PartialEq>⟧.eq erased_ptr }
    ensures type_slice { IsEqualErased ⟦<TypeSlice as PartialEq>⟧.eq erased_slice }
    ensures type_tuple { IsEqualErased ⟦<TypeTuple as PartialEq>⟧.eq erased_tuple }
    ensures type_paren { IsEqualErased ⟦<TypeParen as PartialEq>⟧.eq erased_paren }
    ensures type_group { IsEqualErased ⟦<TypeGroup as PartialEq>⟧.eq erased_type_group }
    ensures type_fn_ptr { IsEqualErased ⟦<TypeFnPtr as PartialEq>⟧.eq erased_fn_ptr }
    ensures type_trait_object { IsEqualErased ⟦<TypeTraitObject as PartialEq>⟧.eq erased_trait_object }
    ensures type_impl_trait { IsEqualErased ⟦<TypeImplTrait as PartialEq>⟧.eq erased_impl_trait }
    ensures named_arg { IsEqualErased ⟦<NamedArg as PartialEq>⟧.eq erased_named_arg }
    ensures return_type { IsEqualErased ⟦<ReturnType as PartialEq>⟧.eq erased_output }
    ensures fn_arg { IsEqualErased ⟦<FnArg as PartialEq>⟧.eq erased_fn_arg }
{}

/// Equal nodes that one variant of an expression or a type holds feed a hasher alike.
pub fn equal_parts_hash_alike()
    ensures expr_array { Alike ⟦<ExprArray as PartialEq>⟧.eq ⟦<ExprArray as Hash>⟧.hash_input }
    ensures expr_range { Alike ⟦<ExprRange as PartialEq>⟧.eq ⟦<ExprRange as Hash>⟧.hash_input }
    ensures expr_closure { Alike ⟦<ExprClosure as PartialEq>⟧.eq ⟦<ExprClosure as Hash>⟧.hash_input }
    ensures qself { Alike ⟦<QSelf as PartialEq>⟧.eq ⟦<QSelf as Hash>⟧.hash_input }
    ensures type_reference { Alike ⟦<TypeReference as PartialEq>⟧.eq ⟦<TypeReference as Hash>⟧.hash_input }
    ensures type_ptr { Alike ⟦<TypePtr as PartialEq>⟧.eq ⟦<TypePtr as Hash>⟧.hash_input }
    ensures type_slice { Alike ⟦<TypeSlice as PartialEq>⟧.eq ⟦<TypeSlice as Hash>⟧.hash_input }
    ensures type_tuple { Alike ⟦<TypeTuple as PartialEq>⟧.eq ⟦<TypeTuple as Hash>⟧.hash_input }
    ensures type_paren { Alike ⟦<TypeParen as PartialEq>⟧.eq ⟦<TypeParen as Hash>⟧.hash_input }
    ensures type_group { Alike ⟦<TypeGroup as PartialEq>⟧.eq ⟦<TypeGroup as Hash>⟧.hash_input }
    ensures type_fn_ptr { Alike ⟦<TypeFnPtr as PartialEq>⟧.eq ⟦<TypeFnPtr as Hash>⟧.hash_input }
    ensures type_trait_object { Alike ⟦<TypeTraitObject as PartialEq>⟧.eq ⟦<TypeTraitObject as Hash>⟧.hash_input }
    ensures type_impl_trait { Alike ⟦<TypeImplTrait as PartialEq>⟧.eq ⟦<TypeImplTrait as Hash>⟧.hash_input }
    ensures named_arg { Alike ⟦<NamedArg as PartialEq>⟧.eq ⟦<NamedArg as Hash>⟧.hash_input }
    ensures return_type { Alike ⟦<ReturnType as PartialEq>⟧.eq ⟦<ReturnType as Hash>⟧.hash_input }
{}
