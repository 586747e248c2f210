//! The printing of nodes: the tokens that each node of syntax stands for.
//!
//! A node's tokens are those of its form in the grammar. Marks, words and groups that the printing
//! makes have the span of their node; where the node keeps none, that of the nearest node around it
//! that keeps one, else [`Span::CallSite`](tok_types::Span::CallSite). Kept tokens stay as they are.
#![tactic(auto)]

mod attr;
mod bound;
mod data;
mod derive;
mod expr;
mod generics;
mod list;
mod lit;
mod path;
mod push;
mod to_tokens;
mod token;
mod ty;

pub use base_core::{Boxed, Items, Mem, Text, TryClone};
pub use node_core::{
    Attribute, Comma, ConstParam, Data, DataEnum, DataStruct, DataUnion, DeriveInput, Field,
    Fields, FieldsNamed, FieldsUnnamed, GenericParam, Generics, LifetimeParam, Meta, MetaList,
    MetaNameValue, Punctuated, TypeParam, Variant, Visibility, WhereClause, WherePredicate,
};
pub use node_expr::{
    BinOp, Expr, ExprArray, ExprClosure, ExprPath, ExprRange, FnArg, GenericArgument, Lit, LitBool,
    LitByte, LitByteStr, LitChar, LitFloat, LitInt, LitStr, Member, NamedArg, Path, PathArguments,
    PathSegment, QSelf, ReturnType, TraitBound, Type, TypeArray, TypeFnPtr, TypeGroup,
    TypeImplTrait, TypeInfer, TypeNever, TypeParamBound, TypeParen, TypePath, TypePtr,
    TypeReference, TypeSlice, TypeTraitObject, TypeTuple, UnOp,
};
pub use path::PathStyle;
pub use push::{push_comma, push_group};
pub use to_tokens::ToTokens;
pub use tok_types::{
    Delimiter, Group, Ident, Lifetime, Literal, Punct, Span, TokenStream, TokenTree,
};
