//! The nodes of syntax: `syn`'s types, as plain data. Attributes, fields, variants, generics and
//! whole items stand here; the expressions, types and paths in them are those of [`node_expr`].
//!
//! Each node that is a struct, and each variant with named parts, keeps the span of its tokens.
//! Equality and hashing ignore spans.
#![tactic(auto)]

mod attr;
mod bodies;
mod clone;
mod data;
mod derive;
mod error;
mod generics;
mod laws;
mod punctuated;
mod style;

pub use attr::{Attribute, Meta, MetaList, MetaNameValue};
pub use base_core::{Boxed, Items, Mem, Text, TryClone};
pub use data::{
    Data, DataEnum, DataStruct, DataUnion, Field, Fields, FieldsNamed, FieldsUnnamed, Variant,
    Visibility,
};
pub use derive::DeriveInput;
pub use error::SynError;
pub use generics::{
    ConstParam, GenericParam, Generics, LifetimeParam, TypeParam, WhereClause, WherePredicate,
};
pub use laws::equality_of_items_ignores_their_span;
pub use node_expr::{
    BinOp, Expr, ExprArray, ExprClosure, ExprPath, ExprRange, FnArg, GenericArgument, Lit, LitBool,
    LitByte, LitByteStr, LitChar, LitFloat, LitInt, LitStr, Member, NamedArg, Path, PathArguments,
    PathSegment, QSelf, ReturnType, TraitBound, Type, TypeArray, TypeFnPtr, TypeGroup,
    TypeImplTrait, TypeInfer, TypeNever, TypeParamBound, TypeParen, TypePath, TypePtr,
    TypeReference, TypeSlice, TypeTraitObject, TypeTuple, UnOp,
};
pub use node_make::{make, path_to_string, push_full_path};
pub use punctuated::{Comma, Punctuated};
pub use style::Style;
pub use tok_types::{
    Delimiter, Group, Ident, Lifetime, Literal, Punct, Span, TokenStream, TokenTree,
};
