//! Attributes, as `darling_core::ast` and `darling_core::FromMeta`.
//!
//! [`NestedMeta`] is an item of the list in an attribute. [`FromMeta`] reads a type from one; a type of one's own writes
//! its [`cell`](FromMeta::cell)s, and many types of std and of syntax are read so here.
#![tactic(auto)]

mod by_type;
mod from_meta;
mod from_meta_tag;
mod path_list;
mod rows;

pub use base_core::{Boxed, Items, Mem, Text, TryClone};
pub use by_type::ByType;
pub use error_core::{Error, Fail, Result};
pub use from_meta::FromMeta;
pub use from_meta_tag::{FromMetaTag, FromMetaTagAll};
pub use meta_nested::{
    Call, MetaNameValueInvalidExpr, NestedMeta, items_of, spanned, without_groups,
};
pub use meta_reads::{
    KeyFromPath, KeySet, MapKey, Reader, SortedKey, box_cell, entries_cell, option_cell,
    read_non_zero_signed, read_non_zero_unsigned, read_signed, read_unsigned, result_cell,
    result_meta_cell, tokens_of_text,
};
pub use node_core::{
    Comma, Meta, MetaList, MetaNameValue, Punctuated, SynError, TypeParam, Visibility, WhereClause,
    WherePredicate,
};
pub use node_expr::{
    Expr, ExprArray, ExprPath, ExprRange, FnArg, Lit, LitBool, LitByte, LitByteStr, LitChar,
    LitFloat, LitInt, LitStr, Path, Type, TypeArray, TypeFnPtr, TypeGroup, TypeImplTrait,
    TypeInfer, TypeNever, TypeParen, TypePath, TypePtr, TypeReference, TypeSlice, TypeTraitObject,
    TypeTuple,
};
pub use node_make::path_to_string;
pub use node_span::Spanned;
pub use path_list::{Intersection, PathList};
pub use syn_core::{Parse, ParseFail, parse_expr, parse_items, parse_path};
pub use syn_items::item_prefix;
pub use tok_types::{Ident, Span, TokenStream};
