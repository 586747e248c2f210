//! Parsers of syntax, as an engineer takes `syn` for: each is `Ok` exactly where all of the tokens are
//! in its grammar, and gives that grammar's tree; else it is one fault where they stand.
#![tactic(auto)]

mod fail;
mod front;
mod laws;
mod parse;

pub use base_core::{Boxed, Items, Mem, Text, TryClone};
pub use fail::{Parse, ParseFail};
pub use laws::tokens_have_one_tree;
pub use node_core::{
    Attribute, ConstParam, Data, DataEnum, DataStruct, DataUnion, DeriveInput, Field, Fields,
    FieldsNamed, FieldsUnnamed, GenericParam, Generics, LifetimeParam, Meta, MetaList,
    MetaNameValue, SynError, TypeParam, Variant, Visibility, WhereClause, WherePredicate,
};
pub use node_expr::{
    BinOp, Expr, ExprArray, ExprClosure, ExprPath, ExprRange, FnArg, GenericArgument, Lit, LitBool,
    LitByte, LitByteStr, LitChar, LitFloat, LitInt, LitStr, Member, NamedArg, Path, PathArguments,
    PathSegment, QSelf, ReturnType, TraitBound, Type, TypeArray, TypeFnPtr, TypeGroup,
    TypeImplTrait, TypeInfer, TypeNever, TypeParamBound, TypeParen, TypePath, TypePtr,
    TypeReference, TypeSlice, TypeTraitObject, TypeTuple, UnOp,
};
pub use node_span::Spanned;
pub use parse::{
    parse_derive_input, parse_expr, parse_expr_array, parse_expr_path, parse_expr_range,
    parse_exprs, parse_fn_args, parse_ident, parse_idents, parse_items, parse_path, parse_paths,
    parse_type, parse_type_param, parse_visibility, parse_where,
};
pub use syn_grammar::lit_of;
pub use syn_items::item_prefix;
pub use syn_types::MAX_DEPTH;
pub use tok_types::{
    Delimiter, Group, Ident, Lifetime, Literal, Punct, Span, TokenStream, TokenTree,
};
