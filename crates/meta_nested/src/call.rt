//! What a type is asked to read.

use crate::{MetaNameValueInvalidExpr, NestedMeta};
use node_core::Meta;
use node_expr::{Expr, Lit};
use tok_types::Span;

/// What a type is asked to read: a variant for each call of `FromMeta`.
#[derive(Clone, Copy)]
pub enum Call<'a> {
    /// `from_word`: `path` alone.
    Word,
    /// `from_list`: the items of `path(..)`.
    List(&'a [NestedMeta]),
    /// `from_string`: a text, and the span of the tokens that are read in it.
    String(&'a str, Span),
    /// `from_char`
    Char(char),
    /// `from_bool`
    Bool(bool),
    /// `from_value`: a literal.
    Value(&'a Lit),
    /// `from_expr`: the value of `path = value`.
    Expr(&'a Expr),
    /// `from_invalid_expr`: `path = tokens`, where the tokens are no expression.
    InvalidExpr(&'a MetaNameValueInvalidExpr),
    /// `from_meta`
    Meta(&'a Meta),
    /// `from_nested_meta`
    NestedMeta(&'a NestedMeta),
    /// `from_none`: no item at all.
    Absent,
}
