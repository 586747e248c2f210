//! What a host is asked about.

use machine_value::Value;
use node_core::{Attribute, Data, Fields, Generics, Meta};
use node_expr::Expr;
use tok_types::Ident;
use util_core::{MetaNameValueInvalidExpr, NestedMeta};

/// What a function that an option names is handed.
#[derive(Clone, Copy)]
pub enum Arg<'a> {
    Nothing,
    Meta(&'a Meta),
    Expr(&'a Expr),
    Value(&'a Value),
    Ident(&'a Ident),
    OptionalIdent(Option<&'a Ident>),
    Attrs(&'a [Attribute]),
    Body(&'a Data),
    Fields(&'a Fields),
    Generics(&'a Generics),
}

/// What a type of the host is read from.
#[derive(Clone, Copy)]
pub enum HostItem<'a> {
    Meta(&'a Meta),
    /// The items of a list.
    Items(&'a [NestedMeta]),
    /// `path = tokens`, where the tokens are no expression.
    Bad(&'a MetaNameValueInvalidExpr),
}
