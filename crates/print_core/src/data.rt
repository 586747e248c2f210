//! The tokens of visibilities, fields, variants and bodies.

ghost use Rattle.std.specs.Prelude.{◌≡◌, ◌++◌, None, OnOk};
ghost use Rattle.print_core.specs.Items.{body_with, enum_tokens, field_tokens, fields_tokens, named_tokens, struct_with, unnamed_tokens, variant_tokens, visibility_tokens};
ghost use Rattle.print_core.specs.Fronts.{IsFront};

use crate::list::{print_all, print_maybe_equal, print_separated};
use crate::push::{push_group, push_mark, push_word};
use crate::to_tokens::ToTokens;
use crate::ty::print_maybe_name;
use base_core::{Items, Mem};
use node_core::{
    Data, DataEnum, DataStruct, DataUnion, Field, Fields, FieldsNamed, FieldsUnnamed, Variant,
    Visibility, WhereClause,
};
use std::alloc::Global;
use tok_types::{Delimiter, TokenTree};

/// Nothing, `pub`, `pub(crate)`, `pub(in path)`
impl ToTokens for Visibility {
    ghost printing = { visibility_tokens };

    fn print(&self, alloc: Global, trees: &mut Items<TokenTree>) -> Mem<()> {
        match self {
            Visibility::Inherited => Ok(()),
            Visibility::Public { span } => push_word(alloc, trees, "pub", *span),
            Visibility::Restricted {
                in_token,
                path,
                span,
            } => {
                push_word(alloc, trees, "pub", *span)?;
                let mut inside = Items::new(alloc);
                if *in_token {
                    push_word(alloc, &mut inside, "in", *span)?;
                }
                path.print(alloc, &mut inside)?;
                push_group(alloc, trees, Delimiter::Parenthesis, inside, *span)
            }
        }
    }
}

/// `#[attr] pub name: T`, `pub T`
impl ToTokens for Field {
    ghost printing = { field_tokens };

    fn print(&self, alloc: Global, trees: &mut Items<TokenTree>) -> Mem<()> {
        print_all(self.attrs.as_slice(), alloc, trees)?;
        self.vis.print(alloc, trees)?;
        print_maybe_name(&self.ident, self.span, alloc, trees)?;
        self.ty.print(alloc, trees)
    }
}

impl ToTokens for Fields {
    ghost printing = { fields_tokens };

    fn print(&self, alloc: Global, trees: &mut Items<TokenTree>) -> Mem<()> {
        match self {
            Fields::Named(it) => it.print(alloc, trees),
            Fields::Unnamed(it) => it.print(alloc, trees),
            Fields::Unit => Ok(()),
        }
    }
}

/// `{ a: A, b: B }`
impl ToTokens for FieldsNamed {
    ghost printing = { named_tokens };

    fn print(&self, alloc: Global, trees: &mut Items<TokenTree>) -> Mem<()> {
        let mut inside = Items::new(alloc);
        print_separated(self.named.as_slice(), ',', self.span, alloc, &mut inside)?;
        push_group(alloc, trees, Delimiter::Brace, inside, self.span)
    }
}

/// `(A, B)`
impl ToTokens for FieldsUnnamed {
    ghost printing = { unnamed_tokens };

    fn print(&self, alloc: Global, trees: &mut Items<TokenTree>) -> Mem<()> {
        let mut inside = Items::new(alloc);
        print_separated(self.unnamed.as_slice(), ',', self.span, alloc, &mut inside)?;
        push_group(alloc, trees, Delimiter::Parenthesis, inside, self.span)
    }
}

/// `#[attr] Name(A, B) = 1`
impl ToTokens for Variant {
    ghost printing = { variant_tokens };

    fn print(&self, alloc: Global, trees: &mut Items<TokenTree>) -> Mem<()> {
        print_all(self.attrs.as_slice(), alloc, trees)?;
        self.ident.print(alloc, trees)?;
        self.fields.print(alloc, trees)?;
        print_maybe_equal(&self.discriminant, self.span, alloc, trees)
    }
}

/// What follows the name, without generics
impl ToTokens for Data {
    ghost printing = { body_with None };

    fn print(&self, alloc: Global, trees: &mut Items<TokenTree>) -> Mem<()> {
        print_body(self, &None, alloc, trees)
    }
}

/// What follows the name, without generics: `{ a: A }`, `(A);`, or `;`
impl ToTokens for DataStruct {
    ghost printing = { struct_with None };

    fn print(&self, alloc: Global, trees: &mut Items<TokenTree>) -> Mem<()> {
        print_struct(self, &None, alloc, trees)
    }
}

/// `{ A, B(T) }`
impl ToTokens for DataEnum {
    ghost printing = { enum_tokens };

    fn print(&self, alloc: Global, trees: &mut Items<TokenTree>) -> Mem<()> {
        let mut inside = Items::new(alloc);
        print_separated(self.variants.as_slice(), ',', self.span, alloc, &mut inside)?;
        push_group(alloc, trees, Delimiter::Brace, inside, self.span)
    }
}

/// `{ a: A }`
impl ToTokens for DataUnion {
    ghost printing = { λ it. named_tokens it.fields };

    fn print(&self, alloc: Global, trees: &mut Items<TokenTree>) -> Mem<()> {
        self.fields.print(alloc, trees)
    }
}

/// Writes a body, with the where clause at its place.
pub fn print_body(
    body: &Data,
    clause: &Option<WhereClause>,
    alloc: Global,
    trees: &mut Items<TokenTree>,
) -> Mem<()>
    ensures ok { OnOk result (trees.new ≡ trees.old ++ body_with clause.now body.now) }
    ensures front { IsFront trees.old trees.new }
{
    match body {
        Data::Struct(it) => print_struct(it, clause, alloc, trees),
        Data::Enum(it) => {
            clause.print(alloc, trees)?;
            it.print(alloc, trees)
        }
        Data::Union(it) => {
            clause.print(alloc, trees)?;
            it.print(alloc, trees)
        }
    }
}

/// Writes the body of a struct: a where clause stands before braces, and after parentheses.
fn print_struct(
    body: &DataStruct,
    clause: &Option<WhereClause>,
    alloc: Global,
    trees: &mut Items<TokenTree>,
) -> Mem<()>
    ensures ok { OnOk result (trees.new ≡ trees.old ++ struct_with clause.now body.now) }
    ensures front { IsFront trees.old trees.new }
{
    match &body.fields {
        Fields::Named(it) => {
            clause.print(alloc, trees)?;
            it.print(alloc, trees)
        }
        Fields::Unnamed(it) => {
            it.print(alloc, trees)?;
            clause.print(alloc, trees)?;
            push_mark(trees, &[';'], body.span)
        }
        Fields::Unit => {
            clause.print(alloc, trees)?;
            push_mark(trees, &[';'], body.span)
        }
    }
}
