//! The tokens of whole items and of a function's arguments.

use crate::data::print_body;
use crate::list::print_all;
use crate::push::{push_mark, push_word};
use crate::to_tokens::ToTokens;
use base_core::{Items, Mem};
use node_core::{Data, DeriveInput};
use node_expr::FnArg;
use std::alloc::Global;
use tok_types::TokenTree;

/// `#[attr] pub struct Name<T> where .. { a: T }`, an `enum` or a `union`
impl ToTokens for DeriveInput {
    ghost use Rattle.print_core.specs.Items.{derive_input_tokens};

    ghost printing = { derive_input_tokens };

    fn print(&self, alloc: Global, trees: &mut Items<TokenTree>) -> Mem<()> {
        print_all(self.attrs.as_slice(), alloc, trees)?;
        self.vis.print(alloc, trees)?;
        let word = match &self.body {
            Data::Struct(_) => "struct",
            Data::Enum(_) => "enum",
            Data::Union(_) => "union",
        };
        push_word(alloc, trees, word, self.span)?;
        self.ident.print(alloc, trees)?;
        self.generics.print(alloc, trees)?;
        print_body(&self.body, &self.generics.where_clause, alloc, trees)
    }
}

/// `pattern: T`
impl ToTokens for FnArg {
    ghost use Rattle.print_core.specs.Items.{fn_arg_tokens};

    ghost printing = { fn_arg_tokens };

    fn print(&self, alloc: Global, trees: &mut Items<TokenTree>) -> Mem<()> {
        self.pat.print(alloc, trees)?;
        push_mark(trees, &[':'], self.span)?;
        self.ty.print(alloc, trees)
    }
}
