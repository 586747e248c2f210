//! The tokens of attributes.

use crate::list::print_all;
use crate::push::{push_group, push_mark};
use crate::to_tokens::ToTokens;
use base_core::{Items, Mem};
use node_core::{Attribute, Meta, MetaList, MetaNameValue};
use std::alloc::Global;
use tok_types::{Delimiter, TokenTree};

/// `#[meta]`
impl ToTokens for Attribute {
    ghost use Rattle.print_core.specs.Items.{attribute_tokens};

    ghost printing = { attribute_tokens };

    fn print(&self, alloc: Global, trees: &mut Items<TokenTree>) -> Mem<()> {
        push_mark(trees, &['#'], self.span)?;
        let mut inside = Items::new(alloc);
        self.meta.print(alloc, &mut inside)?;
        push_group(alloc, trees, Delimiter::Bracket, inside, self.span)
    }
}

impl ToTokens for Meta {
    ghost use Rattle.print_core.specs.Items.{meta_tokens};

    ghost printing = { meta_tokens };

    fn print(&self, alloc: Global, trees: &mut Items<TokenTree>) -> Mem<()> {
        match self {
            Meta::Path(it) => it.print(alloc, trees),
            Meta::List(it) => it.print(alloc, trees),
            Meta::NameValue(it) => it.print(alloc, trees),
        }
    }
}

/// `path(tokens)`
impl ToTokens for MetaList {
    ghost use Rattle.print_core.specs.Items.{meta_list_tokens};

    ghost printing = { meta_list_tokens };

    fn print(&self, alloc: Global, trees: &mut Items<TokenTree>) -> Mem<()> {
        self.path.print(alloc, trees)?;
        let mut inside = Items::new(alloc);
        self.tokens.print(alloc, &mut inside)?;
        push_group(alloc, trees, self.delimiter, inside, self.span)
    }
}

/// `path = value`
impl ToTokens for MetaNameValue {
    ghost use Rattle.print_core.specs.Items.{name_value_tokens};

    ghost printing = { name_value_tokens };

    fn print(&self, alloc: Global, trees: &mut Items<TokenTree>) -> Mem<()> {
        self.path.print(alloc, trees)?;
        push_mark(trees, &['='], self.span)?;
        self.value.print(alloc, trees)
    }
}
