//! The tokens of literals.

use crate::push::{push_mark, push_word};
use crate::to_tokens::ToTokens;
use base_core::{Items, Mem};
use node_expr::{Lit, LitBool, LitByte, LitByteStr, LitChar, LitFloat, LitInt, LitStr, Member};
use std::alloc::Global;
use tok_types::TokenTree;

impl ToTokens for Lit {
    ghost use Rattle.print_core.specs.Literals.{lit_tokens};

    ghost printing = { lit_tokens };

    fn print(&self, alloc: Global, trees: &mut Items<TokenTree>) -> Mem<()> {
        match self {
            Lit::Str(it) => it.print(alloc, trees),
            Lit::ByteStr(it) => it.print(alloc, trees),
            Lit::Byte(it) => it.print(alloc, trees),
            Lit::Char(it) => it.print(alloc, trees),
            Lit::Int(it) => it.print(alloc, trees),
            Lit::Float(it) => it.print(alloc, trees),
            Lit::Bool(it) => it.print(alloc, trees),
            Lit::Verbatim(it) => it.print(alloc, trees),
        }
    }
}

impl ToTokens for LitStr {
    ghost use Rattle.print_core.specs.Marks.{literal};

    ghost printing = { λ lit. literal lit.token };

    fn print(&self, alloc: Global, trees: &mut Items<TokenTree>) -> Mem<()> {
        self.token.print(alloc, trees)
    }
}

impl ToTokens for LitByteStr {
    ghost use Rattle.print_core.specs.Marks.{literal};

    ghost printing = { λ lit. literal lit.token };

    fn print(&self, alloc: Global, trees: &mut Items<TokenTree>) -> Mem<()> {
        self.token.print(alloc, trees)
    }
}

impl ToTokens for LitByte {
    ghost use Rattle.print_core.specs.Marks.{literal};

    ghost printing = { λ lit. literal lit.token };

    fn print(&self, alloc: Global, trees: &mut Items<TokenTree>) -> Mem<()> {
        self.token.print(alloc, trees)
    }
}

impl ToTokens for LitChar {
    ghost use Rattle.print_core.specs.Marks.{literal};

    ghost printing = { λ lit. literal lit.token };

    fn print(&self, alloc: Global, trees: &mut Items<TokenTree>) -> Mem<()> {
        self.token.print(alloc, trees)
    }
}

impl ToTokens for LitInt {
    ghost use Rattle.print_core.specs.Literals.{int_tokens};

    ghost printing = { int_tokens };

    fn print(&self, alloc: Global, trees: &mut Items<TokenTree>) -> Mem<()> {
        if self.negative {
            push_mark(trees, &['-'], self.span)?;
        }
        self.token.print(alloc, trees)
    }
}

impl ToTokens for LitFloat {
    ghost use Rattle.print_core.specs.Literals.{float_tokens};

    ghost printing = { float_tokens };

    fn print(&self, alloc: Global, trees: &mut Items<TokenTree>) -> Mem<()> {
        if self.negative {
            push_mark(trees, &['-'], self.span)?;
        }
        self.token.print(alloc, trees)
    }
}

impl ToTokens for LitBool {
    ghost use Rattle.print_core.specs.Literals.{bool_tokens};

    ghost printing = { bool_tokens };

    fn print(&self, alloc: Global, trees: &mut Items<TokenTree>) -> Mem<()> {
        let text = if self.value { "true" } else { "false" };
        push_word(alloc, trees, text, self.span)
    }
}

impl ToTokens for Member {
    ghost use Rattle.print_core.specs.Literals.{member_tokens};

    ghost printing = { member_tokens };

    fn print(&self, alloc: Global, trees: &mut Items<TokenTree>) -> Mem<()> {
        match self {
            Member::Named(name) => name.print(alloc, trees),
            Member::Unnamed(index) => index.print(alloc, trees),
        }
    }
}
