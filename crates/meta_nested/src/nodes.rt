//! Clones, places and tokens of nested items.

use crate::nested::{MetaNameValueInvalidExpr, NestedMeta};
use base_core::{Items, Mem, TryClone};
use node_span::Spanned;
use print_core::ToTokens;
use std::alloc::Global;
use tok_types::{Punct, Span, TokenTree};

impl TryClone for MetaNameValueInvalidExpr {
    fn try_clone(&self, alloc: Global) -> Mem<MetaNameValueInvalidExpr> {
        Ok(MetaNameValueInvalidExpr {
            path: self.path.try_clone(alloc)?,
            eq_span: self.eq_span,
            value: self.value.try_clone(alloc)?,
            error: self.error.try_clone(alloc)?,
        })
    }
}

impl TryClone for NestedMeta {
    fn try_clone(&self, alloc: Global) -> Mem<NestedMeta> {
        Ok(match self {
            NestedMeta::Meta(it) => NestedMeta::Meta(it.try_clone(alloc)?),
            NestedMeta::Lit(it) => NestedMeta::Lit(it.try_clone(alloc)?),
            NestedMeta::NameValueInvalidExpr(it) => {
                NestedMeta::NameValueInvalidExpr(it.try_clone(alloc)?)
            }
        })
    }
}

impl Spanned for MetaNameValueInvalidExpr {
    ghost use Rattle.meta_nested.specs.Nodes.{bad_span};

    ghost span_of = { bad_span };

    fn spanned(&self) -> Span {
        let start = self.path.spanned();
        match self.value.trees.last() {
            Some(tree) => start.join(tree.spanned()),
            None => start.join(self.eq_span),
        }
    }
}

impl Spanned for NestedMeta {
    ghost use Rattle.meta_nested.specs.Nodes.{nested_span};

    ghost span_of = { nested_span };

    fn spanned(&self) -> Span {
        match self {
            NestedMeta::Meta(it) => it.spanned(),
            NestedMeta::Lit(it) => it.spanned(),
            NestedMeta::NameValueInvalidExpr(it) => it.spanned(),
        }
    }
}

/// `path = tokens`
impl ToTokens for MetaNameValueInvalidExpr {
    ghost use Rattle.meta_nested.specs.Nodes.{bad_tokens};

    ghost printing = { bad_tokens };

    #[tactic(auto, unfolding(print_core::specs::Marks::mark), using(print_core::proofs::Fronts::front))]
    fn print(&self, alloc: Global, trees: &mut Items<TokenTree>) -> Mem<()> {
        self.path.print(alloc, trees)?;
        trees.push(TokenTree::Punct(Punct {
            ch: '=',
            joint: false,
            span: self.eq_span,
        }))?;
        self.value.print(alloc, trees)
    }
}

impl ToTokens for NestedMeta {
    ghost use Rattle.meta_nested.specs.Nodes.{nested_tokens};

    ghost printing = { nested_tokens };

    fn print(&self, alloc: Global, trees: &mut Items<TokenTree>) -> Mem<()> {
        match self {
            NestedMeta::Meta(it) => it.print(alloc, trees),
            NestedMeta::Lit(it) => it.print(alloc, trees),
            NestedMeta::NameValueInvalidExpr(it) => it.print(alloc, trees),
        }
    }
}
