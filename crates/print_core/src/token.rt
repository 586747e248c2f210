//! Tokens print themselves.
#![tactic(auto, using(crate::proofs::Fronts::front))]

ghost use Rattle.std.specs.Prelude.{◌∷◌, []};

use crate::to_tokens::ToTokens;
use base_core::{Boxed, Items, Mem, TryClone};
use std::alloc::Global;
use tok_types::{Group, Ident, Lifetime, Literal, Punct, TokenStream, TokenTree};

impl ToTokens for Ident {
    ghost use Rattle.print_core.specs.Marks.{ident};

    ghost printing = { ident };

    fn print(&self, alloc: Global, trees: &mut Items<TokenTree>) -> Mem<()> {
        let copy = self.try_clone(alloc)?;
        trees.push(TokenTree::Ident(copy))
    }
}

impl ToTokens for Lifetime {
    ghost use Rattle.print_core.specs.Marks.{lifetime};

    ghost printing = { lifetime };

    fn print(&self, alloc: Global, trees: &mut Items<TokenTree>) -> Mem<()> {
        let copy = self.try_clone(alloc)?;
        trees.push(TokenTree::Lifetime(copy))
    }
}

impl ToTokens for Punct {
    ghost use Rattle.tok_types.specs.declared.tree.TokenTree.TheVariants as tree;

    ghost printing = { λ it. tree.Punct it ∷ [] };

    fn print(&self, alloc: Global, trees: &mut Items<TokenTree>) -> Mem<()> {
        let copy = self.try_clone(alloc)?;
        trees.push(TokenTree::Punct(copy))
    }
}

impl ToTokens for Literal {
    ghost use Rattle.print_core.specs.Marks.{literal};

    ghost printing = { literal };

    fn print(&self, alloc: Global, trees: &mut Items<TokenTree>) -> Mem<()> {
        let copy = self.try_clone(alloc)?;
        trees.push(TokenTree::Literal(copy))
    }
}

impl ToTokens for Group {
    ghost use Rattle.tok_types.specs.declared.tree.TokenTree.TheVariants as tree;

    ghost printing = { λ it. tree.Group it ∷ [] };

    fn print(&self, alloc: Global, trees: &mut Items<TokenTree>) -> Mem<()> {
        let copy = self.try_clone(alloc)?;
        trees.push(TokenTree::Group(Boxed::new(alloc, copy)?))
    }
}

impl ToTokens for TokenTree {
    ghost printing = { λ it. it ∷ [] };

    fn print(&self, alloc: Global, trees: &mut Items<TokenTree>) -> Mem<()> {
        let copy = self.try_clone(alloc)?;
        trees.push(copy)
    }
}

impl ToTokens for TokenStream {
    ghost use Rattle.print_core.specs.Marks.{contents};

    ghost printing = { contents };

    fn print(&self, alloc: Global, trees: &mut Items<TokenTree>) -> Mem<()> {
        trees.extend_from_slice(alloc, self.trees.as_slice())
    }
}

impl<T: ToTokens> ToTokens for Boxed<T> {
    ghost printing = { T.printing };

    fn print(&self, alloc: Global, trees: &mut Items<TokenTree>) -> Mem<()> {
        self.get().print(alloc, trees)
    }
}

/// What may be left out prints nothing where it is.
impl<T: ToTokens> ToTokens for Option<T> {
    ghost use Rattle.std.specs.Option.{option_map};
    ghost use Rattle.print_core.specs.Marks.{optional};

    ghost printing = { λ it. optional (option_map T.printing it) };

    fn print(&self, alloc: Global, trees: &mut Items<TokenTree>) -> Mem<()> {
        match self {
            Some(it) => it.print(alloc, trees),
            None => Ok(()),
        }
    }
}
