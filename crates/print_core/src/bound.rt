//! The tokens of bounds.

ghost use Rattle.std.specs.Prelude.{◌≡◌, ◌++◌, codes, map, OnOk};
ghost use Rattle.print_core.specs.Marks.{lifetime, word};
ghost use Rattle.print_core.specs.Paths.{binder, angled, sum_of};
ghost use Rattle.print_core.specs.Nodes.{bound_tokens, trait_bound_tokens};
ghost use Rattle.print_core.specs.Fronts.{IsFront};

use crate::list::print_in_angles;
use crate::path::{PathStyle, print_path};
use crate::push::{push_mark, push_plus, push_word};
use crate::to_tokens::ToTokens;
use base_core::{Items, Mem};
use node_expr::{TraitBound, TypeParamBound};
use std::alloc::Global;
use tok_types::{Lifetime, Span, TokenTree};

impl ToTokens for TypeParamBound {
    ghost printing = { bound_tokens };

    #[cycle(print)]
    fn print(&self, alloc: Global, trees: &mut Items<TokenTree>) -> Mem<()> {
        match self {
            TypeParamBound::Trait(it) => it.print(alloc, trees),
            TypeParamBound::Lifetime(it) => it.print(alloc, trees),
        }
    }
}

/// `?for<'a> Trait<'a>`
impl ToTokens for TraitBound {
    ghost printing = { trait_bound_tokens };

    #[cycle(print)]
    fn print(&self, alloc: Global, trees: &mut Items<TokenTree>) -> Mem<()> {
        if self.maybe {
            push_mark(trees, &['?'], self.span)?;
        }
        print_binder(self.lifetimes.as_slice(), self.span, alloc, trees)?;
        print_path(&self.path, PathStyle::Plain, alloc, trees)
    }
}

/// Writes `A + B`.
#[cycle(print)]
pub fn print_bounds(
    bounds: &[TypeParamBound],
    span: Span,
    alloc: Global,
    trees: &mut Items<TokenTree>,
) -> Mem<()>
    ensures ok { OnOk result (trees.new ≡ trees.old ++ sum_of (map bound_tokens bounds.now) span) }
    ensures front { IsFront trees.old trees.new }
{
    if let Some((first, others)) = bounds.split_first() {
        first.print(alloc, trees)?;
        for bound in others {
            push_plus(trees, span)?;
            bound.print(alloc, trees)?;
        }
    }
    Ok(())
}

/// Writes `for<'a, 'b>`, or nothing without lifetimes.
pub fn print_binder(
    lifetimes: &[Lifetime],
    span: Span,
    alloc: Global,
    trees: &mut Items<TokenTree>,
) -> Mem<()>
    ensures ok { OnOk result (trees.new ≡ trees.old ++ binder lifetimes.now span) }
    ensures front { IsFront trees.old trees.new }
{
    if lifetimes.is_empty() {
        return Ok(());
    }
    print_for(lifetimes, span, alloc, trees)
}

/// Writes `for<'a, 'b>`, or `for<>`.
pub fn print_for(
    lifetimes: &[Lifetime],
    span: Span,
    alloc: Global,
    trees: &mut Items<TokenTree>,
) -> Mem<()>
    ensures ok { OnOk result (trees.new ≡ trees.old ++ (word (codes "for") span ++ angled (map lifetime lifetimes.now) span)) }
    ensures front { IsFront trees.old trees.new }
{
    push_word(alloc, trees, "for", span)?;
    print_in_angles(lifetimes, span, alloc, trees)
}
