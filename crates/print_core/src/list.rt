//! Lists of parts: one after the other, with a separator between them, in angles.
ghost use Rattle.std.specs.Prelude.{◌≡◌, ◌++◌, ◌∷◌, [], flat_map, map, codes, OnOk};
ghost use Rattle.std.specs.Option.{option_map};
ghost use Rattle.print_core.specs.Marks.{mark, joined, word, unless_empty, comma, plus};
ghost use Rattle.print_core.specs.Paths.{angled};
ghost use Rattle.print_core.specs.Items.{maybe_bounds, maybe_equal};
ghost use Rattle.print_core.specs.Fronts.{IsFront};

use crate::push::{push_mark, push_word};
use crate::to_tokens::ToTokens;
use base_core::{Items, Mem};
use node_core::{Comma, Punctuated};
use std::alloc::Global;
use tok_types::{Span, TokenTree};

/// `a, b`, with no node around it
impl<T: ToTokens> ToTokens for Punctuated<T, Comma> {
    ghost use Rattle.tok_types.specs.declared.span.Span.TheVariants.{CallSite};

    ghost printing = { λ it. joined (comma CallSite) (map T.printing it.items) };

    fn print(&self, alloc: Global, trees: &mut Items<TokenTree>) -> Mem<()> {
        print_separated(self.items.as_slice(), ',', Span::CallSite, alloc, trees)
    }
}

/// Writes each part behind the one before it.
pub fn print_all<T: ToTokens>(parts: &[T], alloc: Global, trees: &mut Items<TokenTree>) -> Mem<()>
    ensures ok { OnOk result (trees.new ≡ trees.old ++ flat_map T.printing parts.now) }
    ensures front { IsFront trees.old trees.new }
{
    for part in parts {
        part.print(alloc, trees)?;
    }
    Ok(())
}

/// Writes the parts with this mark between them.
pub fn print_separated<T: ToTokens>(
    parts: &[T],
    separator: char,
    span: Span,
    alloc: Global,
    trees: &mut Items<TokenTree>,
) -> Mem<()>
    ensures ok { OnOk result (trees.new ≡ trees.old ++ joined (mark (separator ∷ []) span) (map T.printing parts.now)) }
    ensures front { IsFront trees.old trees.new }
{
    if let Some((first, others)) = parts.split_first() {
        first.print(alloc, trees)?;
        for part in others {
            push_mark(trees, &[separator], span)?;
            part.print(alloc, trees)?;
        }
    }
    Ok(())
}

/// Writes `<a, b>`, or `<>`.
pub fn print_in_angles<T: ToTokens>(
    parts: &[T],
    span: Span,
    alloc: Global,
    trees: &mut Items<TokenTree>,
) -> Mem<()>
    ensures ok { OnOk result (trees.new ≡ trees.old ++ angled (map T.printing parts.now) span) }
    ensures front { IsFront trees.old trees.new }
{
    push_mark(trees, &['<'], span)?;
    print_separated(parts, ',', span, alloc, trees)?;
    push_mark(trees, &['>'], span)
}

/// Writes `: a + b`, or nothing without bounds.
pub fn print_maybe_bounds<T: ToTokens>(
    bounds: &[T],
    span: Span,
    alloc: Global,
    trees: &mut Items<TokenTree>,
) -> Mem<()>
    ensures ok { OnOk result (trees.new ≡ trees.old ++ maybe_bounds (map T.printing bounds.now) span) }
    ensures front { IsFront trees.old trees.new }
{
    if bounds.is_empty() {
        return Ok(());
    }
    push_mark(trees, &[':'], span)?;
    print_separated(bounds, '+', span, alloc, trees)
}

/// Writes `= value`, or nothing.
pub fn print_maybe_equal<T: ToTokens>(
    value: &Option<T>,
    span: Span,
    alloc: Global,
    trees: &mut Items<TokenTree>,
) -> Mem<()>
    ensures ok { OnOk result (trees.new ≡ trees.old ++ maybe_equal (option_map T.printing value.now) span) }
    ensures front { IsFront trees.old trees.new }
{
    match value {
        None => Ok(()),
        Some(value) => {
            push_mark(trees, &['='], span)?;
            value.print(alloc, trees)
        }
    }
}
