//! What the printing makes itself: marks, words, groups, and the lists of plain tokens.
ghost use Rattle.std.specs.Prelude.{◌≡◌, ◌++◌, OnOk};
ghost use Rattle.print_core.specs.Marks.{mark, word, group, comma, plus, colons};
ghost use Rattle.print_core.specs.Fronts.{IsFront};

use base_core::{Boxed, Items, Mem, Text};
use std::alloc::Global;
use tok_types::{Delimiter, Group, Ident, Punct, Span, TokenStream, TokenTree};

/// Writes the mark of these characters, each joint but the last.
pub fn push_mark(trees: &mut Items<TokenTree>, characters: &[char], span: Span) -> Mem<()>
    ensures ok { OnOk result (trees.new ≡ trees.old ++ mark characters.now span) }
    ensures front { IsFront trees.old trees.new }
{
    for (i, ch) in characters.iter().enumerate() {
        let joint = i + 1 < characters.len();
        trees.push(TokenTree::Punct(Punct {
            ch: *ch,
            joint,
            span,
        }))?;
    }
    Ok(())
}

pub fn push_comma(trees: &mut Items<TokenTree>, span: Span) -> Mem<()>
    ensures ok { OnOk result (trees.new ≡ trees.old ++ comma span) }
    ensures front { IsFront trees.old trees.new }
{
    push_mark(trees, &[','], span)
}

pub fn push_plus(trees: &mut Items<TokenTree>, span: Span) -> Mem<()>
    ensures ok { OnOk result (trees.new ≡ trees.old ++ plus span) }
    ensures front { IsFront trees.old trees.new }
{
    push_mark(trees, &['+'], span)
}

pub fn push_colons(trees: &mut Items<TokenTree>, span: Span) -> Mem<()>
    ensures ok { OnOk result (trees.new ≡ trees.old ++ colons span) }
    ensures front { IsFront trees.old trees.new }
{
    push_mark(trees, &[':', ':'], span)
}

/// Writes a word that is not raw: a keyword, `_`, `true`.
#[tactic(auto, unfolding(crate::specs::Marks::word), using(crate::proofs::Fronts::front))]
pub fn push_word(alloc: Global, trees: &mut Items<TokenTree>, text: &str, span: Span) -> Mem<()>
    ensures ok { OnOk result (trees.new ≡ trees.old ++ word text.now span) }
    ensures front { IsFront trees.old trees.new }
{
    let text = Text::from_str(alloc, text)?;
    let raw = false;
    trees.push(TokenTree::Ident(Ident { text, raw, span }))
}

/// Writes the tokens `inside` between two delimiters.
#[tactic(auto, unfolding(crate::specs::Marks::group), using(crate::proofs::Fronts::front))]
pub fn push_group(
    alloc: Global,
    trees: &mut Items<TokenTree>,
    delimiter: Delimiter,
    inside: Items<TokenTree>,
    span: Span,
) -> Mem<()>
    ensures ok { OnOk result (trees.new ≡ trees.old ++ group delimiter inside span) }
    ensures front { IsFront trees.old trees.new }
{
    let stream = TokenStream { trees: inside };
    let group = Group {
        delimiter,
        stream,
        span,
    };
    trees.push(TokenTree::Group(Boxed::new(alloc, group)?))
}
