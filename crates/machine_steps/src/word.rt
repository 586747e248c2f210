//! The closures that stand for words: which variant a callable is the closure of.

ghost use Rattle.std.specs.Prelude.{◌≡◌, ◌∷◌, ◌++◌, [], IfOk, OnOk, codes};
ghost use Rattle.std.specs.Option.{option_copied};
ghost use Rattle.machine_steps.specs.Calls as spec;
ghost use Rattle.machine_steps.specs.Words as words;
ghost use Rattle.print_core.specs.Marks.{ident, mark, word};
ghost use Rattle.print_core.specs.Nodes.{expr_tokens};
ghost use Rattle.tok_types.specs.Stream.{stream_of};
ghost use Rattle.tok_types.specs.declared.span.Span.TheVariants.{CallSite};

use base_core::{Items, Mem, Text, TryClone};
use machine_host::Callable;
use node_core::{Fields, Variant};
use print_core::{ToTokens, push_group};
use std::alloc::Global;
use tok_types::{Delimiter, Ident, Punct, Span, TokenStream, TokenTree};

/// The variant without members that the callable is the closure of. One closure is made, whatever the count of variants:
/// that of the word with which the callable ends.
pub fn word_variant<'v>(
    alloc: Global,
    callable: &Callable,
    variants: &'v [Variant],
) -> Mem<Option<&'v Ident>>
    ensures { IfOk result (λ it. option_copied it ≡ spec.word_variant callable.now variants.now) }
{
    let written = tokens_of(alloc, callable)?;
    let Some(word) = last_word(&written) else {
        return Ok(None);
    };
    let closure = word_closure(alloc, word)?;
    if written == closure {
        return Ok(variant_of(word, variants));
    }
    Ok(None)
}

fn tokens_of(alloc: Global, callable: &Callable) -> Mem<TokenStream>
    ensures { IfOk result (λ it. it ≡ stream_of (expr_tokens callable.now.call)) }
{
    let mut trees = Items::new(alloc);
    callable.print(alloc, &mut trees)?;
    Ok(TokenStream { trees })
}

/// The identifier at the end of the group at the end of the tokens.
fn last_word(stream: &TokenStream) -> Option<&Ident>
    ensures { option_copied result ≡ words.last_word stream.now }
{
    match stream.trees.last()? {
        TokenTree::Group(group) => match group.get().stream.trees.last()? {
            TokenTree::Ident(word) => Some(word),
            _ => None,
        },
        _ => None,
    }
}

/// The first variant of the word that has no members.
fn variant_of<'v>(word: &Ident, variants: &'v [Variant]) -> Option<&'v Ident>
    ensures { option_copied result ≡ words.variant_of word.now variants.now }
{
    for variant in variants {
        if is_bare(variant) && variant.ident == *word {
            return Some(&variant.ident);
        }
    }
    None
}

fn is_bare(variant: &Variant) -> bool
    ensures { result ≡ spec.are_none variant.now.fields }
{
    match &variant.fields {
        Fields::Named(_) | Fields::Unnamed(_) => false,
        Fields::Unit => true,
    }
}

/// `|| _darling::export::Ok(Self::V)`
#[tactic(auto, unfolding(print_core::specs::Marks::group, print_core::specs::Marks::mark, print_core::specs::Marks::word))]
fn word_closure(alloc: Global, variant: &Ident) -> Mem<TokenStream>
    ensures { IfOk result (λ it. it ≡ stream_of (spec.word_closure variant.now)) }
{
    let mut trees = Items::new(alloc);
    push_twice(&mut trees, '|')?;
    push_word(alloc, &mut trees, "_darling")?;
    push_twice(&mut trees, ':')?;
    push_word(alloc, &mut trees, "export")?;
    push_twice(&mut trees, ':')?;
    push_word(alloc, &mut trees, "Ok")?;
    let built = built_variant(alloc, variant)?;
    push_group(
        alloc,
        &mut trees,
        Delimiter::Parenthesis,
        built,
        Span::CallSite,
    )?;
    Ok(TokenStream { trees })
}

/// `Self::V`
fn built_variant(alloc: Global, variant: &Ident) -> Mem<Items<TokenTree>>
    ensures { IfOk result (λ it. it ≡ word (codes "Self") CallSite ++ mark (codes "::") CallSite ++ ident variant.now) }
{
    let mut trees = Items::new(alloc);
    push_word(alloc, &mut trees, "Self")?;
    push_twice(&mut trees, ':')?;
    trees.push(TokenTree::Ident(variant.try_clone(alloc)?))?;
    Ok(trees)
}

/// Writes a mark of twice the character.
#[tactic(auto, unfolding(print_core::specs::Marks::mark))]
fn push_twice(trees: &mut Items<TokenTree>, ch: char) -> Mem<()>
    ensures { OnOk result (trees.new ≡ trees.old ++ mark (ch ∷ ch ∷ []) CallSite) }
{
    trees.push(mark_of(ch, true))?;
    trees.push(mark_of(ch, false))
}

fn mark_of(ch: char, joint: bool) -> TokenTree
    ensures { result ≡ TokenTree.Punct (record { ch = ch; joint = joint; span = CallSite }) }
{
    let span = Span::CallSite;
    TokenTree::Punct(Punct { ch, joint, span })
}

#[tactic(auto, unfolding(print_core::specs::Marks::word))]
fn push_word(alloc: Global, trees: &mut Items<TokenTree>, text: &str) -> Mem<()>
    ensures { OnOk result (trees.new ≡ trees.old ++ word text.now CallSite) }
{
    let text = Text::from_str(alloc, text)?;
    trees.push(TokenTree::Ident(Ident {
        text,
        raw: false,
        span: Span::CallSite,
    }))
}
