//! The trees of single pieces, and of a group.
ghost use Rattle.std.specs.Prelude.{◌≡◌, ◌++◌, [], ◌∷◌, drop, slice_index, false, IfOk};
ghost use Rattle.std.specs.Str.{encode_utf8_all};
ghost use Rattle.tok_core.specs.Flat as flat;
ghost use Rattle.tok_core.specs.Flat.{flat_tree, flat_trees, start_of, end_of};
ghost use Rattle.tok_core.specs.Spells.{doc_tokens, ident_of};

use crate::quoting::quoted_characters;
use base_core::{Boxed, Items, Mem, Text};
use std::alloc::Global;
use tok_types::{Delimiter, Group, Ident, Lifetime, Literal, Punct, Span, TokenStream, TokenTree};

fn name(alloc: Global, characters: &[char], raw: bool, span: Span) -> Mem<Ident>
    ensures { IfOk result (λ it. it ≡ record { text = encode_utf8_all characters.now; raw = raw; span = span }) }
{
    let text = Text::from_string(alloc, tok_scan::text_of(alloc, characters)?)?;
    Ok(Ident { text, raw, span })
}

/// The identifier that is written so: raw after `r#`.
fn ident_of(alloc: Global, characters: &[char], span: Span) -> Mem<Ident>
    ensures { IfOk result (λ it. it ≡ ident_of characters.now span) }
{
    match characters {
        ['r', '#', raw @ ..] => name(alloc, raw, true, span),
        _ => name(alloc, characters, false, span),
    }
}

/// The same, of characters with these bytes.
pub(crate) fn ident(alloc: Global, characters: &[char], bytes: &str, span: Span) -> Mem<TokenTree>
    requires { bytes.now ≡ encode_utf8_all characters.now }
    ensures { IfOk result (λ t. flat_tree t ≡ flat.token (flat.ident (ident_of characters.now span)) ∷ []) }
{
    let ident = match characters {
        ['r', '#', raw @ ..] => name(alloc, raw, true, span)?,
        _ => Ident {
            text: Text::from_str(alloc, bytes)?,
            raw: false,
            span,
        },
    };
    Ok(TokenTree::Ident(ident))
}

/// The lifetime that is written so, with its `'`.
pub(crate) fn lifetime(alloc: Global, characters: &[char], span: Span) -> Mem<TokenTree>
    ensures { IfOk result (λ t. flat_tree t
        ≡ flat.token (flat.lifetime (record { ident = ident_of (drop 1 characters.now) span })) ∷ []) }
{
    let ident = ident_of(alloc, from(characters, 1), span)?;
    Ok(TokenTree::Lifetime(Lifetime { ident }))
}

/// The characters from the one with this number on.
fn from(characters: &[char], first: usize) -> &[char]
    ensures { result.now ≡ drop first characters.now }
{
    characters.get(first..).unwrap_or(&[])
}

pub(crate) fn literal(alloc: Global, text: &str, span: Span) -> Mem<TokenTree>
    ensures { IfOk result (λ t. flat_tree t
        ≡ flat.token (flat.literal (record { text = text.now; span = span })) ∷ []) }
{
    let text = Text::from_str(alloc, text)?;
    Ok(TokenTree::Literal(Literal { text, span }))
}

/// The mark that the first character is.
pub(crate) fn punct(characters: &[char], joint: bool, span: Span) -> TokenTree
    ensures { flat_tree result
        ≡ flat.token (flat.punct (record { ch = slice_index characters.now 0; joint = joint; span = span })) ∷ [] }
{
    let ch = match characters {
        [] => '\0',
        [first, ..] => *first,
    };
    mark(ch, joint, span)
}

pub(crate) fn mark(ch: char, joint: bool, span: Span) -> TokenTree
    ensures { flat_tree result ≡ flat.token (flat.punct (record { ch = ch; joint = joint; span = span })) ∷ [] }
{
    TokenTree::Punct(Punct { ch, joint, span })
}

/// The group of the attribute for which the documentation comment stands that is written so.
pub(crate) fn doc(alloc: Global, characters: &[char], span: Span) -> Mem<TokenTree>
    ensures { IfOk result (λ t. flat.token (flat.punct (record { ch = 35; joint = false; span = span })) ∷ flat_tree t
        ≡ doc_tokens (drop 3 characters.now) span) }
{
    let mut trees = Items::new(alloc);
    let text = Text::from_str(alloc, "doc")?;
    let raw = false;
    trees.push(TokenTree::Ident(Ident { text, raw, span }))?;
    trees.push(mark('=', false, span))?;
    let text = quoted_characters(alloc, from(characters, 3))?;
    trees.push(TokenTree::Literal(Literal { text, span }))?;
    group(alloc, Delimiter::Bracket, trees, span)
}

pub(crate) fn group(
    alloc: Global,
    delimiter: Delimiter,
    trees: Items<TokenTree>,
    span: Span,
) -> Mem<TokenTree>
    ensures { IfOk result (λ tree. flat_tree tree
        ≡ flat.opening delimiter (start_of span) ∷ (flat_trees trees ++ flat.closing delimiter (end_of span) ∷ [])) }
{
    let group = Group {
        delimiter,
        stream: TokenStream { trees },
        span,
    };
    Ok(TokenTree::Group(Boxed::new(alloc, group)?))
}
