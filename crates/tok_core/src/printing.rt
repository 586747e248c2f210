//! The text of tokens.
ghost use Rattle.std.specs.Prelude.{◌≡◌, ◌≤◌, ◌++◌, true, chars, length, map, IfOk, OnOk, MatchResult};
ghost use Rattle.tok_core.specs.Erased.{SameButSpans};
ghost use Rattle.tok_core.specs.Flat.{tree_view, trees_of};
ghost use Rattle.tok_core.specs.Readable.{IsReadable};
ghost use Rattle.tok_core.specs.Printing.{stream_text, text_of, texts_of, tree_joins};
ghost use Rattle.tok_core.specs.Spells.{Spells};

use crate::error::LexError;
use crate::reading::{MAX_LEN, lex};
use base_core::{Mem, Text};
use std::alloc::Global;
use tok_scan::{closing, opening};
use tok_types::{TokenStream, TokenTree};

/// The text of the tokens: each as it is written, a group between its delimiters, with one space
/// between two neighbours and none after a joint mark.
///
/// It goes down the tree by calls, as dropping the tree does.
pub fn to_text(alloc: Global, tokens: &TokenStream) -> Mem<Text>
    ensures { IfOk result (λ text. text ≡ stream_text tokens.now) }
{
    let mut text = Text::new(alloc);
    push_trees(&mut text, tokens.trees.as_slice())?;
    Ok(text)
}

/// The tokens of the text of the tokens: the same, all but their spans, where that text can be read
/// again.
///
/// It can where each token has a text of its kind, each joint mark stands directly before a mark of
/// its own list and begins no comment with it, no group is invisible, and at most 128 groups are
/// open at once. The text takes at most [`MAX_LEN`] bytes.
pub fn read_again(alloc: Global, source: u32, tokens: &TokenStream) -> Result<TokenStream, LexError>
    requires { length (stream_text tokens.now) ≤ MAX_LEN }
    ensures same { IsReadable tokens.now
        → MatchResult result (λ read. SameButSpans read tokens.now) (λ e. e ≡ LexError.NoMemory) }
    ensures spelled { IfOk result (Spells source (chars (stream_text tokens.now))) }
{
    let text = to_text(alloc, tokens)?;
    lex(alloc, source, text.as_str())
}

/// Whether the tree is a mark that the next one follows directly.
fn joins(tree: &TokenTree) -> bool
    ensures { result ≡ tree_joins (tree_view tree.now) }
{
    match tree {
        TokenTree::Punct(mark) => mark.joint,
        _ => false,
    }
}

#[cycle(printing)]
fn push_tree(text: &mut Text, tree: &TokenTree) -> Mem<()>
    ensures { OnOk result (text.new ≡ text.old ++ text_of (tree_view tree.now)) }
{
    match tree {
        TokenTree::Ident(it) => it.push_to(text),
        TokenTree::Lifetime(it) => {
            text.push('\'')?;
            it.ident.push_to(text)
        }
        TokenTree::Punct(it) => text.push(it.ch),
        TokenTree::Literal(it) => text.push_str(it.text.as_str()),
        TokenTree::Group(it) => {
            let it = it.get();
            text.push_str(opening(it.delimiter))?;
            push_trees(text, it.stream.trees.as_slice())?;
            text.push_str(closing(it.delimiter))
        }
    }
}

#[cycle(printing)]
fn push_trees(text: &mut Text, trees: &[TokenTree]) -> Mem<()>
    ensures { OnOk result (text.new ≡ text.old ++ texts_of true (trees_of (map tree_view trees.now))) }
{
    let mut joint = true;
    for tree in trees {
        if !joint {
            text.push(' ')?;
        }
        push_tree(text, tree)?;
        joint = joins(tree);
    }
    Ok(())
}
