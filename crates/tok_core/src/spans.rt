//! Tokens with one span everywhere.

ghost use Rattle.std.specs.Prelude.{◌≡◌, map};
ghost use Rattle.tok_types.specs.Respan.{stream_at, tree_at};

use base_core::Items;
use tok_types::{Punct, Span, TokenStream, TokenTree};

/// Puts `span` in the place of every span. It takes no memory.
pub fn respan(tokens: &mut TokenStream, span: Span)
    ensures { tokens.new ≡ stream_at span tokens.old }
{
    respan_trees(&mut tokens.trees, span);
}

#[cycle(respan)]
fn respan_tree(tree: &mut TokenTree, span: Span)
    ensures { tree.new ≡ tree_at span tree.old }
{
    match tree {
        TokenTree::Ident(it) => it.span = span,
        TokenTree::Lifetime(it) => it.ident.span = span,
        TokenTree::Punct(it) => it.span = span,
        TokenTree::Literal(it) => it.span = span,
        TokenTree::Group(it) => {
            let group = it.get_mut();
            respan_trees(&mut group.stream.trees, span);
            group.span = span;
        }
    }
}

// Each tree is taken out, so that no list of the new trees is needed; a mark holds its place.
#[cycle(respan)]
fn respan_trees(trees: &mut Items<TokenTree>, span: Span)
    ensures { trees.new ≡ map (tree_at span) trees.old }
{
    for i in 0..trees.len() {
        let ch = ' ';
        let joint = false;
        let mut tree = trees.replace(i, TokenTree::Punct(Punct { ch, joint, span }));
        respan_tree(&mut tree, span);
        trees.set(i, tree);
    }
}
