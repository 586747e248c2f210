//! What the tokens that come next begin.

ghost use Rattle.std.specs.Prelude.{◌≡◌};
ghost use Rattle.std.specs.Option.{option_copied};
ghost use Rattle.syn_items.specs.Attributes as attributes;
ghost use Rattle.syn_items.specs.Generics as generics;
ghost use Rattle.syn_items.specs.Items as items;
ghost use Rattle.syn_items.specs.Visibility as visibility;

use syn_grammar::{Word, ident_of, is_group, is_semicolon, next_word};
use tok_types::{Delimiter, Ident, TokenTree};

/// Which item begins at its keyword.
#[derive(Clone, Copy, Debug, PartialEq, Eq)]
pub enum ItemStart {
    Struct,
    Enum,
    Union,
    /// No item begins here.
    Nothing,
}

/// `union` is no keyword: it is one where an item may begin.
fn is_union(ident: Option<&Ident>) -> bool
    ensures { result ≡ items.is_union (option_copied ident.entry) }
{
    match ident {
        Some(ident) => !ident.raw && ident.text.as_str() == "union",
        None => false,
    }
}

/// Which item begins at its keyword.
#[tactic(auto, unfolding(crate::specs::Items::item_start))]
pub(crate) fn item_start(trees: &[TokenTree]) -> ItemStart
    ensures { result ≡ items.item_start trees.now }
{
    let word = next_word(trees);
    start_by(word, is_union(ident_of(trees)))
}

fn start_by(word: Word, union: bool) -> ItemStart
    ensures { result ≡ items.start_by word union }
{
    match word {
        Word::Struct => ItemStart::Struct,
        Word::Enum => ItemStart::Enum,
        _ => {
            if union {
                ItemStart::Union
            } else {
                ItemStart::Nothing
            }
        }
    }
}

/// Between which delimiters the group stands that comes next.
#[tactic(auto, unfolding(crate::specs::Attributes::delimiter_of))]
pub fn delimiter_of(trees: &[TokenTree]) -> Option<Delimiter>
    ensures { result ≡ attributes.delimiter_of trees.now }
{
    match trees.first() {
        Some(TokenTree::Group(group)) => Some(group.get().delimiter),
        _ => None,
    }
}

/// The word `crate`, `self` or `super` that comes next.
#[tactic(auto, unfolding(crate::specs::Visibility::scope_word))]
pub(crate) fn scope_word(trees: &[TokenTree]) -> Option<&Ident>
    ensures { option_copied result ≡ visibility.scope_word trees.now }
{
    let ident = ident_of(trees)?;
    if ident.raw || !is_scope(ident.text.as_str()) {
        return None;
    }
    Some(ident)
}

fn is_scope(name: &str) -> bool
    ensures { result ≡ visibility.is_scope name.now }
{
    matches!(name, "crate" | "self" | "super")
}

/// What a `where` clause stands before: nothing, `;` or a body in braces.
pub(crate) fn ends_where(trees: &[TokenTree]) -> bool
    ensures { result ≡ generics.ends_where trees.now }
{
    trees.is_empty() || is_semicolon(trees) || is_group(Delimiter::Brace, trees)
}
