//! One token of a list, and marks of several characters.

ghost use Rattle.std.specs.Prelude.{◌≡◌};
ghost use Rattle.std.specs.Option.{option_copied};
ghost use Rattle.syn_grammar.specs.Token as token;

use tok_types::{Delimiter, Ident, Lifetime, Literal, Span, TokenTree};

/// Where a token stands.
#[tactic(auto, unfolding(crate::specs::Token::span_of))]
pub fn span_of(tree: &TokenTree) -> Span
    ensures { result ≡ token.span_of tree.now }
{
    match tree {
        TokenTree::Ident(ident) => ident.span,
        TokenTree::Lifetime(lifetime) => lifetime.ident.span,
        TokenTree::Punct(punct) => punct.span,
        TokenTree::Literal(literal) => literal.span,
        TokenTree::Group(group) => group.get().span,
    }
}

/// Whether a group between these delimiters comes next.
#[tactic(auto, unfolding(crate::specs::Token::is_group))]
pub fn is_group(between: Delimiter, trees: &[TokenTree]) -> bool
    ensures { result ≡ token.is_group between trees.now }
{
    match trees.first() {
        Some(TokenTree::Group(group)) => group.get().delimiter == between,
        _ => false,
    }
}

/// The tokens in the group that comes next.
#[tactic(auto, unfolding(crate::specs::Token::contents_of))]
pub fn contents_of(trees: &[TokenTree]) -> &[TokenTree]
    ensures { result.now ≡ token.contents_of trees.now }
{
    match trees.first() {
        Some(TokenTree::Group(group)) => group.get().stream.trees.as_slice(),
        _ => &[],
    }
}

/// The identifier token that comes next, a keyword too.
#[tactic(auto, unfolding(crate::specs::Token::ident_of))]
pub fn ident_of(trees: &[TokenTree]) -> Option<&Ident>
    ensures { option_copied result ≡ token.ident_of trees.now }
{
    match trees.first() {
        Some(TokenTree::Ident(ident)) => Some(ident),
        _ => None,
    }
}

#[tactic(auto, unfolding(crate::specs::Token::lifetime_of))]
pub fn lifetime_of(trees: &[TokenTree]) -> Option<&Lifetime>
    ensures { option_copied result ≡ token.lifetime_of trees.now }
{
    match trees.first() {
        Some(TokenTree::Lifetime(lifetime)) => Some(lifetime),
        _ => None,
    }
}

#[tactic(auto, unfolding(crate::specs::Token::literal_of))]
pub fn literal_of(trees: &[TokenTree]) -> Option<&Literal>
    ensures { option_copied result ≡ token.literal_of trees.now }
{
    match trees.first() {
        Some(TokenTree::Literal(literal)) => Some(literal),
        _ => None,
    }
}

/// The mark that comes next.
#[tactic(auto, unfolding(crate::specs::Token::mark_of))]
pub fn mark_of(trees: &[TokenTree]) -> char
    ensures { result ≡ token.mark_of trees.now }
{
    match trees.first() {
        Some(TokenTree::Punct(punct)) => punct.ch,
        _ => '\0',
    }
}

/// Whether a joint mark comes next.
#[tactic(auto, unfolding(crate::specs::Token::is_joint))]
pub fn is_joint(trees: &[TokenTree]) -> bool
    ensures { result ≡ token.is_joint trees.now }
{
    match trees.first() {
        Some(TokenTree::Punct(punct)) => punct.joint,
        _ => false,
    }
}

/// What follows the next token.
pub fn after_one(trees: &[TokenTree]) -> &[TokenTree]
    ensures { result.now ≡ token.after_one trees.now }
{
    match trees {
        [] => trees,
        [_, rest @ ..] => rest,
    }
}

pub fn is_mark(ch: char, trees: &[TokenTree]) -> bool
    ensures { result ≡ token.is_mark ch trees.now }
{
    mark_of(trees) == ch
}

/// Whether a joint mark and its follower come next.
#[tactic(auto, unfolding(crate::specs::Token::is_pair))]
pub fn is_pair(first: char, second: char, trees: &[TokenTree]) -> bool
    ensures { result ≡ token.is_pair first second trees.now }
{
    is_joint(trees) && mark_of(trees) == first && mark_of(after_one(trees)) == second
}

/// `,`
pub fn is_comma(trees: &[TokenTree]) -> bool
    ensures { result ≡ token.is_comma trees.now }
{
    is_mark(',', trees)
}

/// `;`
pub fn is_semicolon(trees: &[TokenTree]) -> bool
    ensures { result ≡ token.is_semicolon trees.now }
{
    is_mark(';', trees)
}

/// `=`
pub fn is_equals(trees: &[TokenTree]) -> bool
    ensures { result ≡ token.is_equals trees.now }
{
    is_mark('=', trees)
}

/// `<`
pub fn is_less(trees: &[TokenTree]) -> bool
    ensures { result ≡ token.is_less trees.now }
{
    is_mark('<', trees)
}

/// `>`
pub fn is_greater(trees: &[TokenTree]) -> bool
    ensures { result ≡ token.is_greater trees.now }
{
    is_mark('>', trees)
}

/// `|`
pub fn is_bar(trees: &[TokenTree]) -> bool
    ensures { result ≡ token.is_bar trees.now }
{
    is_mark('|', trees)
}

/// `&`
pub fn is_and(trees: &[TokenTree]) -> bool
    ensures { result ≡ token.is_and trees.now }
{
    is_mark('&', trees)
}

/// `+`
pub fn is_plus(trees: &[TokenTree]) -> bool
    ensures { result ≡ token.is_plus trees.now }
{
    is_mark('+', trees)
}

/// `?`
pub fn is_question(trees: &[TokenTree]) -> bool
    ensures { result ≡ token.is_question trees.now }
{
    is_mark('?', trees)
}

/// `::`
pub fn is_colons(trees: &[TokenTree]) -> bool
    ensures { result ≡ token.is_colons trees.now }
{
    is_pair(':', ':', trees)
}

/// `:` and no second one
pub fn is_colon(trees: &[TokenTree]) -> bool
    ensures { result ≡ token.is_colon trees.now }
{
    is_mark(':', trees) && !is_colons(trees)
}

/// `->`
pub fn is_arrow(trees: &[TokenTree]) -> bool
    ensures { result ≡ token.is_arrow trees.now }
{
    is_pair('-', '>', trees)
}

/// `..`
pub fn is_dots(trees: &[TokenTree]) -> bool
    ensures { result ≡ token.is_dots trees.now }
{
    is_pair('.', '.', trees)
}

/// `..=`
pub fn is_closed_dots(trees: &[TokenTree]) -> bool
    ensures { result ≡ token.is_closed_dots trees.now }
{
    is_dots(trees) && is_pair('.', '=', after_one(trees))
}

/// `::<`
pub fn is_turbofish(trees: &[TokenTree]) -> bool
    ensures { result ≡ token.is_turbofish trees.now }
{
    is_colons(trees) && is_less(after_one(after_one(trees)))
}
