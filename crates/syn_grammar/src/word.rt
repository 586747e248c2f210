//! What an identifier token is to the grammar: a name, or which keyword.

ghost use Rattle.std.specs.Prelude.{◌≡◌, map};
ghost use Rattle.std.specs.Option.{option_copied};
ghost use Rattle.syn_grammar.specs.Words.{word_of, looked_up, keywords, next_word, name_of, segment_word, peek};

use crate::token::ident_of;
use tok_types::{Ident, TokenTree};

/// What a word is to the grammar.
#[derive(Clone, Copy, Debug, PartialEq, Eq)]
pub enum Word {
    /// No word comes next.
    None,
    /// An identifier.
    Name,
    /// `_`
    Underscore,
    /// `self`, `Self`, `super` or `crate`, which a path may have as a segment.
    PathStart,
    True,
    False,
    As,
    Const,
    Dyn,
    Enum,
    Fn,
    For,
    Impl,
    In,
    Move,
    Mut,
    Pub,
    Struct,
    Where,
    /// A keyword that no rule names.
    Keyword,
}

// The keywords by their lengths, each with what it is to the grammar: a name is compared with those of its own length.

const OF_ONE: [(&str, Word); 1] = [("_", Word::Underscore)];

const OF_TWO: [(&str, Word); 5] = [
    ("as", Word::As),
    ("fn", Word::Fn),
    ("in", Word::In),
    ("do", Word::Keyword),
    ("if", Word::Keyword),
];

const OF_THREE: [(&str, Word); 10] = [
    ("dyn", Word::Dyn),
    ("for", Word::For),
    ("mut", Word::Mut),
    ("pub", Word::Pub),
    ("box", Word::Keyword),
    ("let", Word::Keyword),
    ("mod", Word::Keyword),
    ("ref", Word::Keyword),
    ("try", Word::Keyword),
    ("use", Word::Keyword),
];

const OF_FOUR: [(&str, Word); 10] = [
    ("enum", Word::Enum),
    ("impl", Word::Impl),
    ("move", Word::Move),
    ("Self", Word::PathStart),
    ("self", Word::PathStart),
    ("true", Word::True),
    ("else", Word::Keyword),
    ("loop", Word::Keyword),
    ("priv", Word::Keyword),
    ("type", Word::Keyword),
];

const OF_FIVE: [(&str, Word); 14] = [
    ("const", Word::Const),
    ("crate", Word::PathStart),
    ("false", Word::False),
    ("super", Word::PathStart),
    ("where", Word::Where),
    ("async", Word::Keyword),
    ("await", Word::Keyword),
    ("break", Word::Keyword),
    ("final", Word::Keyword),
    ("macro", Word::Keyword),
    ("match", Word::Keyword),
    ("trait", Word::Keyword),
    ("while", Word::Keyword),
    ("yield", Word::Keyword),
];

const OF_SIX: [(&str, Word); 7] = [
    ("struct", Word::Struct),
    ("become", Word::Keyword),
    ("extern", Word::Keyword),
    ("return", Word::Keyword),
    ("static", Word::Keyword),
    ("typeof", Word::Keyword),
    ("unsafe", Word::Keyword),
];

const OF_SEVEN: [(&str, Word); 2] = [("unsized", Word::Keyword), ("virtual", Word::Keyword)];

const OF_EIGHT: [(&str, Word); 3] = [
    ("abstract", Word::Keyword),
    ("continue", Word::Keyword),
    ("override", Word::Keyword),
];

/// What a word is to the grammar. A raw identifier is a name, whatever its text.
#[tactic(auto, unfolding(crate::specs::Words::word_of), using(crate::proofs::Keywords::keyword_or_name))]
pub fn word_of(ident: &Ident) -> Word
    ensures { result ≡ word_of ident.now }
{
    if ident.raw {
        return Word::Name;
    }
    keyword(ident.text.as_str()).unwrap_or(Word::Name)
}

/// Which keyword the name is.
fn keyword(name: &str) -> Option<Word>
    ensures { result ≡ looked_up keywords name.now }
{
    match name.len() {
        1 => looked_up(&OF_ONE, name),
        2 => looked_up(&OF_TWO, name),
        3 => looked_up(&OF_THREE, name),
        4 => looked_up(&OF_FOUR, name),
        5 => looked_up(&OF_FIVE, name),
        6 => looked_up(&OF_SIX, name),
        7 => looked_up(&OF_SEVEN, name),
        8 => looked_up(&OF_EIGHT, name),
        _ => None,
    }
}

/// The word that comes next.
#[tactic(auto, unfolding(crate::specs::Words::next_word))]
pub fn next_word(trees: &[TokenTree]) -> Word
    ensures { result ≡ next_word trees.now }
{
    match ident_of(trees) {
        Some(ident) => word_of(ident),
        None => Word::None,
    }
}

/// The identifier that comes next.
#[tactic(auto, unfolding(crate::specs::Words::name_of))]
pub fn name_of(trees: &[TokenTree]) -> Option<&Ident>
    ensures { option_copied result ≡ name_of trees.now }
{
    match next_word(trees) {
        Word::Name => ident_of(trees),
        _ => None,
    }
}

/// The word of a path's segment that comes next.
#[tactic(auto, unfolding(crate::specs::Words::segment_word))]
pub fn segment_word(trees: &[TokenTree]) -> Option<&Ident>
    ensures { option_copied result ≡ segment_word trees.now }
{
    match next_word(trees) {
        Word::Name | Word::PathStart => ident_of(trees),
        _ => None,
    }
}

/// Whether this word comes next.
pub fn peek(wanted: Word, trees: &[TokenTree]) -> bool
    ensures { result ≡ peek wanted trees.now }
{
    next_word(trees) == wanted
}

fn looked_up(rows: &[(&str, Word)], name: &str) -> Option<Word>
    ensures { result ≡ looked_up (map (λ row. (row.0.now, row.1)) rows.now) name.now }
{
    for row in rows {
        if row.0 == name {
            return Some(row.1);
        }
    }
    None
}
