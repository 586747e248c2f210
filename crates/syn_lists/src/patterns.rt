//! Patterns, which are kept as tokens. They are read for where they end.

ghost use Rattle.std.specs.Prelude.{◌≡◌, Some};
ghost use Rattle.syn_grammar.specs.Input.{after_eat};
ghost use Rattle.syn_grammar.specs.Patterns as spec;
ghost use Rattle.syn_grammar.specs.Reads.{Gives};
ghost use Rattle.syn_grammar.specs.Words.{next_word};

use syn_grammar::{Cursor, ReadFail, Word, is_group, next_word};
use tok_types::Delimiter;

/// How many parentheses of a pattern stand in each other, as many as a text has.
pub const MAX_PATTERN: usize = 128;

/// Takes the marks `&` that come next.
fn skip_ands(tokens: &mut Cursor<'_>)
    ensures { spec.skip_ands tokens.old ≡ Some (tt, tokens.new) }
{
    for _turn in 0..tokens.left() {
        if !tokens.eat_mark('&') {
            return;
        }
    }
}

fn is_underscore(word: Word) -> bool
    ensures { result ≡ spec.is_underscore word }
{
    matches!(word, Word::Underscore)
}

/// Takes `_`, if it comes next.
#[tactic(auto, unfolding(syn_grammar::specs::Input::after_eat, syn_grammar::specs::Input::skipped))]
fn eat_underscore(tokens: &mut Cursor<'_>) -> bool
    ensures found { result ≡ spec.is_underscore (next_word tokens.old.rest) }
    ensures after { tokens.new ≡ after_eat 1 (spec.is_underscore (next_word tokens.old.rest)) tokens.old }
{
    if is_underscore(next_word(tokens.rest())) {
        tokens.skip();
        true
    } else {
        false
    }
}

/// `_`, `a`, `mut a`
#[tactic(auto, unfolding(syn_grammar::specs::Patterns::pattern_word))]
fn pattern_word(tokens: &mut Cursor<'_>) -> Result<(), ReadFail>
    ensures { Gives (spec.pattern_word tokens.old) result tokens.new }
{
    if eat_underscore(tokens) {
        return Ok(());
    }
    tokens.eat_word(Word::Mut);
    tokens.expect_name()
}

/// A pattern with at most so many parentheses in each other.
#[cycle(patterns)]
#[tactic(auto, unfolding(syn_grammar::specs::Patterns::pattern))]
pub fn pattern(tokens: &mut Cursor<'_>, limit: usize) -> Result<(), ReadFail>
    ensures { Gives (spec.pattern limit tokens.old) result tokens.new }
{
    skip_ands(tokens);
    if limit == 0 || !is_group(Delimiter::Parenthesis, tokens.rest()) {
        return pattern_word(tokens);
    }
    let mut inner = tokens.contents();
    patterns(&mut inner, limit - 1)?;
    inner.finish()?;
    tokens.skip();
    Ok(())
}

/// A list of patterns with at most so many parentheses in each other.
#[cycle(patterns)]
pub(crate) fn patterns(tokens: &mut Cursor<'_>, limit: usize) -> Result<(), ReadFail>
    ensures { Gives (spec.patterns limit tokens.old) result tokens.new }
{
    for _turn in 0..tokens.left() {
        if tokens.at_end() {
            return Ok(());
        }
        pattern(tokens, limit)?;
        if !tokens.eat_mark(',') {
            return Ok(());
        }
    }
    tokens.finish()
}
