//! The tokens that are left, and what a rule asks of them and takes from them.

ghost use Rattle.std.specs.Prelude.{◌≡◌, ◌-◌, length, take, option_map, Some, IfOk};
ghost use Rattle.syn_grammar.specs.Input as spec;
ghost use Rattle.syn_grammar.specs.Token as token;
ghost use Rattle.syn_grammar.specs.Words as words;
ghost use Rattle.syn_grammar.specs.Literals as literals;
ghost use Rattle.syn_grammar.specs.Steps.{Expects, Takes, Finishes};

use crate::fail::ReadFail;
use crate::literal::index_of;
use crate::token::{
    contents_of, ident_of, is_arrow, is_colon, is_colons, is_mark, lifetime_of, literal_of, span_of,
};
use crate::word::{Word, name_of, peek, segment_word};
use base_core::{Items, Mem, TryClone};
use node_expr::LitInt;
use std::alloc::Global;
use std::marker::Model;
use tok_types::{Ident, Lifetime, Literal, Span, TokenTree};

/// The tokens that are left of a list, and where the last one that was read stands.
#[derive(Drop)]
pub struct Cursor<'a> {
    rest: &'a [TokenTree],
    last: Span,
}

impl<'a> Model for Cursor<'a> {
    ghost use Rattle.syn_grammar.specs.Input.{Input};
    ghost use Rattle.tok_types.specs.contracts.tree.TokenTree as tree;
    ghost use Rattle.std.specs.Coded.{codes};

    ghost Value = { Input };

    ghost coded = { Prim.hlevel (codes, tree.the_row.coded) };

    ghost view = { λ cursor. record { rest = cursor.rest.now; last = cursor.last } };
}

impl<'a> Cursor<'a> {
    /// All of a list of tokens.
    pub fn new(trees: &'a [TokenTree]) -> Cursor<'a>
        ensures { result ≡ spec.start_of trees.now }
    {
        Cursor {
            rest: trees,
            last: Span::CallSite,
        }
    }

    /// The tokens that are left.
    pub fn rest(&self) -> &'a [TokenTree]
        ensures { result.now ≡ self.now.rest }
    {
        self.rest
    }

    /// How many tokens are left.
    pub fn left(&self) -> usize
        ensures { result ≡ length self.now.rest }
    {
        self.rest.len()
    }

    pub fn at_end(&self) -> bool
        ensures { result ≡ spec.is_end self.now.rest }
    {
        self.rest.is_empty()
    }

    /// Where the next token stands.
    #[tactic(auto, unfolding(crate::specs::Input::first_span))]
    pub fn here(&self) -> Span
        ensures { result ≡ spec.first_span self.now.rest }
    {
        match self.rest.first() {
            Some(tree) => span_of(tree),
            None => Span::CallSite,
        }
    }

    /// From `start` to the end of the last token that was read.
    pub fn upto(&self, start: Span) -> Span
        ensures { spec.upto start self.now ≡ Some (result, self.now) }
    {
        start.join(self.last)
    }

    /// Takes the next token.
    #[tactic(auto, unfolding(crate::specs::Input::next))]
    pub fn skip(&mut self)
        ensures { self.new ≡ spec.next self.old }
    {
        if let [tree, rest @ ..] = self.rest {
            self.rest = rest;
            self.last = span_of(tree);
        }
    }

    /// Takes so many tokens.
    pub fn skip_by(&mut self, count: usize)
        ensures { self.new ≡ spec.skipped count self.old }
    {
        for _turn in 0..count {
            self.skip();
        }
    }

    #[tactic(auto, unfolding(crate::specs::Input::after_eat))]
    fn eat(&mut self, found: bool, count: usize) -> bool
        ensures found { result ≡ found }
        ensures after { self.new ≡ spec.after_eat count found self.old }
    {
        if found {
            self.skip_by(count);
        }
        found
    }

    fn expect(&mut self, found: bool, count: usize) -> Result<(), ReadFail>
        ensures { Expects count found self.old result self.new }
    {
        if found {
            self.skip_by(count);
            Ok(())
        } else {
            Err(ReadFail::Syntax)
        }
    }

    /// Takes this mark, if it comes next.
    pub fn eat_mark(&mut self, ch: char) -> bool
        ensures found { result ≡ token.is_mark ch self.old.rest }
        ensures after { self.new ≡ spec.after_eat 1 (token.is_mark ch self.old.rest) self.old }
    {
        self.eat(is_mark(ch, self.rest), 1)
    }

    /// Takes this mark, which must come next.
    pub fn expect_mark(&mut self, ch: char) -> Result<(), ReadFail>
        ensures { Expects 1 (token.is_mark ch self.old.rest) self.old result self.new }
    {
        self.expect(is_mark(ch, self.rest), 1)
    }

    /// Takes `:`, if it comes next.
    pub fn eat_colon(&mut self) -> bool
        ensures found { result ≡ token.is_colon self.old.rest }
        ensures after { self.new ≡ spec.after_eat 1 (token.is_colon self.old.rest) self.old }
    {
        self.eat(is_colon(self.rest), 1)
    }

    /// Takes `:`, which must come next.
    pub fn expect_colon(&mut self) -> Result<(), ReadFail>
        ensures { Expects 1 (token.is_colon self.old.rest) self.old result self.new }
    {
        self.expect(is_colon(self.rest), 1)
    }

    /// Takes `::`, if it comes next.
    pub fn eat_colons(&mut self) -> bool
        ensures found { result ≡ token.is_colons self.old.rest }
        ensures after { self.new ≡ spec.after_eat 2 (token.is_colons self.old.rest) self.old }
    {
        self.eat(is_colons(self.rest), 2)
    }

    /// Takes `->`, if it comes next.
    pub fn eat_arrow(&mut self) -> bool
        ensures found { result ≡ token.is_arrow self.old.rest }
        ensures after { self.new ≡ spec.after_eat 2 (token.is_arrow self.old.rest) self.old }
    {
        self.eat(is_arrow(self.rest), 2)
    }

    /// Takes `::`, which must come next.
    pub fn expect_colons(&mut self) -> Result<(), ReadFail>
        ensures { Expects 2 (token.is_colons self.old.rest) self.old result self.new }
    {
        self.expect(is_colons(self.rest), 2)
    }

    /// Takes this word, if it comes next.
    pub fn eat_word(&mut self, wanted: Word) -> bool
        ensures found { result ≡ words.peek wanted self.old.rest }
        ensures after { self.new ≡ spec.after_eat 1 (words.peek wanted self.old.rest) self.old }
    {
        self.eat(peek(wanted, self.rest), 1)
    }

    /// Takes this word, which must come next.
    pub fn expect_word(&mut self, wanted: Word) -> Result<(), ReadFail>
        ensures { Expects 1 (words.peek wanted self.old.rest) self.old result self.new }
    {
        self.expect(peek(wanted, self.rest), 1)
    }

    /// Takes an identifier.
    pub fn take_name(&mut self, alloc: Global) -> Result<Ident, ReadFail>
        ensures { Takes (words.name_of self.old.rest) self.old result self.new }
    {
        let Some(ident) = name_of(self.rest) else {
            return Err(ReadFail::Syntax);
        };
        let ident = ident.try_clone(alloc)?;
        self.skip();
        Ok(ident)
    }

    /// Takes an identifier token, a keyword too.
    pub fn take_word(&mut self, alloc: Global) -> Result<Ident, ReadFail>
        ensures { Takes (token.ident_of self.old.rest) self.old result self.new }
    {
        let Some(ident) = ident_of(self.rest) else {
            return Err(ReadFail::Syntax);
        };
        let ident = ident.try_clone(alloc)?;
        self.skip();
        Ok(ident)
    }

    /// Takes the word of a segment.
    pub fn take_segment_word(&mut self, alloc: Global) -> Result<Ident, ReadFail>
        ensures { Takes (words.segment_word self.old.rest) self.old result self.new }
    {
        let Some(ident) = segment_word(self.rest) else {
            return Err(ReadFail::Syntax);
        };
        let ident = ident.try_clone(alloc)?;
        self.skip();
        Ok(ident)
    }

    pub fn take_lifetime(&mut self, alloc: Global) -> Result<Lifetime, ReadFail>
        ensures { Takes (token.lifetime_of self.old.rest) self.old result self.new }
    {
        let Some(lifetime) = lifetime_of(self.rest) else {
            return Err(ReadFail::Syntax);
        };
        let lifetime = lifetime.try_clone(alloc)?;
        self.skip();
        Ok(lifetime)
    }

    pub fn take_literal(&mut self, alloc: Global) -> Result<Literal, ReadFail>
        ensures { Takes (token.literal_of self.old.rest) self.old result self.new }
    {
        let Some(literal) = literal_of(self.rest) else {
            return Err(ReadFail::Syntax);
        };
        let literal = literal.try_clone(alloc)?;
        self.skip();
        Ok(literal)
    }

    /// The tokens in the group that comes next.
    pub fn contents(&self) -> Cursor<'a>
        ensures { result ≡ spec.start_of (token.contents_of self.now.rest) }
    {
        Cursor::new(contents_of(self.rest))
    }

    /// Nothing may be left.
    pub fn finish(&self) -> Result<(), ReadFail>
        ensures { Finishes self.now result }
    {
        if self.at_end() {
            Ok(())
        } else {
            Err(ReadFail::Syntax)
        }
    }

    /// Takes an identifier and keeps nothing of it.
    pub fn expect_name(&mut self) -> Result<(), ReadFail>
        ensures { Takes (option_map (λ name. tt) (words.name_of self.old.rest)) self.old result self.new }
    {
        if name_of(self.rest).is_none() {
            return Err(ReadFail::Syntax);
        }
        self.skip();
        Ok(())
    }

    /// Takes the index of a field: a decimal integer without a suffix.
    pub fn take_index(&mut self, alloc: Global) -> Result<LitInt, ReadFail>
        ensures { Takes (literals.index_of self.old.rest) self.old result self.new }
    {
        let Some(index) = index_of(alloc, self.rest)? else {
            return Err(ReadFail::Syntax);
        };
        self.skip();
        Ok(index)
    }

    /// What was read of the tokens `before`.
    pub fn read_since(&self, alloc: Global, before: &[TokenTree]) -> Mem<Items<TokenTree>>
        ensures { IfOk result (λ kept. kept ≡ take (length before.now - length self.now.rest) before.now) }
    {
        let count = before.len().saturating_sub(self.rest.len());
        let mut kept = Items::new(alloc);
        kept.extend_from_slice(alloc, &before[..count])?;
        Ok(kept)
    }
}
