//! What stands behind an operand: calls, fields, indexes and `?`.
//!
//! Each rule of one of them takes what stands before it as `left` or by another name, and the depth of
//! that. What it gives may be one deeper than a whole may be, and the loop over them refuses it then.

ghost use Rattle.std.specs.Prelude.{◌≡◌, ◌+◌, ◌≤◌};
ghost use Rattle.tok_types.specs.declared.tree.Delimiter.TheVariants as delimiter;
ghost use Rattle.syn_grammar.specs.Depth.{expr_depth};
ghost use Rattle.syn_grammar.specs.Expressions as spec;
ghost use Rattle.syn_grammar.specs.Grammar.{within};
ghost use Rattle.syn_grammar.specs.Input.{inside};
ghost use Rattle.syn_grammar.specs.Readers.{any_level};
ghost use Rattle.syn_grammar.specs.Reads.{Reads, ReadsKept};
ghost use Rattle.syn_lists.specs.Lists.{all_depth};
ghost use Rattle.syn_rules.specs.Postfixes.{goes_on};

use crate::rules::ExprRules;
use base_core::Items;
use node_expr::{Expr, Member};
use node_make::make;
use syn_grammar::{
    AtomStart, Cursor, PostfixStart, ReadFail, is_group, is_turbofish, name_of, postfix_start,
};
use syn_lists::Parsed;
use syn_types::{ANY_LEVEL, ReadParts};
use tok_types::{Delimiter, Ident, Span};

fn goes_on(begins: PostfixStart) -> bool
    ensures { result ≡ goes_on begins }
{
    !matches!(begins, PostfixStart::Nothing)
}

impl<R: ReadParts> ExprRules<R> {
    /// `(a, b)`
    fn args(&self, tokens: &mut Cursor<'_>) -> Parsed<Items<Expr>>
        requires { R.reads_within self.now.rules.parts self.now.rules.depth }
        ensures { Reads (all_depth expr_depth) self.now.rules.depth (spec.args (within self.now.rules.depth) tokens.old) result tokens.new }
    {
        if !is_group(Delimiter::Parenthesis, tokens.rest()) {
            return Err(ReadFail::Syntax);
        }
        let mut inner = tokens.contents();
        let args = self.exprs(&mut inner, Items::new(self.rules.alloc), 0)?;
        inner.finish()?;
        tokens.skip();
        Ok(args)
    }

    /// `.name::<T>(a, b)`
    #[tactic(auto, unfolding(syn_grammar::specs::Expressions::turbofish_call), using(syn_grammar::proofs::Depths::depths))]
    fn turbofish_call(
        &self,
        tokens: &mut Cursor<'_>,
        start: Span,
        receiver: Expr,
        depth: usize,
        method: Ident,
    ) -> Parsed<Expr>
        requires reads_within { R.reads_within self.now.rules.parts self.now.rules.depth }
        requires depth { depth ≡ expr_depth receiver }
        requires limit { depth ≤ self.now.rules.depth + 1 }
        ensures { Reads expr_depth (self.now.rules.depth + 2) (spec.turbofish_call (within self.now.rules.depth) start receiver method tokens.old) result tokens.new }
    {
        tokens.skip_by(3);
        let (turbofish, turbofish_depth) = self.rules.angle_arguments(tokens)?;
        let (args, args_depth) = self.args(tokens)?;
        let span = tokens.upto(start);
        let call = make::expr_method_call(
            self.rules.alloc,
            receiver,
            method,
            turbofish,
            args,
            span,
        )?;
        Ok((call, depth.max(turbofish_depth).max(args_depth) + 1))
    }

    /// `.name(a, b)`
    #[tactic(auto, unfolding(syn_grammar::specs::Expressions::method_call), using(syn_grammar::proofs::Depths::depths))]
    fn method_call(
        &self,
        tokens: &mut Cursor<'_>,
        start: Span,
        receiver: Expr,
        depth: usize,
        method: Ident,
    ) -> Parsed<Expr>
        requires reads_within { R.reads_within self.now.rules.parts self.now.rules.depth }
        requires depth { depth ≡ expr_depth receiver }
        requires limit { depth ≤ self.now.rules.depth + 1 }
        ensures { Reads expr_depth (self.now.rules.depth + 2) (spec.method_call (within self.now.rules.depth) start receiver method tokens.old) result tokens.new }
    {
        let (args, args_depth) = self.args(tokens)?;
        let span = tokens.upto(start);
        let none = Items::new(self.rules.alloc);
        let call = make::expr_method_call(self.rules.alloc, receiver, method, none, args, span)?;
        Ok((call, depth.max(args_depth) + 1))
    }

    /// `.name`, `.0`
    #[tactic(auto, unfolding(syn_grammar::specs::Expressions::field), using(syn_grammar::proofs::Depths::depths))]
    fn field(
        &self,
        tokens: &mut Cursor<'_>,
        start: Span,
        base: Expr,
        depth: usize,
        member: Member,
    ) -> Parsed<Expr>
        requires reads_within { R.reads_within self.now.rules.parts self.now.rules.depth }
        requires depth { depth ≡ expr_depth base }
        requires limit { depth ≤ self.now.rules.depth + 1 }
        ensures { Reads expr_depth (self.now.rules.depth + 2) (spec.field (within self.now.rules.depth) start base member tokens.old) result tokens.new }
    {
        let span = tokens.upto(start);
        let field = make::expr_field(self.rules.alloc, base, member, span)?;
        Ok((field, depth + 1))
    }

    #[tactic(auto, unfolding(syn_grammar::specs::Expressions::named_member))]
    fn named_member(
        &self,
        tokens: &mut Cursor<'_>,
        start: Span,
        base: Expr,
        depth: usize,
        name: Ident,
    ) -> Parsed<Expr>
        requires reads_within { R.reads_within self.now.rules.parts self.now.rules.depth }
        requires depth { depth ≡ expr_depth base }
        requires limit { depth ≤ self.now.rules.depth + 1 }
        ensures { Reads expr_depth (self.now.rules.depth + 2) (spec.named_member (within self.now.rules.depth) start base name tokens.old) result tokens.new }
    {
        if is_turbofish(tokens.rest()) {
            self.turbofish_call(tokens, start, base, depth, name)
        } else if is_group(Delimiter::Parenthesis, tokens.rest()) {
            self.method_call(tokens, start, base, depth, name)
        } else {
            self.field(tokens, start, base, depth, Member::Named(name))
        }
    }

    /// What stands behind a `.`.
    #[tactic(auto, unfolding(syn_grammar::specs::Expressions::member))]
    fn member(&self, tokens: &mut Cursor<'_>, start: Span, base: Expr, depth: usize) -> Parsed<Expr>
        requires reads_within { R.reads_within self.now.rules.parts self.now.rules.depth }
        requires depth { depth ≡ expr_depth base }
        requires limit { depth ≤ self.now.rules.depth + 1 }
        ensures { Reads expr_depth (self.now.rules.depth + 2) (spec.member (within self.now.rules.depth) start base tokens.old) result tokens.new }
    {
        if name_of(tokens.rest()).is_some() {
            let name = tokens.take_name(self.rules.alloc)?;
            return self.named_member(tokens, start, base, depth, name);
        }
        let index = tokens.take_index(self.rules.alloc)?;
        self.field(tokens, start, base, depth, Member::Unnamed(index))
    }

    /// `func(a, b)`
    #[tactic(auto, unfolding(syn_grammar::specs::Expressions::call), using(syn_grammar::proofs::Depths::depths))]
    fn call(&self, tokens: &mut Cursor<'_>, start: Span, func: Expr, depth: usize) -> Parsed<Expr>
        requires reads_within { R.reads_within self.now.rules.parts self.now.rules.depth }
        requires depth { depth ≡ expr_depth func }
        requires limit { depth ≤ self.now.rules.depth + 1 }
        ensures { Reads expr_depth (self.now.rules.depth + 2) (spec.call (within self.now.rules.depth) start func tokens.old) result tokens.new }
    {
        let (args, args_depth) = self.args(tokens)?;
        let span = tokens.upto(start);
        let call = make::expr_call(self.rules.alloc, func, args, span)?;
        Ok((call, depth.max(args_depth) + 1))
    }

    /// `[index]`
    fn bracketed(&self, tokens: &mut Cursor<'_>) -> Parsed<Expr>
        requires { R.reads_within self.now.rules.parts self.now.rules.depth }
        ensures { Reads expr_depth self.now.rules.depth (inside delimiter.Bracket ((within self.now.rules.depth).expr any_level) tokens.old) result tokens.new }
    {
        if !is_group(Delimiter::Bracket, tokens.rest()) {
            return Err(ReadFail::Syntax);
        }
        let mut inner = tokens.contents();
        let found = self.rules.expr(&mut inner, ANY_LEVEL)?;
        inner.finish()?;
        tokens.skip();
        Ok(found)
    }

    /// `base[index]`
    #[tactic(auto, unfolding(syn_grammar::specs::Expressions::index), using(syn_grammar::proofs::Depths::depths))]
    fn index(&self, tokens: &mut Cursor<'_>, start: Span, base: Expr, depth: usize) -> Parsed<Expr>
        requires reads_within { R.reads_within self.now.rules.parts self.now.rules.depth }
        requires depth { depth ≡ expr_depth base }
        requires limit { depth ≤ self.now.rules.depth + 1 }
        ensures { Reads expr_depth (self.now.rules.depth + 2) (spec.index (within self.now.rules.depth) start base tokens.old) result tokens.new }
    {
        let (at, at_depth) = self.bracketed(tokens)?;
        let span = tokens.upto(start);
        let index = make::expr_index(self.rules.alloc, base, at, span)?;
        Ok((index, depth.max(at_depth) + 1))
    }

    /// `base?`
    #[tactic(auto, unfolding(syn_grammar::specs::Expressions::question), using(syn_grammar::proofs::Depths::depths))]
    fn question(
        &self,
        tokens: &mut Cursor<'_>,
        start: Span,
        base: Expr,
        depth: usize,
    ) -> Parsed<Expr>
        requires reads_within { R.reads_within self.now.rules.parts self.now.rules.depth }
        requires depth { depth ≡ expr_depth base }
        requires limit { depth ≤ self.now.rules.depth + 1 }
        ensures { Reads expr_depth (self.now.rules.depth + 2) (spec.question (within self.now.rules.depth) start base tokens.old) result tokens.new }
    {
        tokens.skip();
        let span = tokens.upto(start);
        let question = make::expr_try(self.rules.alloc, base, span)?;
        Ok((question, depth + 1))
    }

    /// One of them, which begins so.
    fn postfix(
        &self,
        tokens: &mut Cursor<'_>,
        start: Span,
        left: Expr,
        depth: usize,
        begins: PostfixStart,
    ) -> Parsed<Expr>
        requires reads_within { R.reads_within self.now.rules.parts self.now.rules.depth }
        requires depth { depth ≡ expr_depth left }
        requires limit { depth ≤ self.now.rules.depth + 1 }
        ensures { Reads expr_depth (self.now.rules.depth + 2) (spec.postfix_by (within self.now.rules.depth) start left begins tokens.old) result tokens.new }
    {
        match begins {
            PostfixStart::Call => self.call(tokens, start, left, depth),
            PostfixStart::Dot => {
                tokens.skip();
                self.member(tokens, start, left, depth)
            }
            PostfixStart::Index => self.index(tokens, start, left, depth),
            PostfixStart::Try => self.question(tokens, start, left, depth),
            PostfixStart::Nothing => Err(ReadFail::Syntax),
        }
    }

    /// All of them.
    #[inline(never)]
    fn postfixes(
        &self,
        tokens: &mut Cursor<'_>,
        start: Span,
        mut left: Expr,
        mut depth: usize,
    ) -> Parsed<Expr>
        requires reads_within { R.reads_within self.now.rules.parts self.now.rules.depth }
        requires depth { depth ≡ expr_depth left }
        requires limit { depth ≤ self.now.rules.depth + 1 }
        ensures { ReadsKept expr_depth (self.now.rules.depth + 1) (spec.postfixes (within self.now.rules.depth) start left tokens.old) result tokens.new }
    {
        for _turn in 0..tokens.left() {
            let begins = postfix_start(tokens.rest());
            if !goes_on(begins) {
                return Ok((left, depth));
            }
            let (longer, longer_depth) = self.postfix(tokens, start, left, depth, begins)?;
            if longer_depth > self.rules.depth + 1 {
                return Err(ReadFail::Syntax);
            }
            left = longer;
            depth = longer_depth;
        }
        tokens.finish()?;
        Ok((left, depth))
    }

    /// An atom and what stands behind it.
    #[tactic(auto, unfolding(syn_grammar::specs::Expressions::postfixed))]
    pub(crate) fn postfixed(&self, tokens: &mut Cursor<'_>, begins: AtomStart) -> Parsed<Expr>
        requires { R.reads_within self.now.rules.parts self.now.rules.depth }
        ensures { ReadsKept expr_depth (self.now.rules.depth + 1) (spec.postfixed (within self.now.rules.depth) begins tokens.old) result tokens.new }
    {
        let start = tokens.here();
        let (left, depth) = self.atom(tokens, begins)?;
        self.postfixes(tokens, start, left, depth)
    }
}
