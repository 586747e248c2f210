//! Atoms: the expressions that no operator and no mark stands before or behind.

ghost use Rattle.std.specs.Prelude.{◌≡◌, ◌+◌, ◌≤◌, Some};
ghost use Rattle.syn_grammar.specs.Depth.{expr_depth};
ghost use Rattle.syn_grammar.specs.Expressions as spec;
ghost use Rattle.syn_grammar.specs.Grammar.{within};
ghost use Rattle.syn_grammar.specs.Input.{first_span, items_after, next};
ghost use Rattle.syn_grammar.specs.Make as make;
ghost use Rattle.syn_grammar.specs.Reads.{Reads};
ghost use Rattle.syn_grammar.specs.Readers.{any_level};
ghost use Rattle.syn_lists.specs.Lists.{all_depth};

use crate::rules::ExprRules;
use base_core::Items;
use node_expr::{Expr, ExprArray, ExprPath, Lit, LitBool};
use node_make::make;
use std::alloc::Global;
use syn_grammar::{AtomStart, Cursor, ReadFail, Word, atom_start, is_group, lit_of, next_word};
use syn_lists::{Deepest, Parsed, ReadDeepItem, items_after};
use syn_types::{ANY_LEVEL, ReadParts};
use tok_types::{Delimiter, Span};

fn lit_bool(word: Word, span: Span) -> Expr
    ensures { result ≡ spec.lit_bool word span }
{
    let value = matches!(word, Word::True);
    Expr::Lit(Lit::Bool(LitBool { value, span }))
}

/// `true` or `false`
#[tactic(auto, unfolding(syn_grammar::specs::Expressions::expr_bool), using(syn_grammar::proofs::Depths::depths))]
fn expr_bool(tokens: &mut Cursor<'_>) -> Parsed<Expr>
    ensures { Reads expr_depth 1 (spec.expr_bool tokens.old) result tokens.new }
{
    let span = tokens.here();
    let expr = lit_bool(next_word(tokens.rest()), span);
    tokens.skip();
    Ok((expr, 1))
}

#[tactic(auto, unfolding(syn_grammar::specs::Expressions::literal), using(syn_grammar::proofs::Depths::depths))]
fn literal(alloc: Global, tokens: &mut Cursor<'_>) -> Parsed<Expr>
    ensures { Reads expr_depth 1 (spec.literal tokens.old) result tokens.new }
{
    let token = tokens.take_literal(alloc)?;
    let lit = lit_of(alloc, token)?;
    Ok((Expr::Lit(lit), 1))
}

fn expr_array(elems: Items<Expr>, span: Span) -> Expr
    ensures { result ≡ make.expr_array elems span }
{
    Expr::Array(ExprArray { elems, span })
}

/// `_`
#[tactic(auto, using(syn_grammar::proofs::Depths::depths))]
fn infer(tokens: &mut Cursor<'_>) -> Parsed<Expr>
    ensures { Reads expr_depth 1 (Some (Expr.Infer (first_span tokens.old.rest), next tokens.old)) result tokens.new }
{
    let span = tokens.here();
    tokens.skip();
    Ok((Expr::Infer { span }, 1))
}

impl<R: ReadParts> ReadDeepItem<Expr> for ExprRules<R> {
    ghost reader = { λ it. (within it.rules.depth).expr any_level };

    ghost ready = { λ it. R.reads_within it.rules.parts it.rules.depth };

    ghost size = { λ it. expr_depth };

    ghost limit = { λ it. it.rules.depth };

    fn read(&self, tokens: &mut Cursor<'_>) -> Parsed<Expr> {
        self.rules.expr(tokens, ANY_LEVEL)
    }
}

impl<R: ReadParts> ExprRules<R> {
    /// More expressions of a list, behind those that are `found`.
    pub(crate) fn exprs(
        &self,
        tokens: &mut Cursor<'_>,
        found: Items<Expr>,
        depth: usize,
    ) -> Parsed<Items<Expr>>
        requires reads_within { R.reads_within self.now.rules.parts self.now.rules.depth }
        requires depth { depth ≡ all_depth expr_depth found }
        requires limit { depth ≤ self.now.rules.depth }
        ensures { Reads (all_depth expr_depth) self.now.rules.depth (items_after ((within self.now.rules.depth).expr any_level) found tokens.old) result tokens.new }
    {
        let mut exprs = Deepest { inner: self, depth };
        let found = items_after(tokens, &mut exprs, found)?;
        Ok((found, exprs.depth))
    }

    /// What stands in `(..)`: a tuple where a comma stands, or nothing at all.
    #[tactic(auto, unfolding(syn_grammar::specs::Expressions::expr_group), using(syn_grammar::proofs::Depths::depths))]
    fn expr_group(&self, tokens: &mut Cursor<'_>, span: Span) -> Parsed<Expr>
        requires { R.reads_within self.now.rules.parts self.now.rules.depth }
        ensures { Reads expr_depth (self.now.rules.depth + 1) (spec.expr_group (within self.now.rules.depth) span tokens.old) result tokens.new }
    {
        if tokens.at_end() {
            let elems = Items::new(self.rules.alloc);
            return Ok((Expr::Tuple { elems, span }, 1));
        }
        let (first, depth) = self.rules.expr(tokens, ANY_LEVEL)?;
        if !tokens.eat_mark(',') {
            return Ok((make::expr_paren(self.rules.alloc, first, span)?, depth + 1));
        }
        let found = Items::of(self.rules.alloc, first)?;
        let (elems, depth) = self.exprs(tokens, found, depth)?;
        Ok((Expr::Tuple { elems, span }, depth + 1))
    }

    /// What stands in `[..]` behind the first expression: others, or how often it is repeated.
    #[tactic(auto, unfolding(syn_grammar::specs::Expressions::expr_elements), using(syn_grammar::proofs::Depths::depths, crate::proofs::Nodes::nodes))]
    fn expr_elements(
        &self,
        tokens: &mut Cursor<'_>,
        span: Span,
        first: Expr,
        depth: usize,
    ) -> Parsed<Expr>
        requires reads_within { R.reads_within self.now.rules.parts self.now.rules.depth }
        requires depth { depth ≡ expr_depth first }
        requires limit { depth ≤ self.now.rules.depth }
        ensures { Reads expr_depth (self.now.rules.depth + 1) (spec.expr_elements (within self.now.rules.depth) span first tokens.old) result tokens.new }
    {
        if tokens.eat_mark(';') {
            let (len, len_depth) = self.rules.expr(tokens, ANY_LEVEL)?;
            let repeat = make::expr_repeat(self.rules.alloc, first, len, span)?;
            return Ok((repeat, depth.max(len_depth) + 1));
        }
        let elems = Items::of(self.rules.alloc, first)?;
        if !tokens.eat_mark(',') {
            return Ok((expr_array(elems, span), depth + 1));
        }
        let (elems, depth) = self.exprs(tokens, elems, depth)?;
        Ok((expr_array(elems, span), depth + 1))
    }

    /// What stands in `[..]`.
    #[tactic(auto, unfolding(syn_grammar::specs::Expressions::expr_bracket), using(syn_grammar::proofs::Depths::depths, crate::proofs::Nodes::nodes))]
    fn expr_bracket(&self, tokens: &mut Cursor<'_>, span: Span) -> Parsed<Expr>
        requires { R.reads_within self.now.rules.parts self.now.rules.depth }
        ensures { Reads expr_depth (self.now.rules.depth + 1) (spec.expr_bracket (within self.now.rules.depth) span tokens.old) result tokens.new }
    {
        if tokens.at_end() {
            let elems = Items::new(self.rules.alloc);
            return Ok((expr_array(elems, span), 1));
        }
        let (first, depth) = self.rules.expr(tokens, ANY_LEVEL)?;
        self.expr_elements(tokens, span, first, depth)
    }

    /// What stands in `{..}`: expressions with `;` behind, and a last one without.
    #[tactic(auto, using(syn_grammar::proofs::Depths::depths))]
    fn statements(&self, tokens: &mut Cursor<'_>, span: Span) -> Parsed<Expr>
        requires { R.reads_within self.now.rules.parts self.now.rules.depth }
        ensures { Reads expr_depth (self.now.rules.depth + 1) (spec.statements (within self.now.rules.depth) span tokens.old) result tokens.new }
    {
        let mut stmts = Items::new(self.rules.alloc);
        let mut depth = 0;
        for _turn in 0..tokens.left() {
            if tokens.at_end() {
                let block = make::expr_block(self.rules.alloc, stmts, None, span)?;
                return Ok((block, depth + 1));
            }
            let (statement, statement_depth) = self.rules.expr(tokens, ANY_LEVEL)?;
            depth = depth.max(statement_depth);
            if !tokens.eat_mark(';') {
                let block = make::expr_block(self.rules.alloc, stmts, Some(statement), span)?;
                return Ok((block, depth + 1));
            }
            stmts.push(statement)?;
        }
        tokens.finish()?;
        let block = make::expr_block(self.rules.alloc, stmts, None, span)?;
        Ok((block, depth + 1))
    }

    /// `{ a; b }`
    #[tactic(auto, unfolding(syn_grammar::specs::Expressions::block))]
    pub(crate) fn block(&self, tokens: &mut Cursor<'_>) -> Parsed<Expr>
        requires { R.reads_within self.now.rules.parts self.now.rules.depth }
        ensures { Reads expr_depth (self.now.rules.depth + 1) (spec.block (within self.now.rules.depth) tokens.old) result tokens.new }
    {
        let span = tokens.here();
        if !is_group(Delimiter::Brace, tokens.rest()) {
            return Err(ReadFail::Syntax);
        }
        let mut inner = tokens.contents();
        let block = self.statements(&mut inner, span)?;
        inner.finish()?;
        tokens.skip();
        Ok(block)
    }

    /// `(a)`, `(a, b)`
    #[tactic(auto, unfolding(syn_grammar::specs::Expressions::expr_in_parentheses))]
    fn expr_in_parentheses(&self, tokens: &mut Cursor<'_>) -> Parsed<Expr>
        requires { R.reads_within self.now.rules.parts self.now.rules.depth }
        ensures { Reads expr_depth (self.now.rules.depth + 1) (spec.expr_in_parentheses (within self.now.rules.depth) tokens.old) result tokens.new }
    {
        let span = tokens.here();
        if !is_group(Delimiter::Parenthesis, tokens.rest()) {
            return Err(ReadFail::Syntax);
        }
        let mut inner = tokens.contents();
        let group = self.expr_group(&mut inner, span)?;
        inner.finish()?;
        tokens.skip();
        Ok(group)
    }

    /// `[a, b]`, `[a; n]`
    #[tactic(auto, unfolding(syn_grammar::specs::Expressions::expr_in_brackets))]
    fn expr_in_brackets(&self, tokens: &mut Cursor<'_>) -> Parsed<Expr>
        requires { R.reads_within self.now.rules.parts self.now.rules.depth }
        ensures { Reads expr_depth (self.now.rules.depth + 1) (spec.expr_in_brackets (within self.now.rules.depth) tokens.old) result tokens.new }
    {
        let span = tokens.here();
        if !is_group(Delimiter::Bracket, tokens.rest()) {
            return Err(ReadFail::Syntax);
        }
        let mut inner = tokens.contents();
        let elements = self.expr_bracket(&mut inner, span)?;
        inner.finish()?;
        tokens.skip();
        Ok(elements)
    }

    /// A group without delimiters.
    #[tactic(auto, unfolding(syn_grammar::specs::Expressions::invisible), using(syn_grammar::proofs::Depths::depths))]
    fn invisible(&self, tokens: &mut Cursor<'_>) -> Parsed<Expr>
        requires { R.reads_within self.now.rules.parts self.now.rules.depth }
        ensures { Reads expr_depth (self.now.rules.depth + 1) (spec.invisible (within self.now.rules.depth) tokens.old) result tokens.new }
    {
        let span = tokens.here();
        if !is_group(Delimiter::None, tokens.rest()) {
            return Err(ReadFail::Syntax);
        }
        let mut inner = tokens.contents();
        let (found, depth) = self.rules.expr(&mut inner, ANY_LEVEL)?;
        inner.finish()?;
        tokens.skip();
        Ok((make::expr_group(self.rules.alloc, found, span)?, depth + 1))
    }

    /// `a::b`
    #[tactic(auto, unfolding(syn_grammar::specs::Expressions::expr_path), using(syn_grammar::proofs::Depths::depths))]
    fn expr_path(&self, tokens: &mut Cursor<'_>) -> Parsed<Expr>
        requires { R.reads_within self.now.rules.parts self.now.rules.depth }
        ensures { Reads expr_depth (self.now.rules.depth + 1) (spec.expr_path (within self.now.rules.depth) tokens.old) result tokens.new }
    {
        let start = tokens.here();
        let (path, depth) = self.rules.path(tokens, false)?;
        let span = tokens.upto(start);
        let path = ExprPath {
            qself: None,
            path,
            span,
        };
        Ok((Expr::Path(path), depth + 1))
    }

    /// `<T as Trait>::f`
    #[tactic(auto, unfolding(syn_grammar::specs::Expressions::expr_qualified), using(syn_grammar::proofs::Depths::depths))]
    fn expr_qualified(&self, tokens: &mut Cursor<'_>) -> Parsed<Expr>
        requires { R.reads_within self.now.rules.parts self.now.rules.depth }
        ensures { Reads expr_depth (self.now.rules.depth + 1) (spec.expr_qualified (within self.now.rules.depth) tokens.old) result tokens.new }
    {
        let start = tokens.here();
        let ((qself, path), depth) = self.rules.qualified(tokens, false)?;
        let span = tokens.upto(start);
        let path = ExprPath {
            qself: Some(qself),
            path,
            span,
        };
        Ok((Expr::Path(path), depth + 1))
    }

    /// The atom that begins so.
    pub(crate) fn atom(&self, tokens: &mut Cursor<'_>, begins: AtomStart) -> Parsed<Expr>
        requires { R.reads_within self.now.rules.parts self.now.rules.depth }
        ensures { Reads expr_depth (self.now.rules.depth + 1) (spec.atom_by (within self.now.rules.depth) begins tokens.old) result tokens.new }
    {
        match begins {
            AtomStart::Literal => literal(self.rules.alloc, tokens),
            AtomStart::Bool => expr_bool(tokens),
            AtomStart::Path => self.expr_path(tokens),
            AtomStart::Qualified => self.expr_qualified(tokens),
            AtomStart::Parenthesis => self.expr_in_parentheses(tokens),
            AtomStart::Bracket => self.expr_in_brackets(tokens),
            AtomStart::Brace => self.block(tokens),
            AtomStart::Invisible => self.invisible(tokens),
            AtomStart::Infer => infer(tokens),
            AtomStart::Nothing => Err(ReadFail::Syntax),
        }
    }

    /// A literal or a block.
    #[tactic(auto, unfolding(syn_grammar::specs::Expressions::constant))]
    pub(crate) fn constant(&self, tokens: &mut Cursor<'_>) -> Parsed<Expr>
        requires { R.reads_within self.now.rules.parts self.now.rules.depth }
        ensures { Reads expr_depth (self.now.rules.depth + 1) (spec.constant (within self.now.rules.depth) tokens.old) result tokens.new }
    {
        match atom_start(tokens.rest()) {
            AtomStart::Literal => literal(self.rules.alloc, tokens),
            AtomStart::Bool => expr_bool(tokens),
            AtomStart::Brace => self.block(tokens),
            _ => Err(ReadFail::Syntax),
        }
    }
}
