//! Operators, by their levels, and ranges.

ghost use Rattle.std.specs.Prelude.{◌≡◌, ◌+◌, ◌≤◌, ◌<◌, if◌then◌else◌, option_map, suc};
ghost use Rattle.syn_grammar.specs.Depth.{expr_depth, optional};
ghost use Rattle.syn_grammar.specs.Expressions as spec;
ghost use Rattle.syn_grammar.specs.Grammar.{within};
ghost use Rattle.syn_grammar.specs.Input.{skipped};
ghost use Rattle.syn_grammar.specs.Look.{at_level, operator_of};
ghost use Rattle.syn_grammar.specs.Reads.{Reads, ReadsKept};
ghost use Rattle.syn_grammar.specs.Token.{is_closed_dots};

use crate::rules::ExprRules;
use node_expr::{Expr, UnOp};
use node_make::make;
use syn_grammar::{
    Cursor, Infix, OperandStart, ReadFail, Word, begins_closure, begins_operand, is_closed_dots,
    is_dots, operand_start, operator_at,
};
use syn_lists::Parsed;
use syn_types::{ANY_LEVEL, CONSTANT_LEVEL, ReadParts};
use tok_types::Span;

/// An operand of an operator.
const OPERAND_LEVEL: u8 = 0;
/// An end of a range: operators of every level.
const OR_LEVEL: u8 = 9;
/// A range, or tighter.
const RANGE_LEVEL: u8 = 10;

/// The level below that of comparisons, which are not chained.
const BELOW_COMPARISONS: u8 = 6;

/// `..` or `..=`: whether it is the second.
fn dots(tokens: &mut Cursor<'_>) -> bool
    ensures closed { result ≡ is_closed_dots tokens.old.rest }
    ensures taken { tokens.new ≡ skipped (if result then 3 else 2) tokens.old }
{
    if is_closed_dots(tokens.rest()) {
        tokens.skip_by(3);
        true
    } else {
        tokens.skip_by(2);
        false
    }
}

/// The operator of the level above this one, if one comes next.
fn operator_above(tokens: &Cursor<'_>, below: u8) -> Option<Infix>
    requires { below < 255 }
    ensures { result ≡ at_level (suc below) (operator_of tokens.now.rest) }
{
    operator_at(below + 1, tokens.rest())
}

impl<R: ReadParts> ExprRules<R> {
    /// `-a`, `!a`, `*a`
    #[tactic(auto, unfolding(syn_grammar::specs::Expressions::unary), using(syn_grammar::proofs::Depths::depths))]
    fn unary(&self, tokens: &mut Cursor<'_>, op: UnOp) -> Parsed<Expr>
        requires { R.reads_within self.now.rules.parts self.now.rules.depth }
        ensures { Reads expr_depth (self.now.rules.depth + 1) (spec.unary (within self.now.rules.depth) op tokens.old) result tokens.new }
    {
        let start = tokens.here();
        tokens.skip();
        let (operand, depth) = self.rules.expr(tokens, OPERAND_LEVEL)?;
        let span = tokens.upto(start);
        let unary = make::expr_unary(self.rules.alloc, op, operand, span)?;
        Ok((unary, depth + 1))
    }

    /// `&a`, `&mut a`
    #[tactic(auto, unfolding(syn_grammar::specs::Expressions::reference), using(syn_grammar::proofs::Depths::depths))]
    fn reference(&self, tokens: &mut Cursor<'_>) -> Parsed<Expr>
        requires { R.reads_within self.now.rules.parts self.now.rules.depth }
        ensures { Reads expr_depth (self.now.rules.depth + 1) (spec.reference (within self.now.rules.depth) tokens.old) result tokens.new }
    {
        let start = tokens.here();
        tokens.skip();
        let mutable = tokens.eat_word(Word::Mut);
        let (operand, depth) = self.rules.expr(tokens, OPERAND_LEVEL)?;
        let span = tokens.upto(start);
        let reference = make::expr_reference(self.rules.alloc, mutable, operand, span)?;
        Ok((reference, depth + 1))
    }

    /// An operand of an operator.
    #[tactic(auto, unfolding(syn_grammar::specs::Expressions::operand))]
    fn operand(&self, tokens: &mut Cursor<'_>) -> Parsed<Expr>
        requires { R.reads_within self.now.rules.parts self.now.rules.depth }
        ensures { ReadsKept expr_depth (self.now.rules.depth + 1) (spec.operand (within self.now.rules.depth) tokens.old) result tokens.new }
    {
        match operand_start(tokens.rest()) {
            OperandStart::Neg => self.unary(tokens, UnOp::Neg),
            OperandStart::Not => self.unary(tokens, UnOp::Not),
            OperandStart::Deref => self.unary(tokens, UnOp::Deref),
            OperandStart::Reference => self.reference(tokens),
            OperandStart::Atom(begins) => self.postfixed(tokens, begins),
        }
    }

    /// An operator and its right side, which is tighter.
    #[tactic(auto, unfolding(syn_grammar::specs::Expressions::right_of), using(syn_grammar::proofs::Depths::depths))]
    fn right_of(
        &self,
        tokens: &mut Cursor<'_>,
        start: Span,
        below: u8,
        left: Expr,
        depth: usize,
        op: Infix,
    ) -> Parsed<Expr>
        requires reads_within { R.reads_within self.now.rules.parts self.now.rules.depth }
        requires depth { depth ≡ expr_depth left }
        requires limit { depth ≤ self.now.rules.depth + 1 }
        ensures { Reads expr_depth (self.now.rules.depth + 2) (spec.right_of (within self.now.rules.depth) start below left op tokens.old) result tokens.new }
    {
        tokens.skip_by(op.width);
        let (right, right_depth) = self.rules.expr(tokens, below)?;
        let span = tokens.upto(start);
        let binary = make::expr_binary(self.rules.alloc, left, op.op, right, span)?;
        Ok((binary, depth.max(right_depth) + 1))
    }

    /// One comparison: they are not chained.
    #[tactic(auto, unfolding(syn_grammar::specs::Expressions::compared))]
    fn compared(
        &self,
        tokens: &mut Cursor<'_>,
        start: Span,
        below: u8,
        left: Expr,
        depth: usize,
    ) -> Parsed<Expr>
        requires reads_within { R.reads_within self.now.rules.parts self.now.rules.depth }
        requires depth { depth ≡ expr_depth left }
        requires limit { depth ≤ self.now.rules.depth + 1 }
        requires level { below < 255 }
        ensures { ReadsKept expr_depth (self.now.rules.depth + 1) (spec.compared (within self.now.rules.depth) start below left tokens.old) result tokens.new }
    {
        let Some(op) = operator_above(tokens, below) else {
            return Ok((left, depth));
        };
        let (longer, longer_depth) = self.right_of(tokens, start, below, left, depth, op)?;
        if longer_depth > self.rules.depth + 1 {
            return Err(ReadFail::Syntax);
        }
        Ok((longer, longer_depth))
    }

    /// Operators one level looser, to the left.
    fn chain_all(
        &self,
        tokens: &mut Cursor<'_>,
        start: Span,
        below: u8,
        mut left: Expr,
        mut depth: usize,
    ) -> Parsed<Expr>
        requires reads_within { R.reads_within self.now.rules.parts self.now.rules.depth }
        requires depth { depth ≡ expr_depth left }
        requires limit { depth ≤ self.now.rules.depth + 1 }
        requires level { below < 255 }
        ensures { ReadsKept expr_depth (self.now.rules.depth + 1) (spec.chain_all (within self.now.rules.depth) start below left tokens.old) result tokens.new }
    {
        for _turn in 0..tokens.left() {
            let Some(op) = operator_above(tokens, below) else {
                return Ok((left, depth));
            };
            let (longer, longer_depth) = self.right_of(tokens, start, below, left, depth, op)?;
            if longer_depth > self.rules.depth + 1 {
                return Err(ReadFail::Syntax);
            }
            left = longer;
            depth = longer_depth;
        }
        tokens.finish()?;
        Ok((left, depth))
    }

    /// Operators one level looser than what stands before them.
    #[inline(never)]
    #[tactic(auto, unfolding(syn_grammar::specs::Expressions::chain))]
    fn chain(
        &self,
        tokens: &mut Cursor<'_>,
        start: Span,
        below: u8,
        left: Expr,
        depth: usize,
    ) -> Parsed<Expr>
        requires reads_within { R.reads_within self.now.rules.parts self.now.rules.depth }
        requires depth { depth ≡ expr_depth left }
        requires limit { depth ≤ self.now.rules.depth + 1 }
        requires level { below < 255 }
        ensures { ReadsKept expr_depth (self.now.rules.depth + 1) (spec.chain (within self.now.rules.depth) start below left tokens.old) result tokens.new }
    {
        if below == BELOW_COMPARISONS {
            self.compared(tokens, start, below, left, depth)
        } else {
            self.chain_all(tokens, start, below, left, depth)
        }
    }

    /// Operators of this level and tighter ones. A level costs no room on the stack.
    fn binary_from(&self, tokens: &mut Cursor<'_>, start: Span, level: u8) -> Parsed<Expr>
        requires { R.reads_within self.now.rules.parts self.now.rules.depth }
        ensures { ReadsKept expr_depth (self.now.rules.depth + 1) (spec.binary_from (within self.now.rules.depth) start level tokens.old) result tokens.new }
    {
        let (mut left, mut depth) = self.operand(tokens)?;
        for below in 0..level {
            // a chain without an operator is `left`, which is not moved for it
            if operator_above(tokens, below).is_some() {
                let (longer, longer_depth) = self.chain(tokens, start, below, left, depth)?;
                left = longer;
                depth = longer_depth;
            }
        }
        Ok((left, depth))
    }

    #[tactic(auto, unfolding(syn_grammar::specs::Expressions::binary))]
    fn binary(&self, tokens: &mut Cursor<'_>, level: u8) -> Parsed<Expr>
        requires { R.reads_within self.now.rules.parts self.now.rules.depth }
        ensures { ReadsKept expr_depth (self.now.rules.depth + 1) (spec.binary (within self.now.rules.depth) level tokens.old) result tokens.new }
    {
        let start = tokens.here();
        self.binary_from(tokens, start, level)
    }

    /// A range behind its start. A closed one has an end; another has one where an operand begins.
    #[tactic(auto, unfolding(syn_grammar::specs::Expressions::range_from), using(syn_grammar::proofs::Depths::depths))]
    fn range_from(
        &self,
        tokens: &mut Cursor<'_>,
        start: Span,
        left: Option<Expr>,
        depth: usize,
    ) -> Parsed<Expr>
        requires reads_within { R.reads_within self.now.rules.parts self.now.rules.depth }
        requires depth { depth ≡ optional (option_map expr_depth left) }
        requires limit { depth ≤ self.now.rules.depth + 1 }
        ensures { Reads expr_depth (self.now.rules.depth + 2) (spec.range_from (within self.now.rules.depth) start left tokens.old) result tokens.new }
    {
        let closed = dots(tokens);
        if begins_operand(tokens.rest()) {
            let (right, right_depth) = self.rules.expr(tokens, OR_LEVEL)?;
            let span = tokens.upto(start);
            let range = make::expr_range(self.rules.alloc, left, Some(right), closed, span)?;
            return Ok((Expr::Range(range), depth.max(right_depth) + 1));
        }
        if closed {
            return Err(ReadFail::Syntax);
        }
        let span = tokens.upto(start);
        let range = make::expr_range(self.rules.alloc, left, None, false, span)?;
        Ok((Expr::Range(range), depth + 1))
    }

    /// The same, refused where the whole gets too deep.
    #[inline(never)]
    fn kept_range(
        &self,
        tokens: &mut Cursor<'_>,
        start: Span,
        left: Option<Expr>,
        depth: usize,
    ) -> Parsed<Expr>
        requires reads_within { R.reads_within self.now.rules.parts self.now.rules.depth }
        requires depth { depth ≡ optional (option_map expr_depth left) }
        requires limit { depth ≤ self.now.rules.depth + 1 }
        ensures { ReadsKept expr_depth (self.now.rules.depth + 1) (spec.range_from (within self.now.rules.depth) start left tokens.old) result tokens.new }
    {
        let (range, range_depth) = self.range_from(tokens, start, left, depth)?;
        if range_depth > self.rules.depth + 1 {
            return Err(ReadFail::Syntax);
        }
        Ok((range, range_depth))
    }

    /// A range, or operators of every level.
    #[tactic(auto, unfolding(syn_grammar::specs::Expressions::range))]
    fn range(&self, tokens: &mut Cursor<'_>) -> Parsed<Expr>
        requires { R.reads_within self.now.rules.parts self.now.rules.depth }
        ensures { ReadsKept expr_depth (self.now.rules.depth + 1) (spec.range (within self.now.rules.depth) tokens.old) result tokens.new }
    {
        let start = tokens.here();
        if is_dots(tokens.rest()) {
            return self.kept_range(tokens, start, None, 0);
        }
        let (left, depth) = self.binary(tokens, OR_LEVEL)?;
        if !is_dots(tokens.rest()) {
            return Ok((left, depth));
        }
        self.kept_range(tokens, start, Some(left), depth)
    }

    /// Any expression.
    #[tactic(auto, unfolding(syn_grammar::specs::Expressions::any))]
    fn any(&self, tokens: &mut Cursor<'_>) -> Parsed<Expr>
        requires { R.reads_within self.now.rules.parts self.now.rules.depth }
        ensures { ReadsKept expr_depth (self.now.rules.depth + 1) (spec.any (within self.now.rules.depth) tokens.old) result tokens.new }
    {
        if begins_closure(tokens.rest()) {
            self.closure(tokens)
        } else {
            self.range(tokens)
        }
    }

    /// An expression of this level or a tighter one.
    #[tactic(auto, unfolding(syn_grammar::specs::Expressions::expr_step))]
    pub(crate) fn expr_step(&self, tokens: &mut Cursor<'_>, level: u8) -> Parsed<Expr>
        requires { R.reads_within self.now.rules.parts self.now.rules.depth }
        ensures { ReadsKept expr_depth (self.now.rules.depth + 1) (spec.expr_step (within self.now.rules.depth) level tokens.old) result tokens.new }
    {
        if level == ANY_LEVEL {
            self.any(tokens)
        } else if level == RANGE_LEVEL {
            self.range(tokens)
        } else if level == CONSTANT_LEVEL {
            self.constant(tokens)
        } else {
            self.binary(tokens, level)
        }
    }
}
