//! Closures: `move |a, b: u8| body`

ghost use Rattle.std.specs.Prelude.{◌≡◌, ◌+◌};
ghost use Rattle.tok_types.specs.declared.tree.Delimiter.TheVariants as delimiter;
ghost use Rattle.syn_grammar.specs.Depth.{expr_depth};
ghost use Rattle.syn_grammar.specs.Expressions as spec;
ghost use Rattle.syn_grammar.specs.Grammar.{within};
ghost use Rattle.syn_grammar.specs.Reads.{Reads, Gives};
ghost use Rattle.syn_grammar.specs.Steps.{Expects};
ghost use Rattle.syn_grammar.specs.Token.{is_group};

use crate::rules::ExprRules;
use node_expr::Expr;
use node_make::make;
use syn_grammar::{Cursor, ReadFail, Word, is_group};
use syn_lists::{MAX_PATTERN, Parsed, ReadItem, pattern, until};
use syn_types::{ANY_LEVEL, CONSTANT_LEVEL, ReadParts};
use tok_types::{Delimiter, TokenStream};

/// A block must come next. It is left where it is.
#[tactic(auto, unfolding(syn_grammar::specs::Input::skipped))]
fn expect_block(tokens: &Cursor<'_>) -> Result<(), ReadFail>
    ensures { Expects 0 (is_group delimiter.Brace tokens.now.rest) tokens.now result tokens.now }
{
    if is_group(Delimiter::Brace, tokens.rest()) {
        Ok(())
    } else {
        Err(ReadFail::Syntax)
    }
}

/// Reads a parameter of a closure, of which nothing is kept.
#[derive(Drop)]
struct ClosureParamReader<'a, R> {
    rules: &'a ExprRules<R>,
}

impl<R: ReadParts> ReadItem<()> for ClosureParamReader<'_, R> {
    ghost reader = { λ it. spec.closure_param (within it.rules.now.rules.depth) };

    ghost ready = { λ it. R.reads_within it.rules.now.rules.parts it.rules.now.rules.depth };

    fn read(&mut self, tokens: &mut Cursor<'_>) -> Result<(), ReadFail> {
        self.rules.closure_param(tokens)
    }
}

impl<R: ReadParts> ExprRules<R> {
    /// A type that is kept as tokens alone.
    #[tactic(auto, unfolding(syn_grammar::specs::Expressions::pass_type))]
    fn pass_type(&self, tokens: &mut Cursor<'_>, allow_plus: bool) -> Result<(), ReadFail>
        requires { R.reads_within self.now.rules.parts self.now.rules.depth }
        ensures { Gives (spec.pass_type (within self.now.rules.depth) allow_plus tokens.old) result tokens.new }
    {
        let _ty = self.rules.ty(tokens, allow_plus)?;
        Ok(())
    }

    /// A pattern, and its type where it is told.
    #[tactic(auto, unfolding(syn_grammar::specs::Expressions::closure_param))]
    fn closure_param(&self, tokens: &mut Cursor<'_>) -> Result<(), ReadFail>
        requires { R.reads_within self.now.rules.parts self.now.rules.depth }
        ensures { Gives (spec.closure_param (within self.now.rules.depth) tokens.old) result tokens.new }
    {
        pattern(tokens, MAX_PATTERN)?;
        if tokens.eat_colon() {
            self.pass_type(tokens, true)?;
        }
        Ok(())
    }

    /// Parameters to the second `|`.
    fn closure_params(&self, tokens: &mut Cursor<'_>) -> Result<(), ReadFail>
        requires { R.reads_within self.now.rules.parts self.now.rules.depth }
        ensures { Gives (spec.closure_params (within self.now.rules.depth) tokens.old) result tokens.new }
    {
        let mut params = ClosureParamReader { rules: self };
        let _params = until(self.rules.alloc, tokens, '|', &mut params)?;
        Ok(())
    }

    /// The level of the body, behind its type where it is told: a block then.
    #[tactic(auto, unfolding(syn_grammar::specs::Expressions::closure_body))]
    fn closure_body(&self, tokens: &mut Cursor<'_>) -> Result<u8, ReadFail>
        requires { R.reads_within self.now.rules.parts self.now.rules.depth }
        ensures { Gives (spec.closure_body (within self.now.rules.depth) tokens.old) result tokens.new }
    {
        if !tokens.eat_arrow() {
            return Ok(ANY_LEVEL);
        }
        self.pass_type(tokens, false)?;
        expect_block(tokens)?;
        Ok(CONSTANT_LEVEL)
    }

    /// `move |a, b: u8| body`, or with a type `|a| -> u8 { body }`
    #[inline(never)]
    #[tactic(auto, unfolding(syn_grammar::specs::Expressions::closure), using(syn_grammar::proofs::Depths::depths))]
    pub(crate) fn closure(&self, tokens: &mut Cursor<'_>) -> Parsed<Expr>
        requires { R.reads_within self.now.rules.parts self.now.rules.depth }
        ensures { Reads expr_depth (self.now.rules.depth + 1) (spec.closure (within self.now.rules.depth) tokens.old) result tokens.new }
    {
        let before = tokens.rest();
        let start = tokens.here();
        tokens.eat_word(Word::Move);
        tokens.expect_mark('|')?;
        self.closure_params(tokens)?;
        let level = self.closure_body(tokens)?;
        let trees = tokens.read_since(self.rules.alloc, before)?;
        let (body, depth) = self.rules.expr(tokens, level)?;
        let span = tokens.upto(start);
        let closure = make::expr_closure(self.rules.alloc, TokenStream { trees }, body, span)?;
        Ok((Expr::Closure(closure), depth + 1))
    }
}
