//! What stands behind the `=` of a nested item.

ghost use Rattle.std.specs.Prelude.{◌≡◌, IfOk};
ghost use Rattle.law_prefix.specs.SameLookahead.{stops};
ghost use Rattle.syn_items.specs.Attributes.{number_in};
ghost use Rattle.syn_grammar.specs.Reads.{Gives};
ghost use Rattle.meta_nested.specs.Angles.{TellsHere};
ghost use Rattle.meta_nested.specs.Nested.{expected_expression, with_value};
ghost use Rattle.meta_nested.specs.Values as spec;

use crate::nested::{MetaNameValueInvalidExpr, NestedMeta};
use base_core::{Mem, TryClone};
use error_core::Error;
use node_core::{Meta, MetaNameValue};
use node_expr::{Expr, Lit, Path};
use std::alloc::{AllocError, Global};
use syn_grammar::{Cursor, ReadFail, is_comma, lit_of, literal_of, span_of};
use syn_items::{number_of, stream_of};
use syn_rules::read_expr;
use syn_types::{ANY_LEVEL, MAX_DEPTH};
use tok_types::{Span, TokenStream, TokenTree};

/// A value, or tokens in its place and where the fault is.
pub enum Value {
    Expr(Expr),
    Bad(TokenStream, Span),
}

impl Value {
    /// The item of this value, which stands behind the path and the `=`.
    pub(crate) fn into_item(
        self,
        alloc: Global,
        path: Path,
        eq_span: Span,
        span: Span,
    ) -> Mem<NestedMeta>
        ensures { IfOk result (λ item. item ≡ with_value path eq_span span self) }
    {
        match self {
            Value::Expr(value) => Ok(NestedMeta::Meta(Meta::NameValue(MetaNameValue {
                path,
                eq_span,
                value,
                span,
            }))),
            Value::Bad(value, place) => {
                let error = expected_expression(alloc, place)?;
                Ok(NestedMeta::NameValueInvalidExpr(MetaNameValueInvalidExpr {
                    path,
                    eq_span,
                    value,
                    error,
                }))
            }
        }
    }
}

impl Drop for Value {
    fn drop(self) {
        match self {
            Value::Expr(_expr) => {}
            Value::Bad(_tokens, _) => {}
        }
    }
}

fn expected_expression(alloc: Global, place: Span) -> Mem<Error>
    ensures { IfOk result (λ error. error ≡ expected_expression place) }
{
    Ok(Error::custom(alloc, "expected an expression")?.with_span_at(place))
}

/// Whether a comma comes next, or nothing.
fn stops(trees: &[TokenTree]) -> bool
    ensures { result ≡ stops trees.now }
{
    trees.is_empty() || is_comma(trees)
}

/// The number with its sign that stands before a comma or the end.
fn number_run(alloc: Global, trees: &[TokenTree]) -> Mem<Option<Lit>>
    ensures { IfOk result (λ found. found ≡ spec.run_of number_in trees.now 2) }
{
    let (front, rest) = trees.split_at(trees.len().min(2));
    if stops(rest) {
        number_of(alloc, front)
    } else {
        Ok(None)
    }
}

/// The literal that comes next.
fn next_literal(alloc: Global, trees: &[TokenTree]) -> Mem<Option<Lit>>
    ensures { IfOk result (λ found. found ≡ spec.next_literal trees.now) }
{
    let Some(token) = literal_of(trees) else {
        return Ok(None);
    };
    let token = token.try_clone(alloc)?;
    Ok(Some(lit_of(alloc, token)?))
}

/// The literal that stands alone before a comma or the end.
fn literal_run(alloc: Global, trees: &[TokenTree]) -> Mem<Option<Lit>>
    ensures { IfOk result (λ found. found ≡ spec.run_of spec.next_literal trees.now 1) }
{
    let (front, rest) = trees.split_at(trees.len().min(1));
    if stops(rest) {
        next_literal(alloc, front)
    } else {
        Ok(None)
    }
}

/// The value of the shortest run, and how many tokens it has. What an expression reads of a front it
/// reads of every longer one too, so that one reading tells them all; and a literal alone needs none.
fn shortest_run(alloc: Global, trees: &[TokenTree]) -> Mem<Option<(Expr, usize)>>
    ensures { IfOk result (λ run. run ≡ spec.shortest_run trees.now) }
{
    if let Some(literal) = literal_run(alloc, trees)? {
        return Ok(Some((Expr::Lit(literal), 1)));
    }
    if let Some(number) = number_run(alloc, trees)? {
        return Ok(Some((Expr::Lit(number), 2)));
    }
    let mut ahead = Cursor::new(trees);
    match read_expr(alloc, &mut ahead, MAX_DEPTH, ANY_LEVEL) {
        Ok((expr, _)) => {
            if stops(ahead.rest()) {
                Ok(Some((expr, trees.len() - ahead.left())))
            } else {
                Ok(None)
            }
        }
        Err(ReadFail::Syntax) => Ok(None),
        Err(ReadFail::NoMemory) => Err(AllocError),
    }
}

fn before_comma(trees: &[TokenTree]) -> &[TokenTree]
    ensures { result.now ≡ spec.before_comma trees.now }
{
    let mut count = 0;
    while !stops(&trees[count..]) {
        count += 1;
    }
    &trees[..count]
}

fn bad_place(eq_span: Span, trees: &[TokenTree]) -> Span
    ensures { result ≡ spec.bad_place eq_span trees.now }
{
    match trees.first() {
        Some(tree) => span_of(tree),
        None => eq_span,
    }
}

#[tactic(auto, unfolding(crate::specs::Values::bad_value))]
fn bad_value(alloc: Global, tokens: &mut Cursor<'_>, eq_span: Span) -> Result<Value, ReadFail>
    ensures { Gives (spec.bad_value eq_span tokens.old) result tokens.new }
{
    let trees = before_comma(tokens.rest());
    let kept = stream_of(alloc, trees)?;
    tokens.skip_by(trees.len());
    Ok(Value::Bad(kept, bad_place(eq_span, trees)))
}

/// The value behind the `=` that stands at `eq_span`. Where its angles do not close it is a bad one, and
/// nothing is read in vain.
#[tactic(auto, unfolding(crate::specs::Values::value))]
pub(crate) fn take_value(
    alloc: Global,
    tokens: &mut Cursor<'_>,
    closings: &[bool],
    eq_span: Span,
) -> Result<Value, ReadFail>
    requires { TellsHere closings.now tokens.old.rest }
    ensures { Gives (spec.value eq_span tokens.old) result tokens.new }
{
    if !closings[tokens.left()] {
        return bad_value(alloc, tokens, eq_span);
    }
    match shortest_run(alloc, tokens.rest())? {
        Some((expr, count)) => {
            tokens.skip_by(count);
            Ok(Value::Expr(expr))
        }
        None => bad_value(alloc, tokens, eq_span),
    }
}
