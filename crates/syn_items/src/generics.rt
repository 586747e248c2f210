//! Parameters in `<..>`.

ghost use Rattle.std.specs.Prelude.{◌≡◌, IfOk};
ghost use Rattle.syn_grammar.specs.Input as input;
ghost use Rattle.syn_grammar.specs.Token.{lifetime_of};
ghost use Rattle.syn_items.specs.Generics as spec;
ghost use Rattle.syn_grammar.specs.Reads.{Gives};

use crate::attr::attributes;
use base_core::{Items, Mem};
use node_core::{Attribute, ConstParam, GenericParam, LifetimeParam, TypeParam};
use node_expr::{Expr, ExprPath, Path, PathArguments, PathSegment, Type, TypeParamBound};
use std::alloc::Global;
use syn_grammar::{Cursor, ReadFail, Word, begins_constant, lifetime_of, peek};
use syn_lists::{Joint, ReadItem, joined_by, until};
use syn_rules::{read_bounds, read_expr, read_type};
use syn_types::{CONSTANT_LEVEL, LifetimeReader, MAX_DEPTH};
use tok_types::{Ident, Lifetime, Span};

/// `'b + 'c`
pub(crate) fn lifetimes(alloc: Global, tokens: &mut Cursor<'_>) -> Result<Items<Lifetime>, ReadFail>
    ensures { Gives (spec.lifetimes tokens.old) result tokens.new }
{
    joined_by(alloc, tokens, Joint::Plus, &mut LifetimeReader { alloc })
}

/// `A + 'b`
pub(crate) fn bounds(
    alloc: Global,
    tokens: &mut Cursor<'_>,
) -> Result<Items<TypeParamBound>, ReadFail>
    ensures { Gives (spec.bounds tokens.old) result tokens.new }
{
    let (found, _) = read_bounds(alloc, tokens, MAX_DEPTH)?;
    Ok(found)
}

/// A type, where a `dyn` or `impl` has several bounds.
pub(crate) fn ty(alloc: Global, tokens: &mut Cursor<'_>) -> Result<Type, ReadFail>
    ensures { Gives (spec.any_type tokens.old) result tokens.new }
{
    let (found, _) = read_type(alloc, tokens, MAX_DEPTH, true)?;
    Ok(found)
}

/// An expression of this level or a tighter one.
pub(crate) fn expr(alloc: Global, tokens: &mut Cursor<'_>, level: u8) -> Result<Expr, ReadFail>
    ensures { Gives (spec.expr_at level tokens.old) result tokens.new }
{
    let (found, _) = read_expr(alloc, tokens, MAX_DEPTH, level)?;
    Ok(found)
}

/// `: 'b + 'c`, or nothing.
fn outlived(alloc: Global, tokens: &mut Cursor<'_>) -> Result<Items<Lifetime>, ReadFail>
    ensures { Gives (spec.outlived tokens.old) result tokens.new }
{
    if tokens.eat_colon() {
        lifetimes(alloc, tokens)
    } else {
        Ok(Items::new(alloc))
    }
}

/// `: A + 'b`, or nothing.
fn bounded(alloc: Global, tokens: &mut Cursor<'_>) -> Result<Items<TypeParamBound>, ReadFail>
    ensures { Gives (spec.bounded tokens.old) result tokens.new }
{
    if tokens.eat_colon() {
        bounds(alloc, tokens)
    } else {
        Ok(Items::new(alloc))
    }
}

/// `= T`, or nothing.
fn type_default(alloc: Global, tokens: &mut Cursor<'_>) -> Result<Option<Type>, ReadFail>
    ensures { Gives (spec.type_default tokens.old) result tokens.new }
{
    if !tokens.eat_mark('=') {
        return Ok(None);
    }
    let default = ty(alloc, tokens)?;
    Ok(Some(default))
}

/// The path that one identifier is.
fn expr_of_name(alloc: Global, ident: Ident) -> Mem<Expr>
    ensures { IfOk result (λ expr. expr ≡ spec.expr_of_name ident) }
{
    let span = ident.span;
    let segment = PathSegment {
        ident,
        arguments: PathArguments::None,
        span,
    };
    let path = Path {
        leading_colon: false,
        segments: Items::of(alloc, segment)?,
        span,
    };
    Ok(Expr::Path(ExprPath {
        qself: None,
        path,
        span,
    }))
}

/// A literal, a block or an identifier.
#[tactic(auto, unfolding(crate::specs::Generics::const_value))]
fn const_value(alloc: Global, tokens: &mut Cursor<'_>) -> Result<Expr, ReadFail>
    ensures { Gives (spec.const_value tokens.old) result tokens.new }
{
    if begins_constant(tokens.rest()) {
        return expr(alloc, tokens, CONSTANT_LEVEL);
    }
    let name = tokens.take_name(alloc)?;
    Ok(expr_of_name(alloc, name)?)
}

/// `= 8`, or nothing.
fn const_default(alloc: Global, tokens: &mut Cursor<'_>) -> Result<Option<Expr>, ReadFail>
    ensures { Gives (spec.const_default tokens.old) result tokens.new }
{
    if !tokens.eat_mark('=') {
        return Ok(None);
    }
    let value = const_value(alloc, tokens)?;
    Ok(Some(value))
}

/// `'a: 'b + 'c`
#[tactic(auto, unfolding(crate::specs::Generics::lifetime_param))]
fn lifetime_param(
    alloc: Global,
    tokens: &mut Cursor<'_>,
    start: Span,
    attrs: Items<Attribute>,
) -> Result<GenericParam, ReadFail>
    ensures { Gives (spec.lifetime_param start attrs tokens.old) result tokens.new }
{
    let lifetime = tokens.take_lifetime(alloc)?;
    let bounds = outlived(alloc, tokens)?;
    let span = tokens.upto(start);
    let param = LifetimeParam {
        attrs,
        lifetime,
        bounds,
        span,
    };
    Ok(GenericParam::Lifetime(param))
}

/// `T: A + B = u8`
#[tactic(auto, unfolding(crate::specs::Generics::type_param))]
fn type_param(
    alloc: Global,
    tokens: &mut Cursor<'_>,
    start: Span,
    attrs: Items<Attribute>,
) -> Result<TypeParam, ReadFail>
    ensures { Gives (spec.type_param start attrs tokens.old) result tokens.new }
{
    let ident = tokens.take_name(alloc)?;
    let bounds = bounded(alloc, tokens)?;
    let default = type_default(alloc, tokens)?;
    let span = tokens.upto(start);
    let param = TypeParam {
        attrs,
        ident,
        bounds,
        default,
        span,
    };
    Ok(param)
}

/// `const N: usize = 8`
#[tactic(auto, unfolding(crate::specs::Generics::const_param))]
fn const_param(
    alloc: Global,
    tokens: &mut Cursor<'_>,
    start: Span,
    attrs: Items<Attribute>,
) -> Result<GenericParam, ReadFail>
    ensures { Gives (spec.const_param start attrs tokens.old) result tokens.new }
{
    tokens.expect_word(Word::Const)?;
    let ident = tokens.take_name(alloc)?;
    tokens.expect_colon()?;
    let ty = ty(alloc, tokens)?;
    let default = const_default(alloc, tokens)?;
    let span = tokens.upto(start);
    let param = ConstParam {
        attrs,
        ident,
        ty,
        default,
        span,
    };
    Ok(GenericParam::Const(param))
}

/// `'a: 'b`, `const N: usize`, `T: A`, each behind its attributes.
#[tactic(auto, unfolding(crate::specs::Generics::generic_param))]
fn generic_param(alloc: Global, tokens: &mut Cursor<'_>) -> Result<GenericParam, ReadFail>
    ensures { Gives (spec.generic_param tokens.old) result tokens.new }
{
    let start = tokens.here();
    let attrs = attributes(alloc, tokens)?;
    if lifetime_of(tokens.rest()).is_some() {
        return lifetime_param(alloc, tokens, start, attrs);
    }
    if peek(Word::Const, tokens.rest()) {
        return const_param(alloc, tokens, start, attrs);
    }
    let param = type_param(alloc, tokens, start, attrs)?;
    Ok(GenericParam::Ty(param))
}

/// A type parameter alone, as in `<..>`.
#[tactic(auto, unfolding(crate::specs::Generics::one_type_param))]
pub fn one_type_param(alloc: Global, tokens: &mut Cursor<'_>) -> Result<TypeParam, ReadFail>
    ensures { Gives (spec.one_type_param tokens.old) result tokens.new }
{
    let start = tokens.here();
    let attrs = attributes(alloc, tokens)?;
    type_param(alloc, tokens, start, attrs)
}

/// Reads a parameter in `<..>`.
#[derive(Drop)]
struct GenericParamReader(Global);

impl ReadItem<GenericParam> for GenericParamReader {
    ghost reader = { λ it. spec.generic_param };

    fn read(&mut self, tokens: &mut Cursor<'_>) -> Result<GenericParam, ReadFail> {
        generic_param(self.0, tokens)
    }
}

/// What is left of the parameters in `<..>`, with its end.
fn params_in_angles(alloc: Global, tokens: &mut Cursor<'_>) -> Result<Items<GenericParam>, ReadFail>
    ensures { Gives (spec.params_in_angles tokens.old) result tokens.new }
{
    until(alloc, tokens, '>', &mut GenericParamReader(alloc))
}

/// The parameters in `<..>`, if it is there, and where they stand.
#[tactic(auto, unfolding(crate::specs::Generics::params))]
pub(crate) fn params(
    alloc: Global,
    tokens: &mut Cursor<'_>,
) -> Result<(Items<GenericParam>, Span), ReadFail>
    ensures { Gives (spec.params tokens.old) result tokens.new }
{
    let start = tokens.here();
    if !tokens.eat_mark('<') {
        return Ok((Items::new(alloc), Span::CallSite));
    }
    let found = params_in_angles(alloc, tokens)?;
    let span = tokens.upto(start);
    Ok((found, span))
}
