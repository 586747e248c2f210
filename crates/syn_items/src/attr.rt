//! Attributes, and the meta items in them.

ghost use Rattle.std.specs.Prelude.{◌≡◌, IfOk};
ghost use Rattle.tok_types.specs.Stream.{stream_of};
ghost use Rattle.syn_items.specs.Attributes as spec;
ghost use Rattle.syn_grammar.specs.Reads.{Gives};

use crate::generics::expr;
use crate::lists::{While, each_while};
use crate::look::delimiter_of;
use base_core::{Items, Mem};
use node_core::{Attribute, Meta, MetaList, MetaNameValue};
use node_expr::{Expr, Lit, Path, PathArguments, PathSegment};
use std::alloc::Global;
use syn_grammar::{Cursor, ReadFail, contents_of, is_group, lit_of};
use syn_lists::{Joint, ReadItem, all_of, joined_by};
use syn_types::ANY_LEVEL;
use tok_types::{Delimiter, Span, TokenStream, TokenTree};

/// A segment of a meta path: any word, a keyword or `_` too.
#[tactic(auto, unfolding(crate::specs::Attributes::meta_segment))]
fn meta_segment(alloc: Global, tokens: &mut Cursor<'_>) -> Result<PathSegment, ReadFail>
    ensures { Gives (spec.meta_segment tokens.old) result tokens.new }
{
    let start = tokens.here();
    let ident = tokens.take_word(alloc)?;
    let span = tokens.upto(start);
    let arguments = PathArguments::None;
    Ok(PathSegment {
        ident,
        arguments,
        span,
    })
}

/// Reads a segment of a meta path.
#[derive(Drop)]
struct MetaSegmentReader(Global);

impl ReadItem<PathSegment> for MetaSegmentReader {
    ghost reader = { λ it. spec.meta_segment };

    fn read(&mut self, tokens: &mut Cursor<'_>) -> Result<PathSegment, ReadFail> {
        meta_segment(self.0, tokens)
    }
}

/// `a::b`, of any words
#[tactic(auto, unfolding(crate::specs::Attributes::meta_path))]
pub fn meta_path(alloc: Global, tokens: &mut Cursor<'_>) -> Result<Path, ReadFail>
    ensures { Gives (spec.meta_path tokens.old) result tokens.new }
{
    let start = tokens.here();
    let leading_colon = tokens.eat_colons();
    let segments = joined_by(alloc, tokens, Joint::Colons, &mut MetaSegmentReader(alloc))?;
    let span = tokens.upto(start);
    Ok(Path {
        leading_colon,
        segments,
        span,
    })
}

/// A number with a minus before it. Other literals have none.
fn negative(span: Span, mut lit: Lit) -> Option<Lit>
    ensures { result ≡ spec.negative span lit }
{
    match &mut lit {
        Lit::Int(number) => {
            number.negative = true;
            number.span = span;
        }
        Lit::Float(number) => {
            number.negative = true;
            number.span = span;
        }
        _ => return None,
    }
    Some(lit)
}

/// `-1`, `-1.5`
#[tactic(auto, unfolding(crate::specs::Attributes::signed))]
pub fn signed(alloc: Global, tokens: &mut Cursor<'_>) -> Result<Lit, ReadFail>
    ensures { Gives (spec.signed tokens.old) result tokens.new }
{
    let start = tokens.here();
    tokens.expect_mark('-')?;
    let token = tokens.take_literal(alloc)?;
    let span = tokens.upto(start);
    let lit = lit_of(alloc, token)?;
    match negative(span, lit) {
        Some(number) => Ok(number),
        None => Err(ReadFail::Syntax),
    }
}

/// An expression of all of the tokens, at most 256 deep, if they are one.
fn expr_of(alloc: Global, trees: &[TokenTree]) -> Mem<Option<Expr>>
    ensures { IfOk result (λ found. found ≡ spec.expr_in trees.now) }
{
    let mut tokens = Cursor::new(trees);
    let read = expr(alloc, &mut tokens, ANY_LEVEL);
    all_of(read, &tokens)
}

/// A number with its sign of all of the tokens, if they are one.
pub fn number_of(alloc: Global, trees: &[TokenTree]) -> Mem<Option<Lit>>
    ensures { IfOk result (λ found. found ≡ spec.number_in trees.now) }
{
    let mut tokens = Cursor::new(trees);
    let read = signed(alloc, &mut tokens);
    all_of(read, &tokens)
}

/// The tokens as a stream of their own.
pub fn stream_of(alloc: Global, trees: &[TokenTree]) -> Mem<TokenStream>
    ensures { IfOk result (λ kept. kept ≡ stream_of trees.now) }
{
    let mut kept = Items::new(alloc);
    kept.extend_from_slice(alloc, trees)?;
    Ok(TokenStream { trees: kept })
}

/// What tokens are as the value of an attribute: a number with its sign, or an expression; else they
/// are kept.
#[tactic(auto, unfolding(crate::specs::Attributes::value_of))]
pub fn value_of(alloc: Global, trees: &[TokenTree]) -> Mem<Expr>
    ensures { IfOk result (λ value. value ≡ spec.value_of trees.now) }
{
    if let Some(number) = number_of(alloc, trees)? {
        return Ok(Expr::Lit(number));
    }
    if let Some(found) = expr_of(alloc, trees)? {
        return Ok(found);
    }
    Ok(Expr::Verbatim(stream_of(alloc, trees)?))
}

/// The group behind the path.
#[tactic(auto, unfolding(crate::specs::Attributes::meta_list))]
pub fn meta_list(
    alloc: Global,
    tokens: &mut Cursor<'_>,
    start: Span,
    path: Path,
    delimiter: Delimiter,
) -> Result<Meta, ReadFail>
    ensures { Gives (spec.meta_list start path delimiter tokens.old) result tokens.new }
{
    let stream = stream_of(alloc, contents_of(tokens.rest()))?;
    tokens.skip();
    let span = tokens.upto(start);
    let list = MetaList {
        path,
        delimiter,
        tokens: stream,
        span,
    };
    Ok(Meta::List(list))
}

/// `=` and at least one token behind the path.
#[tactic(auto, unfolding(crate::specs::Attributes::name_value))]
fn name_value(
    alloc: Global,
    tokens: &mut Cursor<'_>,
    start: Span,
    path: Path,
) -> Result<Meta, ReadFail>
    ensures { Gives (spec.name_value start path tokens.old) result tokens.new }
{
    let eq_span = tokens.here();
    tokens.expect_mark('=')?;
    if tokens.at_end() {
        return Err(ReadFail::Syntax);
    }
    let value = value_of(alloc, tokens.rest())?;
    tokens.skip_by(tokens.left());
    let span = tokens.upto(start);
    let name_value = MetaNameValue {
        path,
        eq_span,
        value,
        span,
    };
    Ok(Meta::NameValue(name_value))
}

/// `path`, `path(tokens)`, `path = value`
#[tactic(auto, unfolding(crate::specs::Attributes::meta))]
fn meta(alloc: Global, tokens: &mut Cursor<'_>) -> Result<Meta, ReadFail>
    ensures { Gives (spec.meta tokens.old) result tokens.new }
{
    let start = tokens.here();
    let path = meta_path(alloc, tokens)?;
    if let Some(delimiter) = delimiter_of(tokens.rest()) {
        return meta_list(alloc, tokens, start, path, delimiter);
    }
    if tokens.at_end() {
        return Ok(Meta::Path(path));
    }
    name_value(alloc, tokens, start, path)
}

/// `#[meta]`
#[tactic(auto, unfolding(crate::specs::Attributes::attribute))]
fn attribute(alloc: Global, tokens: &mut Cursor<'_>) -> Result<Attribute, ReadFail>
    ensures { Gives (spec.attribute tokens.old) result tokens.new }
{
    let start = tokens.here();
    tokens.expect_mark('#')?;
    if !is_group(Delimiter::Bracket, tokens.rest()) {
        return Err(ReadFail::Syntax);
    }
    let mut inner = tokens.contents();
    let meta = meta(alloc, &mut inner)?;
    inner.finish()?;
    tokens.skip();
    let span = tokens.upto(start);
    Ok(Attribute { meta, span })
}

/// Reads an attribute.
#[derive(Drop)]
struct AttributeReader(Global);

impl ReadItem<Attribute> for AttributeReader {
    ghost reader = { λ it. spec.attribute };

    fn read(&mut self, tokens: &mut Cursor<'_>) -> Result<Attribute, ReadFail> {
        attribute(self.0, tokens)
    }
}

/// The attributes that come next.
#[tactic(auto, unfolding(crate::specs::Attributes::attributes))]
pub fn attributes(alloc: Global, tokens: &mut Cursor<'_>) -> Result<Items<Attribute>, ReadFail>
    ensures { Gives (spec.attributes tokens.old) result tokens.new }
{
    each_while(alloc, tokens, While::Hash, &mut AttributeReader(alloc))
}
