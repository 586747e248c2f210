//! Fields and variants.

ghost use Rattle.std.specs.Prelude.{◌≡◌};
ghost use Rattle.syn_items.specs.Fields as spec;
ghost use Rattle.syn_grammar.specs.Reads.{Gives};

use crate::attr::attributes;
use crate::generics::{expr, ty};
use crate::restriction::visibility;
use base_core::Items;
use node_core::{Field, Fields, FieldsNamed, FieldsUnnamed, Variant};
use node_expr::Expr;
use std::alloc::Global;
use syn_grammar::{Cursor, ReadFail, is_group};
use syn_lists::{ReadItem, items_after};
use syn_types::ANY_LEVEL;
use tok_types::Delimiter;

/// `#[attr] pub name: T`
#[tactic(auto, unfolding(crate::specs::Fields::named_field))]
fn named_field(alloc: Global, tokens: &mut Cursor<'_>) -> Result<Field, ReadFail>
    ensures { Gives (spec.named_field tokens.old) result tokens.new }
{
    let start = tokens.here();
    let attrs = attributes(alloc, tokens)?;
    let vis = visibility(alloc, tokens)?;
    let ident = tokens.take_name(alloc)?;
    tokens.expect_colon()?;
    let ty = ty(alloc, tokens)?;
    let span = tokens.upto(start);
    let field = Field {
        attrs,
        vis,
        ident: Some(ident),
        ty,
        span,
    };
    Ok(field)
}

/// `#[attr] pub T`
#[tactic(auto, unfolding(crate::specs::Fields::unnamed_field))]
fn unnamed_field(alloc: Global, tokens: &mut Cursor<'_>) -> Result<Field, ReadFail>
    ensures { Gives (spec.unnamed_field tokens.old) result tokens.new }
{
    let start = tokens.here();
    let attrs = attributes(alloc, tokens)?;
    let vis = visibility(alloc, tokens)?;
    let ty = ty(alloc, tokens)?;
    let span = tokens.upto(start);
    let field = Field {
        attrs,
        vis,
        ident: None,
        ty,
        span,
    };
    Ok(field)
}

/// Reads a field with a name.
#[derive(Drop)]
struct NamedFieldReader(Global);

impl ReadItem<Field> for NamedFieldReader {
    ghost reader = { λ it. spec.named_field };

    fn read(&mut self, tokens: &mut Cursor<'_>) -> Result<Field, ReadFail> {
        named_field(self.0, tokens)
    }
}

/// Named fields, to the end.
fn named_fields(alloc: Global, tokens: &mut Cursor<'_>) -> Result<Items<Field>, ReadFail>
    ensures { Gives (spec.named_fields tokens.old) result tokens.new }
{
    items_after(tokens, &mut NamedFieldReader(alloc), Items::new(alloc))
}

/// Reads a field without a name.
#[derive(Drop)]
struct UnnamedFieldReader(Global);

impl ReadItem<Field> for UnnamedFieldReader {
    ghost reader = { λ it. spec.unnamed_field };

    fn read(&mut self, tokens: &mut Cursor<'_>) -> Result<Field, ReadFail> {
        unnamed_field(self.0, tokens)
    }
}

/// Fields without names, to the end.
fn unnamed_fields(alloc: Global, tokens: &mut Cursor<'_>) -> Result<Items<Field>, ReadFail>
    ensures { Gives (spec.unnamed_fields tokens.old) result tokens.new }
{
    items_after(tokens, &mut UnnamedFieldReader(alloc), Items::new(alloc))
}

/// `{ a: A, b: B }`
#[tactic(auto, unfolding(crate::specs::Fields::fields_named))]
pub(crate) fn fields_named(alloc: Global, tokens: &mut Cursor<'_>) -> Result<FieldsNamed, ReadFail>
    ensures { Gives (spec.fields_named tokens.old) result tokens.new }
{
    let span = tokens.here();
    if !is_group(Delimiter::Brace, tokens.rest()) {
        return Err(ReadFail::Syntax);
    }
    let mut inner = tokens.contents();
    let named = named_fields(alloc, &mut inner)?;
    inner.finish()?;
    tokens.skip();
    Ok(FieldsNamed { named, span })
}

/// `(A, B)`
#[tactic(auto, unfolding(crate::specs::Fields::fields_unnamed))]
pub(crate) fn fields_unnamed(
    alloc: Global,
    tokens: &mut Cursor<'_>,
) -> Result<FieldsUnnamed, ReadFail>
    ensures { Gives (spec.fields_unnamed tokens.old) result tokens.new }
{
    let span = tokens.here();
    if !is_group(Delimiter::Parenthesis, tokens.rest()) {
        return Err(ReadFail::Syntax);
    }
    let mut inner = tokens.contents();
    let unnamed = unnamed_fields(alloc, &mut inner)?;
    inner.finish()?;
    tokens.skip();
    Ok(FieldsUnnamed { unnamed, span })
}

/// The fields of a variant.
#[tactic(auto, unfolding(crate::specs::Fields::fields))]
fn fields(alloc: Global, tokens: &mut Cursor<'_>) -> Result<Fields, ReadFail>
    ensures { Gives (spec.fields tokens.old) result tokens.new }
{
    if is_group(Delimiter::Brace, tokens.rest()) {
        let fields = fields_named(alloc, tokens)?;
        return Ok(Fields::Named(fields));
    }
    if is_group(Delimiter::Parenthesis, tokens.rest()) {
        let fields = fields_unnamed(alloc, tokens)?;
        return Ok(Fields::Unnamed(fields));
    }
    Ok(Fields::Unit)
}

/// `= 1`, or nothing.
fn discriminant(alloc: Global, tokens: &mut Cursor<'_>) -> Result<Option<Expr>, ReadFail>
    ensures { Gives (spec.discriminant_of tokens.old) result tokens.new }
{
    if !tokens.eat_mark('=') {
        return Ok(None);
    }
    let value = expr(alloc, tokens, ANY_LEVEL)?;
    Ok(Some(value))
}

/// `#[attr] Name(A, B) = 1`
#[tactic(auto, unfolding(crate::specs::Fields::variant))]
fn variant(alloc: Global, tokens: &mut Cursor<'_>) -> Result<Variant, ReadFail>
    ensures { Gives (spec.variant tokens.old) result tokens.new }
{
    let start = tokens.here();
    let attrs = attributes(alloc, tokens)?;
    let ident = tokens.take_name(alloc)?;
    let fields = fields(alloc, tokens)?;
    let discriminant = discriminant(alloc, tokens)?;
    let span = tokens.upto(start);
    let variant = Variant {
        attrs,
        ident,
        fields,
        discriminant,
        span,
    };
    Ok(variant)
}

/// Reads a variant.
#[derive(Drop)]
struct VariantReader(Global);

impl ReadItem<Variant> for VariantReader {
    ghost reader = { λ it. spec.variant };

    fn read(&mut self, tokens: &mut Cursor<'_>) -> Result<Variant, ReadFail> {
        variant(self.0, tokens)
    }
}

/// Variants, to the end.
pub(crate) fn variants(alloc: Global, tokens: &mut Cursor<'_>) -> Result<Items<Variant>, ReadFail>
    ensures { Gives (spec.variants tokens.old) result tokens.new }
{
    items_after(tokens, &mut VariantReader(alloc), Items::new(alloc))
}
