//! Attributes: one that is changed and printed, and the documentation of an item.

ghost use Rattle.std.specs.Prelude.{◌≡◌, IfOk, flat_map};
ghost use Rattle.std.specs.Option.{option_copied};
ghost use Rattle.print_core.specs.Items.{attribute_tokens};
ghost use Rattle.print_core.specs.Marks.{contents};
ghost use Rattle.uses.specs.Attributes as spec;

use print_core::ToTokens;
use std::alloc::Global;
use syn_core::{Attribute, Expr, Ident, Lit, LitStr, Mem, Meta, Path, Text, TokenStream};

/// Puts another path before what the attribute holds: `#[old(a = 1)]` becomes `#[new(a = 1)]`.
pub fn rename(attribute: &mut Attribute, path: Path)
    ensures { attribute.new ≡ spec.renamed attribute.old path }
{
    match &mut attribute.meta {
        Meta::Path(old) => *old = path,
        Meta::List(list) => list.path = path,
        Meta::NameValue(pair) => pair.path = path,
    }
}

/// The tokens of the attribute with another path.
pub fn printed_as(alloc: Global, attribute: Attribute, path: Path) -> Mem<TokenStream>
    ensures { IfOk result (λ tokens. contents tokens ≡ attribute_tokens (spec.renamed attribute path)) }
{
    let mut attribute = attribute;
    rename(&mut attribute, path);
    attribute.to_token_stream(alloc)
}

/// The documentation in the attributes of an item, as in `/// text` or `#[doc = "text"]`: each string with
/// a line feed behind it.
pub fn doc_of(alloc: Global, attributes: &[Attribute]) -> Mem<Text>
    ensures { IfOk result (λ text. text ≡ flat_map spec.doc_in attributes.now) }
{
    let mut text = Text::new(alloc);
    for attribute in attributes {
        if let Some(line) = doc_in(attribute) {
            text.push_str(line.value.as_str())?;
            text.push_str("\n")?;
        }
    }
    Ok(text)
}

/// The string of a `doc` attribute.
fn doc_in(attribute: &Attribute) -> Option<&LitStr>
    ensures { option_copied result ≡ spec.doc_meta attribute.now.meta }
{
    let Meta::NameValue(pair) = &attribute.meta else {
        return None;
    };
    match pair.path.get_ident() {
        Some(ident) if is_doc(ident) => string_of(&pair.value),
        _ => None,
    }
}

fn string_of(expr: &Expr) -> Option<&LitStr>
    ensures { option_copied result ≡ spec.string_of expr.now }
{
    match expr {
        Expr::Lit(Lit::Str(text)) => Some(text),
        _ => None,
    }
}

fn is_doc(ident: &Ident) -> bool
    ensures { result ≡ spec.is_doc ident.now }
{
    match ident.text.as_str() {
        "doc" => !ident.raw,
        _ => false,
    }
}
