//! `|| _darling::export::Ok(Self::V)`, the closure that a true `word` at a variant is.

ghost use Rattle.std.specs.Prelude.{◌≡◌, ◌++◌, ◌∷◌, [], IfOk, OnOk, OnErr};
ghost use Rattle.codegen_word.specs.WordClosure as spec;

use base_core::{Items, Mem, Text, TryClone};
use codegen_program::Callable;
use node_expr::{Expr, ExprPath, Path, PathArguments, PathSegment};
use node_make::make::{expr_call, expr_closure};
use std::alloc::Global;
use tok_types::{Ident, Punct, Span, TokenStream, TokenTree};

/// `|| _darling::export::Ok(Self::V)`, which answers the variant of this identifier.
#[tactic(auto, unfolding(crate::specs::WordClosure::word_closure))]
pub fn word_closure(alloc: Global, variant: &Ident) -> Mem<Callable>
    ensures { IfOk result (λ it. it ≡ spec.word_closure variant.now) }
{
    let tokens = no_arguments(alloc)?;
    let body = word_body(alloc, variant)?;
    let closure = expr_closure(alloc, tokens, body, Span::CallSite)?;
    Ok(Callable::from(closure))
}

/// `||`
fn no_arguments(alloc: Global) -> Mem<TokenStream>
    ensures { IfOk result (λ it. it ≡ spec.no_arguments) }
{
    let mut trees = Items::new(alloc);
    trees.push(bar(true))?;
    trees.push(bar(false))?;
    Ok(TokenStream { trees })
}

fn bar(joint: bool) -> TokenTree
    ensures { result ≡ spec.bar joint }
{
    TokenTree::Punct(Punct {
        ch: '|',
        joint,
        span: Span::CallSite,
    })
}

/// `_darling::export::Ok(Self::V)`
fn word_body(alloc: Global, variant: &Ident) -> Mem<Expr>
    ensures { IfOk result (λ it. it ≡ spec.word_body variant.now) }
{
    let built = built_variant(alloc, variant)?;
    let args = Items::of(alloc, built)?;
    let func = ok_path(alloc)?;
    expr_call(alloc, func, args, Span::CallSite)
}

/// `_darling::export::Ok`
fn ok_path(alloc: Global) -> Mem<Expr>
    ensures { IfOk result (λ it. it ≡ spec.ok_path) }
{
    let mut segments = export_path(alloc)?;
    push_segment(own_ident(alloc, "Ok")?, &mut segments)?;
    Ok(path_of(segments))
}

/// `_darling::export`
fn export_path(alloc: Global) -> Mem<Items<PathSegment>>
    ensures { IfOk result (λ it. it ≡ spec.export_path) }
{
    let mut segments = Items::new(alloc);
    push_segment(own_ident(alloc, "_darling")?, &mut segments)?;
    push_segment(own_ident(alloc, "export")?, &mut segments)?;
    Ok(segments)
}

/// `Self::V`
fn built_variant(alloc: Global, variant: &Ident) -> Mem<Expr>
    ensures { IfOk result (λ it. it ≡ spec.built_variant variant.now) }
{
    let mut segments = Items::new(alloc);
    push_segment(own_ident(alloc, "Self")?, &mut segments)?;
    push_segment(variant.try_clone(alloc)?, &mut segments)?;
    Ok(path_of(segments))
}

fn path_of(segments: Items<PathSegment>) -> Expr
    ensures { result ≡ spec.path_of segments }
{
    let span = Span::CallSite;
    let path = Path {
        leading_colon: false,
        segments,
        span,
    };
    Expr::Path(ExprPath {
        qself: None,
        path,
        span,
    })
}

fn push_segment(ident: Ident, segments: &mut Items<PathSegment>) -> Mem<()>
    ensures ok { OnOk result (segments.new ≡ segments.old ++ spec.segment ident ∷ []) }
    ensures err { OnErr result (segments.new ≡ segments.old) }
{
    segments.push(PathSegment {
        ident,
        arguments: PathArguments::None,
        span: Span::CallSite,
    })
}

/// An identifier that no text shows.
fn own_ident(alloc: Global, text: &str) -> Mem<Ident>
    ensures { IfOk result (λ it. it ≡ spec.own_ident text.now) }
{
    Ok(Ident {
        text: Text::from_str(alloc, text)?,
        raw: false,
        span: Span::CallSite,
    })
}
