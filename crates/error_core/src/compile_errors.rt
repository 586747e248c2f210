//! Faults as calls of `compile_error!`, by which the compiler tells them.
ghost use Rattle.std.specs.Prelude.{◌≡◌, ◌++◌, map, IfOk, OnOk};
ghost use Rattle.node_core.specs.Error.{faults_of};
ghost use Rattle.error_core.specs.CompileErrors as spec;
ghost use Rattle.error_core.specs.Syn.{syn_fault};
ghost use Rattle.error_core.specs.ErrorView.{leaves};

use crate::error::Error;
use base_core::{Boxed, Items, Mem, Text};
use node_core::SynError;
use std::alloc::Global;
use tok_core::quoted;
use tok_types::{Delimiter, Group, Ident, Literal, Punct, Span, TokenStream, TokenTree};

/// For each fault, in order, `::core::compile_error!{"text"}` with each token at its place. Want of
/// memory drops the faults.
pub fn into_compile_error(alloc: Global, error: SynError) -> Mem<TokenStream>
    ensures { IfOk result (λ tokens. tokens ≡ spec.compile_errors (faults_of error)) }
{
    let faults = error.into_faults(alloc)?;
    let mut trees = Items::new(alloc);
    for fault in faults.as_slice() {
        push_compile_error(alloc, &mut trees, fault.0, &fault.1)?;
    }
    Ok(TokenStream { trees })
}

impl Error {
    /// The faults as the compiler is told them: [`into_syn`](Error::into_syn), and then
    /// [`into_compile_error`].
    pub fn write_errors(self, alloc: Global) -> Mem<TokenStream>
        ensures { IfOk result (λ tokens. tokens ≡ spec.compile_errors (map syn_fault (leaves self))) }
    {
        let error = self.into_syn(alloc)?;
        into_compile_error(alloc, error)
    }
}

fn push_compile_error(
    alloc: Global,
    trees: &mut Items<TokenTree>,
    span: Span,
    text: &Text,
) -> Mem<()>
    ensures { OnOk result (trees.new ≡ trees.old ++ spec.compile_error span text.now) }
{
    push_segment(alloc, trees, "core", span)?;
    push_segment(alloc, trees, "compile_error", span)?;
    push_call(alloc, trees, text, span)
}

fn push_segment(alloc: Global, trees: &mut Items<TokenTree>, name: &str, span: Span) -> Mem<()>
    ensures { OnOk result (trees.new ≡ trees.old ++ spec.segment name.now span) }
{
    trees.push(mark(':', true, span))?;
    trees.push(mark(':', false, span))?;
    let text = Text::from_str(alloc, name)?;
    let raw = false;
    trees.push(TokenTree::Ident(Ident { text, raw, span }))
}

fn push_call(alloc: Global, trees: &mut Items<TokenTree>, text: &Text, span: Span) -> Mem<()>
    ensures { OnOk result (trees.new ≡ trees.old ++ spec.call text.now span) }
{
    trees.push(mark('!', false, span))?;
    let text = string(alloc, text, span)?;
    trees.push(braced(alloc, text, span)?)
}

fn mark(ch: char, joint: bool, span: Span) -> TokenTree
    ensures { result ≡ spec.mark ch joint span }
{
    TokenTree::Punct(Punct { ch, joint, span })
}

fn string(alloc: Global, text: &Text, span: Span) -> Mem<TokenTree>
    ensures { IfOk result (λ token. token ≡ spec.string text.now span) }
{
    let text = quoted(alloc, text.as_str())?;
    Ok(TokenTree::Literal(Literal { text, span }))
}

fn braced(alloc: Global, inside: TokenTree, span: Span) -> Mem<TokenTree>
    ensures { IfOk result (λ token. token ≡ spec.braced inside span) }
{
    let trees = Items::of(alloc, inside)?;
    let group = Group {
        delimiter: Delimiter::Brace,
        stream: TokenStream { trees },
        span,
    };
    Ok(TokenTree::Group(Boxed::new(alloc, group)?))
}
