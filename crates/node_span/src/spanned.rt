//! What has a span: the trait, and lists and options of it.

ghost use Rattle.std.specs.Prelude.{◌≡◌};
ghost use Rattle.node_span.specs.Spanned.{list_span, option_span};

use base_core::{Boxed, Items};
use node_core::Punctuated;
use tok_types::Span;

/// A token, a node, or a list of them, that knows where it stands.
pub trait Spanned {
    ghost use Rattle.tok_types.specs.declared.span.Span.{Span};

    ghost span_of: { Self → Span };

    /// From the start of the first token to the end of the last; the call site for a node without
    /// tokens.
    fn spanned(&self) -> Span
        ensures { result ≡ span_of self.now };
}

impl<T: Spanned> Spanned for Boxed<T> {
    ghost span_of = { T.span_of };

    fn spanned(&self) -> Span {
        self.get().spanned()
    }
}

impl<T: Spanned> Spanned for Option<T> {
    ghost span_of = { option_span T.span_of };

    fn spanned(&self) -> Span {
        match self {
            Some(it) => it.spanned(),
            None => Span::CallSite,
        }
    }
}

impl<T: Spanned> Spanned for Items<T> {
    ghost span_of = { list_span T.span_of };

    fn spanned(&self) -> Span {
        join_ends(self.as_slice())
    }
}

impl<T: Spanned, P> Spanned for Punctuated<T, P> {
    ghost span_of = { λ it. list_span T.span_of it.items };

    fn spanned(&self) -> Span {
        self.items.spanned()
    }
}

/// From the start of the first to the end of the last; the call site where there is none.
fn join_ends<T: Spanned>(items: &[T]) -> Span
    ensures { result ≡ list_span T.span_of items.now }
{
    match (items.first(), items.last()) {
        (Some(first), Some(last)) => first.spanned().join(last.spanned()),
        _ => Span::CallSite,
    }
}
