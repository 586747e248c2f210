//! Places of a text, and which of them starts first.

ghost use Rattle.std.specs.Prelude.{◌≡◌, Some};
ghost use Rattle.machine_forms.specs.Places as spec;

use codegen_core::Unsupported;
use tok_types::Span;

/// What stands at a place of a text.
pub(crate) trait Placed: Copy {
    ghost use Rattle.tok_types.specs.declared.span.Span.{Span};

    ghost span_of: { Self → Span };

    fn span(&self) -> Span
        ensures { result ≡ span_of self.now };
}

impl Placed for Span {
    ghost span_of = { λ span. span };

    fn span(&self) -> Span {
        *self
    }
}

impl Placed for Unsupported {
    ghost span_of = { λ it. it.span };

    fn span(&self) -> Span {
        self.span
    }
}

/// The span that starts first; of several that start there, the one that is listed first. A span of no text starts before
/// all others.
pub fn earliest(spans: &[Span]) -> Option<Span>
    ensures { result ≡ spec.earliest spans.now }
{
    earliest_of(spans)
}

/// The form that starts first; of several that start there, the one that is listed first.
pub fn earliest_form(forms: &[Unsupported]) -> Option<Unsupported>
    ensures { result ≡ spec.earliest_of (λ it. it.span) forms.now }
{
    earliest_of(forms)
}

/// The thing that starts first; of several that start there, the one that is listed first.
pub(crate) fn earliest_of<T: Placed>(things: &[T]) -> Option<T>
    ensures { result ≡ spec.earliest_of T.span_of things.now }
{
    let mut found = None;
    for thing in things {
        found = Some(sooner(found, *thing));
    }
    found
}

/// Of what was found and one more thing the one that starts first.
fn sooner<T: Placed>(found: Option<T>, thing: T) -> T
    ensures { Some result ≡ spec.sooner T.span_of found (Some thing) }
{
    match found {
        Some(found) if start_of(found.span()) <= start_of(thing.span()) => found,
        _ => thing,
    }
}

/// The byte where a span starts.
fn start_of(span: Span) -> u32
    ensures { result ≡ spec.start_of span }
{
    match span {
        Span::CallSite => 0,
        Span::At { start, .. } => start,
    }
}
