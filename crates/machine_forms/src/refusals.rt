//! What stands against running a program.

ghost use Rattle.std.specs.Prelude.{◌≡◌};
ghost use Rattle.machine_forms.specs.Refusals as spec;

use crate::places::{earliest, earliest_form};
use crate::unfit::Unfit;
use base_core::Items;
use codegen_core::Unsupported;
use tok_types::Span;

/// All that stands against running a program with a host: a row for each of [`Unfit`]'s answers, in their order. Places of a
/// row stand in the order in which the program prints.
#[derive(Debug)]
pub struct Refusals {
    /// Names that stand twice, at the later of the two, and declarations that derive a trait twice.
    pub duplicate_names: Items<Span>,
    pub unsupported: Items<Unsupported>,
    /// Types that don't fit their places.
    pub unknown_types: Items<Span>,
    /// Functions that the host doesn't offer.
    pub unknown_callables: Items<Span>,
    /// Whether the last declaration derives `FromDeriveInput`.
    pub has_receiver: bool,
}

impl Refusals {
    /// The first row that has a place, at the one that is listed first.
    pub fn first(&self) -> Option<Unfit>
        ensures { result ≡ spec.first self.now }
    {
        first_row(
            self.duplicate_names.first().copied(),
            self.unsupported.first().copied(),
            self.unknown_types.first().copied(),
            self.unknown_callables.first().copied(),
            self.has_receiver,
        )
    }

    /// The first row that has a place, at the one that starts first in the text.
    pub fn first_in_text(&self) -> Option<Unfit>
        ensures { result ≡ spec.first_in_text self.now }
    {
        first_row(
            earliest(self.duplicate_names.as_slice()),
            earliest_form(self.unsupported.as_slice()),
            earliest(self.unknown_types.as_slice()),
            earliest(self.unknown_callables.as_slice()),
            self.has_receiver,
        )
    }
}

/// The first row that has a place, from a place of each row that has one.
fn first_row(
    name: Option<Span>,
    form: Option<Unsupported>,
    ty: Option<Span>,
    callable: Option<Span>,
    has_receiver: bool,
) -> Option<Unfit>
    ensures { result ≡ spec.first_row name form ty callable has_receiver }
{
    match (name, form, ty, callable) {
        (Some(span), _, _, _) => Some(Unfit::DuplicateName { span }),
        (_, Some(Unsupported { form, span }), _, _) => Some(Unfit::Unsupported { form, span }),
        (_, _, Some(span), _) => Some(Unfit::UnknownType { span }),
        (_, _, _, Some(span)) => Some(Unfit::UnknownCallable { span }),
        _ if has_receiver => None,
        _ => Some(Unfit::NoReceiver),
    }
}

impl Drop for Refusals {
    fn drop(self) {
        let Self {
            duplicate_names: _duplicate_names,
            unsupported: _unsupported,
            unknown_types: _unknown_types,
            unknown_callables: _unknown_callables,
            has_receiver: _,
        } = self;
    }
}
