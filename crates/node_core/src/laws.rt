//! Equality of items, as laws.

ghost use Rattle.std.specs.Prelude.{◌≡◌, true};
ghost use Rattle.tok_types.specs.declared.span.Span.{Span};
ghost use Rattle.node_core.specs.declared.derive.DeriveInput.{DeriveInput};

use crate::derive::DeriveInput;

/// An item is equal to what it becomes where its span is replaced. This function does nothing: its
/// clause is the law. The other nodes have theirs in a crate above.
pub fn equality_of_items_ignores_their_span()
    ensures { (a : DeriveInput) (span : Span) → ⟦<DeriveInput as PartialEq>⟧.eq a (record a { span = span }) ≡ true }
{}
