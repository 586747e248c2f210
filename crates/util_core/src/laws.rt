//! What equality, order and hashing promise. These functions do nothing: their clauses are the laws.

ghost use Rattle.std.specs.Prelude.{◌≡◌, ◌↔◌, true};
ghost use Rattle.std.specs.Cmp.{IsEquivalence};
ghost use Rattle.std.specs.Hash.{Alike};
ghost use Rattle.std.specs.declared.cmp.Ordering.TheVariants.{Equal};
ghost use Rattle.tok_types.specs.declared.ident.Ident.{Ident};

use crate::ident_string::IdentString;
use std::hash::Hash;

/// Identifiers with their texts are equal exactly where they are the same but for their spans. Equal
/// ones feed a hasher alike, and these alone tie in the order.
pub fn equal_ident_strings_are_alike()
    ensures equivalence { IsEquivalence ⟦<IdentString as PartialEq>⟧.eq }
    ensures spans { (a b : Ident) → (⟦<IdentString as PartialEq>⟧.eq a b ≡ true)
        ↔ ((a.text ≡ b.text) × (a.raw ≡ b.raw)) }
    ensures hashing { Alike ⟦<IdentString as PartialEq>⟧.eq ⟦<IdentString as Hash>⟧.hash_input }
    ensures order { (a b : Ident) → (⟦<IdentString as Ord>⟧.cmp a b ≡ Equal)
        ↔ (⟦<IdentString as PartialEq>⟧.eq a b ≡ true) }
{}
