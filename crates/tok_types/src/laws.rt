//! What equality, order and hashing of tokens promise. These functions do nothing: their clauses
//! are the laws.
ghost use Rattle.std.specs.Prelude.{◌≡◌, ◌↔◌, true};
ghost use Rattle.std.specs.Cmp.{IsEquivalence};
ghost use Rattle.std.specs.Hash.{Alike};
ghost use Rattle.std.specs.declared.cmp.Ordering.TheVariants.{Equal};
ghost use Rattle.tok_types.specs.Respan.{group_at, stream_at, tree_at};
ghost use Rattle.tok_types.specs.declared.ident.Ident.{Ident};
ghost use Rattle.tok_types.specs.declared.ident.Lifetime.{Lifetime};
ghost use Rattle.tok_types.specs.declared.span.Span.{Span};
ghost use Rattle.tok_types.specs.declared.tree.Group.{Group};
ghost use Rattle.tok_types.specs.declared.tree.Literal.{Literal};
ghost use Rattle.tok_types.specs.declared.tree.Punct.{Punct};
ghost use Rattle.tok_types.specs.declared.tree.TokenStream.{TokenStream};
ghost use Rattle.tok_types.specs.declared.tree.TokenTree.{TokenTree};

use crate::ident::{Ident, Lifetime};
use crate::tree::{Group, Literal, Punct, TokenStream, TokenTree};
use std::hash::Hash;

/// Equality of tokens is an equivalence.
pub fn equality_is_an_equivalence()
    ensures ident { IsEquivalence ⟦<Ident as PartialEq>⟧.eq }
    ensures lifetime { IsEquivalence ⟦<Lifetime as PartialEq>⟧.eq }
    ensures punct { IsEquivalence ⟦<Punct as PartialEq>⟧.eq }
    ensures literal { IsEquivalence ⟦<Literal as PartialEq>⟧.eq }
    ensures group { IsEquivalence ⟦<Group as PartialEq>⟧.eq }
    ensures tree { IsEquivalence ⟦<TokenTree as PartialEq>⟧.eq }
    ensures stream { IsEquivalence ⟦<TokenStream as PartialEq>⟧.eq }
{}

/// Tokens without parts are equal exactly where they are the same but for their spans.
pub fn equal_tokens_differ_in_spans_alone()
    ensures ident { (a b : Ident) → (⟦<Ident as PartialEq>⟧.eq a b ≡ true) ↔ ((a.text ≡ b.text) × (a.raw ≡ b.raw)) }
    ensures lifetime { (a b : Lifetime) → (⟦<Lifetime as PartialEq>⟧.eq a b ≡ true)
        ↔ ((a.ident.text ≡ b.ident.text) × (a.ident.raw ≡ b.ident.raw)) }
    ensures punct { (a b : Punct) → (⟦<Punct as PartialEq>⟧.eq a b ≡ true) ↔ ((a.ch ≡ b.ch) × (a.joint ≡ b.joint)) }
    ensures literal { (a b : Literal) → (⟦<Literal as PartialEq>⟧.eq a b ≡ true) ↔ (a.text ≡ b.text) }
{}

/// A group, a tree or a stream is equal to what it becomes where every span in it is replaced.
pub fn equality_ignores_spans()
    ensures group { (span : Span) (a : Group) → ⟦<Group as PartialEq>⟧.eq a (group_at span a) ≡ true }
    ensures tree { (span : Span) (a : TokenTree) → ⟦<TokenTree as PartialEq>⟧.eq a (tree_at span a) ≡ true }
    ensures stream { (span : Span) (a : TokenStream) → ⟦<TokenStream as PartialEq>⟧.eq a (stream_at span a) ≡ true }
{}

/// Equal tokens feed a hasher alike.
pub fn equal_tokens_hash_alike()
    ensures ident { Alike ⟦<Ident as PartialEq>⟧.eq ⟦<Ident as Hash>⟧.hash_input }
    ensures lifetime { Alike ⟦<Lifetime as PartialEq>⟧.eq ⟦<Lifetime as Hash>⟧.hash_input }
    ensures punct { Alike ⟦<Punct as PartialEq>⟧.eq ⟦<Punct as Hash>⟧.hash_input }
    ensures literal { Alike ⟦<Literal as PartialEq>⟧.eq ⟦<Literal as Hash>⟧.hash_input }
    ensures group { Alike ⟦<Group as PartialEq>⟧.eq ⟦<Group as Hash>⟧.hash_input }
    ensures tree { Alike ⟦<TokenTree as PartialEq>⟧.eq ⟦<TokenTree as Hash>⟧.hash_input }
    ensures stream { Alike ⟦<TokenStream as PartialEq>⟧.eq ⟦<TokenStream as Hash>⟧.hash_input }
{}

/// Identifiers and lifetimes tie in their order exactly where they are equal.
pub fn order_agrees_with_equality()
    ensures ident { (a b : Ident) → (⟦<Ident as Ord>⟧.cmp a b ≡ Equal) ↔ (⟦<Ident as PartialEq>⟧.eq a b ≡ true) }
    ensures lifetime { (a b : Lifetime) → (⟦<Lifetime as Ord>⟧.cmp a b ≡ Equal)
        ↔ (⟦<Lifetime as PartialEq>⟧.eq a b ≡ true) }
{}
