//! What the definitions of spelling imply. These functions do nothing: their clauses are the laws.
ghost use Rattle.std.specs.Prelude.{◌≡◌, ℕ, List, [], chars, map};
ghost use Rattle.std.specs.List.{AllByRecursion};
ghost use Rattle.std.specs.Str.{IsUtf8};
ghost use Rattle.tok_scan.specs.Characters.{Characters};
ghost use Rattle.tok_core.specs.Erased.{flat_at};
ghost use Rattle.tok_core.specs.Flat.{flat_stream};
ghost use Rattle.tok_types.specs.Respan.{stream_at};
ghost use Rattle.tok_core.specs.Spells.{IsAtItsBytes, Piece, Spells, Stand};
ghost use Rattle.tok_types.specs.declared.span.Span.{Span};
ghost use Rattle.tok_types.specs.declared.tree.TokenStream.{TokenStream};

/// Two streams with the same flat tokens are one.
pub fn flat_tokens_tell_the_stream()
    ensures { (a b : TokenStream) → flat_stream a ≡ flat_stream b → a ≡ b }
{}

/// A text spells one stream at most.
pub fn text_has_one_reading()
    ensures { (source : ℕ) (text : Characters) (a b : TokenStream)
        → Spells source text a → Spells source text b → a ≡ b }
{}

/// Each piece of a text stands in it at its bytes.
pub fn pieces_stand_at_their_bytes()
    ensures { (text : List ℕ) (pieces : List Piece) (end : ℕ)
        → IsUtf8 text → Stand 0 (chars text) pieces end [] → AllByRecursion (IsAtItsBytes text) pieces }
{}

/// One span everywhere changes the spans alone.
pub fn one_span_keeps_the_tokens()
    ensures { (span : Span) (tokens : TokenStream)
        → flat_stream (stream_at span tokens) ≡ map (flat_at span) (flat_stream tokens) }
{}
