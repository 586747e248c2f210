//! What the computed tokens of a text are. The function does nothing: its clause is the law.

ghost use Rattle.law_lexed.specs.Lexed.{lexed};
ghost use Rattle.std.specs.Prelude.{◌≡◌, ◌↔◌, ℕ, Some};
ghost use Rattle.tok_core.specs.Endings.{IsWithin};
ghost use Rattle.tok_core.specs.Spells.{Spells};
ghost use Rattle.tok_scan.specs.Characters.{Characters};
ghost use Rattle.tok_types.specs.declared.tree.TokenStream.{TokenStream};

/// The computed tokens of a text are the stream that it spells, where that is deep at most as the lexer allows.
pub fn text_is_lexed()
    ensures { (source : ℕ) (text : Characters) (tokens : TokenStream)
        → (lexed source text ≡ Some tokens) ↔ (Spells source text tokens × IsWithin tokens) }
{}
