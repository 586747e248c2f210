//! The prefix property: what the rules of the grammar promise of the tokens behind the prefix that they read. This function does
//! nothing: its clauses are the law.

ghost use Rattle.law_prefix.specs.SameLookahead.{SameLookahead};
ghost use Rattle.law_prefix.specs.Closures.{SameLookaheadOfBodies, closure_head};
ghost use Rattle.law_prefix.specs.ReadsByPrefix.{ReadsByPrefix};
ghost use Rattle.syn_grammar.specs.Grammar.{within};
ghost use Rattle.syn_grammar.specs.Paths.{path};
ghost use Rattle.std.specs.Prelude.{ℕ, Bool};

/// A type and an expression of every depth, a path, and what stands before the body of a closure
/// have at least one token, and are read again from the same tokens, wherever these stand and
/// whatever follows them, as far as the rules look at it.
pub fn prefixes_are_read_again()
    ensures ty { (depth : ℕ) (allow_plus : Bool) → ReadsByPrefix SameLookahead ((within depth).ty allow_plus) }
    ensures expr { (depth level : ℕ) → ReadsByPrefix SameLookahead ((within depth).expr level) }
    ensures path { (depth : ℕ) (in_type : Bool) → ReadsByPrefix SameLookahead (path (within depth) in_type) }
    ensures closure_head { (depth : ℕ) → ReadsByPrefix SameLookaheadOfBodies (closure_head (within depth)) }
{}
