//! What the definitions of values imply. These functions do nothing: their clauses are the laws.
ghost use Rattle.std.specs.Prelude.{◌≡◌, []};
ghost use Rattle.tok_scan.specs.Characters.{Characters};
ghost use Rattle.tok_scan.specs.Pieces.{IsPieceAt};
ghost use Rattle.tok_scan.specs.declared.kind.Kind.TheVariants as kind;
ghost use Rattle.tok_lit.specs.Values.{IsValue};
ghost use Rattle.tok_lit.specs.declared.value.Value.{Value};

/// A literal has one kind and one value.
pub fn literal_has_one_value()
    ensures { (text : Characters) (a b : Value) → IsValue text a → IsValue text b → a ≡ b }
{}

/// What has a value is one whole literal, and a text that is one has a value.
pub fn literals_have_values()
    ensures literal { (text : Characters) (v : Value) → IsValue text v → IsPieceAt kind.Literal text text [] }
    ensures valued { (text : Characters) → IsPieceAt kind.Literal text text [] → (v : Value) × IsValue text v }
{}
