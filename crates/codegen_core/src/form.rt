//! Forms of declarations that have no program.

ghost use Rattle.std.specs.Prelude.{◌≡◌};
ghost use Rattle.codegen_core.specs.Forms as spec;

use tok_types::Span;

/// A form that has no program, or that no run supports.
#[derive(Clone, Copy, Debug, PartialEq, Eq)]
pub enum Form {
    /// An enum without variants that is read from an element.
    EmptyEnum,
    /// A tuple struct or a tuple variant that is not read as its one field is.
    Tuple,
    /// A declaration with parameters or a `where` clause.
    Generics,
    /// A field of a name that generated code has for itself, or a path that begins with `_darling`.
    GeneratedName,
    /// A field `ident` under `FromAttributes`.
    IdentUnderAttributes,
    /// A part of the element beside the one field as which a struct is read.
    MagicBesideTransparent,
    /// A field of a variant that would take over the enum's default.
    InheritedDefault,
    /// A function for what was built, where no statement builds it.
    Transform,
    /// A function for the value without item, where no statement asks it.
    FromNone,
    /// A function for expressions, where no statement asks it.
    FromExpr,
}

/// A form, and where it stands.
#[derive(Clone, Copy, Debug, PartialEq, Eq)]
pub struct Unsupported {
    pub form: Form,
    pub span: Span,
}

impl Form {
    /// Its words in a refusal.
    pub fn words(self) -> &'static str
        ensures { result.now ≡ spec.words self }
    {
        match self {
            Form::EmptyEnum => "empty enum",
            Form::Tuple => "tuple",
            Form::Generics => "generics",
            Form::GeneratedName => "generated name",
            Form::IdentUnderAttributes => "ident under FromAttributes",
            Form::MagicBesideTransparent => "magic beside transparent",
            Form::InheritedDefault => "inherited default",
            Form::Transform => "transform",
            Form::FromNone => "from_none",
            Form::FromExpr => "from_expr",
        }
    }
}
