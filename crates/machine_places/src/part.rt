//! Elements and parts of them, which a type takes as they stand.

/// An element, or a part of one, by the type that takes it as it stands.
#[derive(Clone, Copy, Debug, PartialEq, Eq)]
pub enum Part {
    DeriveInput,
    Field,
    Variant,
    TypeParam,
    GenericParam,
    Generics,
    /// `Vec<Attribute>`
    Attributes,
    Ident,
    /// `Option<Ident>`
    OptionalIdent,
    Visibility,
    Type,
    /// `Option<Type>`
    OptionalType,
    /// `Option<Expr>`
    OptionalExpr,
    /// `Vec<TypeParamBound>`
    Bounds,
}
