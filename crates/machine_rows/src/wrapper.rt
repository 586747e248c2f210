//! The types of the table that hold a type that is read on its own.

/// A type of the table that holds one type that is read on its own.
#[derive(Clone, Copy, Debug, PartialEq, Eq)]
pub enum Wrapper {
    Option,
    Box,
    /// `Result<T>`, whose error is darling's
    Result,
    /// `Result<T, Meta>`
    ResultMeta,
    Override,
    SpannedValue,
    /// `WithOriginal<T, Meta>`
    WithOriginal,
    HashMap(HashKey),
    BTreeMap(TreeKey),
    /// A `Vec` that is not read as a whole.
    Vec,
}

/// The type of the keys of a `HashMap`.
#[derive(Clone, Copy, Debug, PartialEq, Eq)]
pub enum HashKey {
    String,
    Ident,
    Path,
}

/// The type of the keys of a `BTreeMap`.
#[derive(Clone, Copy, Debug, PartialEq, Eq)]
pub enum TreeKey {
    String,
    Ident,
}
