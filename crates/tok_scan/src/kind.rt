//! The kinds of pieces that a text is cut into.

use tok_types::Delimiter;

/// What a piece of a text is.
#[derive(Clone, Copy, Debug, PartialEq, Eq, Hash)]
pub enum Kind {
    /// One character of white space.
    White,
    /// A comment of one line, or one between `/*` and `*/`.
    Comment,
    /// A comment of one line that documents: `///`, and no fourth `/`.
    Doc,
    /// An identifier or a keyword.
    Ident,
    /// An identifier after `r#`.
    RawIdent,
    /// An identifier, also a raw one, after `'`.
    Lifetime,
    /// A mark, and whether another follows directly.
    Mark { joint: bool },
    /// A literal, with its prefix, its quotes and its suffix.
    Literal,
    /// The delimiter that begins a group.
    Open(Delimiter),
    /// The delimiter that ends a group.
    Close(Delimiter),
}

/// A piece that a text begins with.
#[derive(Clone, Copy, Debug, PartialEq, Eq)]
pub struct Found {
    pub kind: Kind,
    /// The number of its characters.
    pub length: usize,
}
