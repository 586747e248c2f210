//! The types of the table that hold no type that is read on its own.

/// A type of the table that holds no type that is read on its own.
#[derive(Clone, Copy, Debug, PartialEq, Eq)]
pub enum Leaf {
    Bool,
    Char,
    String,
    PathBuf,
    /// `i8`, `usize`
    Integer(Integer),
    /// `NonZeroI8`, `NonZeroUsize`
    NonZero(Integer),
    Flag,
    Ident,
    IdentString,
    Path,
    Expr,
    PreservedStrExpr,
    ExprArray,
    ExprPath,
    ExprRange,
    TypePath,
    /// `Type`, `TypeTuple`, `Visibility`
    Parsed(Parsed),
    /// `Vec<LitInt>`, `Vec<u8>`, `Vec<Ident>`
    Vec(VecItem),
    Lit,
    /// `LitInt`, `LitStr`
    LitOf(LitKind),
    /// `HashSet<Ident>`
    HashSet(SetItem),
    PathList,
    /// `Punctuated<Expr, Comma>`
    Punctuated(PunctuatedItem),
    Callable,
    Meta,
    Ignored,
}

/// The width of an integer.
#[derive(Clone, Copy, Debug, PartialEq, Eq)]
pub enum Integer {
    I8,
    I16,
    I32,
    I64,
    I128,
    Isize,
    U8,
    U16,
    U32,
    U64,
    U128,
    Usize,
}

/// A node that is parsed from a string, or from the tokens of an expression.
#[derive(Clone, Copy, Debug, PartialEq, Eq)]
pub enum Parsed {
    Type,
    TypeArray,
    TypeFnPtr,
    TypeGroup,
    TypeImplTrait,
    TypeInfer,
    TypeNever,
    TypeParam,
    TypeParen,
    TypePtr,
    TypeReference,
    TypeSlice,
    TypeTraitObject,
    TypeTuple,
    Visibility,
    WhereClause,
}

/// The kind of a literal.
#[derive(Clone, Copy, Debug, PartialEq, Eq)]
pub enum LitKind {
    Int,
    Float,
    Str,
    Byte,
    ByteStr,
    Char,
    Bool,
}

/// What a `Vec` holds that is read as a whole.
#[derive(Clone, Copy, Debug, PartialEq, Eq)]
pub enum VecItem {
    WherePredicate,
    Lit(LitKind),
    Unsigned(Unsigned),
    Ident,
    Path,
}

/// The width of the integers in a `Vec` that is read as a whole.
#[derive(Clone, Copy, Debug, PartialEq, Eq)]
pub enum Unsigned {
    U8,
    U16,
    U32,
    U64,
    Usize,
}

/// What a `HashSet` holds.
#[derive(Clone, Copy, Debug, PartialEq, Eq)]
pub enum SetItem {
    Ident,
    Path,
}

/// What stands between the commas of a `Punctuated`.
#[derive(Clone, Copy, Debug, PartialEq, Eq)]
pub enum PunctuatedItem {
    Expr,
    Ident,
    Path,
    FnArg,
}
