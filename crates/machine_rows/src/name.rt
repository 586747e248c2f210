//! The names of the table, and where they stand.

use crate::leaf::Leaf;

/// A name of the table.
#[derive(Clone, Copy, PartialEq, Eq)]
pub enum Name {
    Leaf(Leaf),
    Vec,
    WherePredicate,
    HashSet,
    Punctuated,
    Comma,
    FnArg,
    Option,
    Box,
    Result,
    Override,
    SpannedValue,
    WithOriginal,
    HashMap,
    BTreeMap,
}

/// What a name may stand after. It may stand bare as well.
#[derive(Clone, Copy, PartialEq, Eq)]
pub enum Home {
    Nowhere,
    /// `std::string::`
    StdString,
    StdPath,
    StdOption,
    StdBoxed,
    StdVec,
    StdCollections,
    StdNum,
    /// `syn::`
    Syn,
    /// `darling::util::`
    DarlingUtil,
    /// `darling::`
    Darling,
    /// `darling::ast::`
    DarlingAst,
}
