//! The table of names.

ghost use Rattle.std.specs.Prelude.{◌≡◌, map};
ghost use Rattle.machine_rows.specs.Table.{looked_up, names};
ghost use Rattle.std.specs.Str.{bytes_eq};

use crate::leaf::{Integer, Leaf, LitKind, Parsed};
use crate::name::{Home, Name};

/// The names of the table in its order, each with what it may stand after and what it names.
const NAMES: [(&str, Home, Name); 80] = [
    ("bool", Home::Nowhere, Name::Leaf(Leaf::Bool)),
    ("char", Home::Nowhere, Name::Leaf(Leaf::Char)),
    ("String", Home::StdString, Name::Leaf(Leaf::String)),
    ("PathBuf", Home::StdPath, Name::Leaf(Leaf::PathBuf)),
    ("i8", Home::Nowhere, Name::Leaf(Leaf::Integer(Integer::I8))),
    (
        "i16",
        Home::Nowhere,
        Name::Leaf(Leaf::Integer(Integer::I16)),
    ),
    (
        "i32",
        Home::Nowhere,
        Name::Leaf(Leaf::Integer(Integer::I32)),
    ),
    (
        "i64",
        Home::Nowhere,
        Name::Leaf(Leaf::Integer(Integer::I64)),
    ),
    (
        "i128",
        Home::Nowhere,
        Name::Leaf(Leaf::Integer(Integer::I128)),
    ),
    (
        "isize",
        Home::Nowhere,
        Name::Leaf(Leaf::Integer(Integer::Isize)),
    ),
    ("u8", Home::Nowhere, Name::Leaf(Leaf::Integer(Integer::U8))),
    (
        "u16",
        Home::Nowhere,
        Name::Leaf(Leaf::Integer(Integer::U16)),
    ),
    (
        "u32",
        Home::Nowhere,
        Name::Leaf(Leaf::Integer(Integer::U32)),
    ),
    (
        "u64",
        Home::Nowhere,
        Name::Leaf(Leaf::Integer(Integer::U64)),
    ),
    (
        "u128",
        Home::Nowhere,
        Name::Leaf(Leaf::Integer(Integer::U128)),
    ),
    (
        "usize",
        Home::Nowhere,
        Name::Leaf(Leaf::Integer(Integer::Usize)),
    ),
    (
        "NonZeroI8",
        Home::StdNum,
        Name::Leaf(Leaf::NonZero(Integer::I8)),
    ),
    (
        "NonZeroI16",
        Home::StdNum,
        Name::Leaf(Leaf::NonZero(Integer::I16)),
    ),
    (
        "NonZeroI32",
        Home::StdNum,
        Name::Leaf(Leaf::NonZero(Integer::I32)),
    ),
    (
        "NonZeroI64",
        Home::StdNum,
        Name::Leaf(Leaf::NonZero(Integer::I64)),
    ),
    (
        "NonZeroI128",
        Home::StdNum,
        Name::Leaf(Leaf::NonZero(Integer::I128)),
    ),
    (
        "NonZeroIsize",
        Home::StdNum,
        Name::Leaf(Leaf::NonZero(Integer::Isize)),
    ),
    (
        "NonZeroU8",
        Home::StdNum,
        Name::Leaf(Leaf::NonZero(Integer::U8)),
    ),
    (
        "NonZeroU16",
        Home::StdNum,
        Name::Leaf(Leaf::NonZero(Integer::U16)),
    ),
    (
        "NonZeroU32",
        Home::StdNum,
        Name::Leaf(Leaf::NonZero(Integer::U32)),
    ),
    (
        "NonZeroU64",
        Home::StdNum,
        Name::Leaf(Leaf::NonZero(Integer::U64)),
    ),
    (
        "NonZeroU128",
        Home::StdNum,
        Name::Leaf(Leaf::NonZero(Integer::U128)),
    ),
    (
        "NonZeroUsize",
        Home::StdNum,
        Name::Leaf(Leaf::NonZero(Integer::Usize)),
    ),
    ("Flag", Home::DarlingUtil, Name::Leaf(Leaf::Flag)),
    ("Ident", Home::Syn, Name::Leaf(Leaf::Ident)),
    (
        "IdentString",
        Home::DarlingUtil,
        Name::Leaf(Leaf::IdentString),
    ),
    ("Path", Home::Syn, Name::Leaf(Leaf::Path)),
    ("Expr", Home::Syn, Name::Leaf(Leaf::Expr)),
    (
        "PreservedStrExpr",
        Home::DarlingUtil,
        Name::Leaf(Leaf::PreservedStrExpr),
    ),
    ("ExprArray", Home::Syn, Name::Leaf(Leaf::ExprArray)),
    ("ExprPath", Home::Syn, Name::Leaf(Leaf::ExprPath)),
    ("ExprRange", Home::Syn, Name::Leaf(Leaf::ExprRange)),
    ("TypePath", Home::Syn, Name::Leaf(Leaf::TypePath)),
    ("Type", Home::Syn, Name::Leaf(Leaf::Parsed(Parsed::Type))),
    (
        "TypeArray",
        Home::Syn,
        Name::Leaf(Leaf::Parsed(Parsed::TypeArray)),
    ),
    (
        "TypeFnPtr",
        Home::Syn,
        Name::Leaf(Leaf::Parsed(Parsed::TypeFnPtr)),
    ),
    (
        "TypeGroup",
        Home::Syn,
        Name::Leaf(Leaf::Parsed(Parsed::TypeGroup)),
    ),
    (
        "TypeImplTrait",
        Home::Syn,
        Name::Leaf(Leaf::Parsed(Parsed::TypeImplTrait)),
    ),
    (
        "TypeInfer",
        Home::Syn,
        Name::Leaf(Leaf::Parsed(Parsed::TypeInfer)),
    ),
    (
        "TypeNever",
        Home::Syn,
        Name::Leaf(Leaf::Parsed(Parsed::TypeNever)),
    ),
    (
        "TypeParam",
        Home::Syn,
        Name::Leaf(Leaf::Parsed(Parsed::TypeParam)),
    ),
    (
        "TypeParen",
        Home::Syn,
        Name::Leaf(Leaf::Parsed(Parsed::TypeParen)),
    ),
    (
        "TypePtr",
        Home::Syn,
        Name::Leaf(Leaf::Parsed(Parsed::TypePtr)),
    ),
    (
        "TypeReference",
        Home::Syn,
        Name::Leaf(Leaf::Parsed(Parsed::TypeReference)),
    ),
    (
        "TypeSlice",
        Home::Syn,
        Name::Leaf(Leaf::Parsed(Parsed::TypeSlice)),
    ),
    (
        "TypeTraitObject",
        Home::Syn,
        Name::Leaf(Leaf::Parsed(Parsed::TypeTraitObject)),
    ),
    (
        "TypeTuple",
        Home::Syn,
        Name::Leaf(Leaf::Parsed(Parsed::TypeTuple)),
    ),
    (
        "Visibility",
        Home::Syn,
        Name::Leaf(Leaf::Parsed(Parsed::Visibility)),
    ),
    (
        "WhereClause",
        Home::Syn,
        Name::Leaf(Leaf::Parsed(Parsed::WhereClause)),
    ),
    ("Vec", Home::StdVec, Name::Vec),
    ("WherePredicate", Home::Syn, Name::WherePredicate),
    ("Lit", Home::Syn, Name::Leaf(Leaf::Lit)),
    ("LitInt", Home::Syn, Name::Leaf(Leaf::LitOf(LitKind::Int))),
    (
        "LitFloat",
        Home::Syn,
        Name::Leaf(Leaf::LitOf(LitKind::Float)),
    ),
    ("LitStr", Home::Syn, Name::Leaf(Leaf::LitOf(LitKind::Str))),
    ("LitByte", Home::Syn, Name::Leaf(Leaf::LitOf(LitKind::Byte))),
    (
        "LitByteStr",
        Home::Syn,
        Name::Leaf(Leaf::LitOf(LitKind::ByteStr)),
    ),
    ("LitChar", Home::Syn, Name::Leaf(Leaf::LitOf(LitKind::Char))),
    ("LitBool", Home::Syn, Name::Leaf(Leaf::LitOf(LitKind::Bool))),
    ("HashSet", Home::StdCollections, Name::HashSet),
    ("PathList", Home::DarlingUtil, Name::Leaf(Leaf::PathList)),
    ("Punctuated", Home::Syn, Name::Punctuated),
    ("Comma", Home::Syn, Name::Comma),
    ("FnArg", Home::Syn, Name::FnArg),
    ("Callable", Home::DarlingUtil, Name::Leaf(Leaf::Callable)),
    ("Meta", Home::Syn, Name::Leaf(Leaf::Meta)),
    ("Ignored", Home::DarlingUtil, Name::Leaf(Leaf::Ignored)),
    ("Option", Home::StdOption, Name::Option),
    ("Box", Home::StdBoxed, Name::Box),
    ("Result", Home::Darling, Name::Result),
    ("Override", Home::DarlingUtil, Name::Override),
    ("SpannedValue", Home::DarlingUtil, Name::SpannedValue),
    ("WithOriginal", Home::DarlingUtil, Name::WithOriginal),
    ("HashMap", Home::StdCollections, Name::HashMap),
    ("BTreeMap", Home::StdCollections, Name::BTreeMap),
];

/// What the table has at the name.
pub fn named(name: &str) -> Option<(Home, Name)>
    ensures { result ≡ looked_up names name.now }
{
    looked_up(&NAMES, name)
}

fn looked_up(rows: &[(&str, Home, Name)], name: &str) -> Option<(Home, Name)>
    ensures { result ≡ looked_up (map (λ row. (row.0.now, row.1, row.2)) rows.now) name.now }
{
    for row in rows {
        if is_text(row.0, name) {
            return Some((row.1, row.2));
        }
    }
    None
}

/// Whether the texts are one. Their lengths are compared first, since most names differ there.
fn is_text(one: &str, other: &str) -> bool
    ensures { result ≡ bytes_eq one.now other.now }
{
    one.len() == other.len() && one == other
}
