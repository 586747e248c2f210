//! Types as rows of the table of conversions, and what is no row.

use crate::ask::rows;
use tests_checks::Tested;

// The rows of the table: what the name may stand after, a type, and what the type is.
const TABLE: &str = " | bool => Bool
 | char => Char
std::string | String => String
std::path | PathBuf => PathBuf
 | i8 => Integer(I8)
 | i16 => Integer(I16)
 | i32 => Integer(I32)
 | i64 => Integer(I64)
 | i128 => Integer(I128)
 | isize => Integer(Isize)
 | u8 => Integer(U8)
 | u16 => Integer(U16)
 | u32 => Integer(U32)
 | u64 => Integer(U64)
 | u128 => Integer(U128)
 | usize => Integer(Usize)
std::num | NonZeroI8 => NonZero(I8)
std::num | NonZeroI16 => NonZero(I16)
std::num | NonZeroI32 => NonZero(I32)
std::num | NonZeroI64 => NonZero(I64)
std::num | NonZeroI128 => NonZero(I128)
std::num | NonZeroIsize => NonZero(Isize)
std::num | NonZeroU8 => NonZero(U8)
std::num | NonZeroU16 => NonZero(U16)
std::num | NonZeroU32 => NonZero(U32)
std::num | NonZeroU64 => NonZero(U64)
std::num | NonZeroU128 => NonZero(U128)
std::num | NonZeroUsize => NonZero(Usize)
darling::util | Flag => Flag
syn | Ident => Ident
darling::util | IdentString => IdentString
syn | Path => Path
syn | Expr => Expr
darling::util | PreservedStrExpr => PreservedStrExpr
syn | ExprArray => ExprArray
syn | ExprPath => ExprPath
syn | ExprRange => ExprRange
syn | TypePath => TypePath
syn | Type => Parsed(Type)
syn | TypeArray => Parsed(TypeArray)
syn | TypeFnPtr => Parsed(TypeFnPtr)
syn | TypeGroup => Parsed(TypeGroup)
syn | TypeImplTrait => Parsed(TypeImplTrait)
syn | TypeInfer => Parsed(TypeInfer)
syn | TypeNever => Parsed(TypeNever)
syn | TypeParam => Parsed(TypeParam)
syn | TypeParen => Parsed(TypeParen)
syn | TypePtr => Parsed(TypePtr)
syn | TypeReference => Parsed(TypeReference)
syn | TypeSlice => Parsed(TypeSlice)
syn | TypeTraitObject => Parsed(TypeTraitObject)
syn | TypeTuple => Parsed(TypeTuple)
syn | Visibility => Parsed(Visibility)
syn | WhereClause => Parsed(WhereClause)
std::vec | Vec<WherePredicate> => Vec(WherePredicate)
syn | Lit => Lit
syn | LitInt => LitOf(Int)
syn | LitFloat => LitOf(Float)
syn | LitStr => LitOf(Str)
syn | LitByte => LitOf(Byte)
syn | LitByteStr => LitOf(ByteStr)
syn | LitChar => LitOf(Char)
syn | LitBool => LitOf(Bool)
std::vec | Vec<LitInt> => Vec(Lit(Int))
std::vec | Vec<LitFloat> => Vec(Lit(Float))
std::vec | Vec<LitStr> => Vec(Lit(Str))
std::vec | Vec<LitByte> => Vec(Lit(Byte))
std::vec | Vec<LitByteStr> => Vec(Lit(ByteStr))
std::vec | Vec<LitChar> => Vec(Lit(Char))
std::vec | Vec<LitBool> => Vec(Lit(Bool))
std::vec | Vec<u8> => Vec(Unsigned(U8))
std::vec | Vec<u16> => Vec(Unsigned(U16))
std::vec | Vec<u32> => Vec(Unsigned(U32))
std::vec | Vec<u64> => Vec(Unsigned(U64))
std::vec | Vec<usize> => Vec(Unsigned(Usize))
std::vec | Vec<Ident> => Vec(Ident)
std::vec | Vec<Path> => Vec(Path)
std::collections | HashSet<Ident> => HashSet(Ident)
std::collections | HashSet<Path> => HashSet(Path)
darling::util | PathList => PathList
syn | Punctuated<Expr, Comma> => Punctuated(Expr)
syn | Punctuated<Ident, Comma> => Punctuated(Ident)
syn | Punctuated<Path, Comma> => Punctuated(Path)
syn | Punctuated<FnArg, Comma> => Punctuated(FnArg)
darling::util | Callable => Callable
syn | Meta => Meta
darling::util | Ignored => Ignored
std::option | Option<bool> => Option Bool
std::boxed | Box<bool> => Box Bool
darling | Result<bool> => Result Bool
darling | Result<bool, Meta> => ResultMeta Bool
darling::util | Override<bool> => Override Bool
darling::util | SpannedValue<bool> => SpannedValue Bool
darling::util | WithOriginal<bool, Meta> => WithOriginal Bool
std::collections | HashMap<String, bool> => HashMap(String) Bool
std::collections | HashMap<Ident, bool> => HashMap(Ident) Bool
std::collections | HashMap<Path, bool> => HashMap(Path) Bool
std::collections | BTreeMap<String, bool> => BTreeMap(String) Bool
std::collections | BTreeMap<Ident, bool> => BTreeMap(Ident) Bool
std::vec | Vec<bool> => Vec Bool";

// What is no row: prefixes and arguments of another, raw identifiers, and types that are no names.
const OTHERS: &str = "std::bool
std::String
std::string::string::String
syn::Flag
darling::Flag
syn::util::Flag
darling::Ident
darling::util::Result<bool>
std::result::Result<bool>
std::collections::Vec<bool>
std::vec::Option<bool>
std::syn::Ident
std::string<u8>::String
r#String
r#std::string::String
std::r#string::String
String<u8>
bool<>
Ident<Ident>
Option
Option<>
Option<bool, bool>
Option<'a>
Option<8>
Option(bool)
Vec<bool, bool>
Box
Override<bool, Meta>
SpannedValue<'a, bool>
Result
Result<bool, bool>
Result<bool, Option<Meta>>
Result<bool, Meta, Meta>
WithOriginal<bool>
WithOriginal<bool, Expr>
HashMap<bool, bool>
HashMap<String>
HashMap<String<u8>, bool>
HashMap<String, bool, bool>
BTreeMap<Path, bool>
BTreeMap<String>
HashSet<String>
HashSet<Option<Ident>>
BTreeSet<Ident>
Punctuated<Expr>
Punctuated<Lit, Comma>
Punctuated<Expr, Expr>
WherePredicate
FnArg
Comma
Tag
a::Tag<bool>
(bool,)
(bool)
&bool
[u8]
[u8; 8]
!
fn(bool)
<a as b>::String
<String>::String";

// Types that hold others, beside the declarations `Thing`, `String`, `Option`, `r#Ident`, `Meta` and `Thing`.
const DECLARED: &str = "Thing => #0
::Thing => #0
String => #1
Option => #2
r#Ident => #3
Meta => #4
Ident => #3
syn::Ident => Ident
std::string::String => String
syn::Meta => Meta
Vec<Thing> => Vec #0
Vec<String> => Vec #1
Vec<Ident> => Vec #3
Vec<syn::Ident> => Vec(Ident)
Vec<r#Ident> => Vec #3
Vec<::syn::WherePredicate> => Vec(WherePredicate)
Vec<WherePredicate<u8>> => Vec host WherePredicate < u8 >
Vec<a::u8> => Vec host a :: u8
Vec<Lit> => Vec Lit
Vec<i8> => Vec Integer(I8)
Vec<u128> => Vec Integer(U128)
Vec<NonZeroU8> => Vec NonZero(U8)
Punctuated<syn::FnArg, ::syn::Comma> => Punctuated(FnArg)
Punctuated<FnArg, r#Comma> => host Punctuated < FnArg , r#Comma >
Box<SpannedValue<Thing>> => Box SpannedValue #0
HashMap<Ident, u8> => host HashMap < Ident , u8 >
HashMap<syn::Ident, Vec<Box<Vec<u8>>>> => HashMap(Ident) Vec Box Vec(Unsigned(U8))
HashMap<std::string::String, Thing> => HashMap(String) #0
Result<Result<bool, syn::Meta>> => Result ResultMeta Bool
Box<Tag<Thing>> => Box host Tag < Thing >
Override<HashMap<String, bool>> => Override host HashMap < String , bool >
WithOriginal<bool, Meta> => host WithOriginal < bool , Meta >
Option<bool> => host Option < bool >
std::option::Option<String> => Option #1
Thing<u8> => host Thing < u8 >
r#Thing => #0
a::Thing => host a :: Thing";

// The type of an item of a field of many.
const ELEMENTS: &str = "Vec<u8> => u8
std::vec::Vec<Vec<Tag>> => Vec < Tag >
::std::vec::Vec<Thing> => Thing
Vec => none
Vec<u8, u8> => none
std::Vec<u8> => none
r#Vec<u8> => none
Option<u8> => none
(u8,) => none";

// A type is at most 256 deep.
const DEEPEST: &str = "⟨255 Option<⟩u8⟨255 >⟩ => ⟨255 Option ⟩Integer(U8)";

const DEEPER: &str = "⟨255 Option<⟩u8⟨255 >⟩ => ⟨256 Option ⟩host u8";

#[test]
fn types_are_rows(rt: HostRuntime) -> Tested<()> {
    let alloc = rt.alloc();
    rows(alloc, "row", "() => Unit")?;
    rows(alloc, "row of the table", TABLE)?;
    rows(alloc, "row of the host", OTHERS)?;
    rows(alloc, "row beside declarations", DECLARED)?;
    rows(alloc, "element", ELEMENTS)?;
    rows(alloc, "row", DEEPEST)?;
    rows(alloc, "row in an option", DEEPER)
}
