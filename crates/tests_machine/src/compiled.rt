//! What is read of attributes of declarations, what they compile to, and what programs make of items that the tool
//! does not run.

use crate::ask::rows;
use tests_checks::Tested;

// The derives of a declaration, and where each is named.
const DERIVES: &str = r#"#[derive(FromMeta)] struct A; => FromMeta 9..17
#[derive(FromMeta, FromAttributes, FromDeriveInput, FromField, FromTypeParam, FromVariant,)] struct A;
   => FromMeta 9..17, FromAttributes 19..33, FromDeriveInput 35..50, FromField 52..61, FromTypeParam 63..76,
   FromVariant 78..89
#[derive(darling::FromMeta, darling_core::FromAttributes, darling::FromDeriveInput)] enum A { B }
   => FromMeta 9..26, FromAttributes 28..56, FromDeriveInput 58..82
#[derive(darling_core::FromField, darling::FromTypeParam, darling_core::FromVariant)] union A { b: u8 }
   => FromField 9..32, FromTypeParam 34..56, FromVariant 58..83
#[derive(::FromMeta, ::darling::FromField, darling :: FromVariant)] struct A; => FromMeta 9..19, FromField 21..41, FromVariant 43..65
#[derive(Clone, FromMeta, Debug)] #[darling(FromTypeParam)] #[derive(FromField)] #[doc = "FromVariant"] struct A; => FromMeta 16..24, FromField 69..78
#[derive(FromMeta, FromField, FromMeta)] #[derive(FromField)] struct A; => FromMeta 9..17, FromField 19..28, FromMeta 30..38, FromField 50..59
#[derive[FromMeta]] #[derive{FromField}] #[::derive(FromVariant)] struct A; => FromMeta 9..17, FromField 29..38, FromVariant 52..63
#[derive(FromMeta(x), FromMeta = 1, FromField, "FromMeta", FromMeta = pub, -1)] struct A; => FromField 36..45
#[derive(other::FromMeta, darling::util::FromMeta, darling::other::FromMeta, FromMeta::darling, darlingFromMeta)] struct A; => none
#[derive(r#FromMeta, FromMetas, rom, From, frommeta, darling, r#darling::FromMeta, darling_core)] struct A; => none
#[derive(FromMeta FromField)] #[derive(FromMeta<u8>)] #[derive(FromMeta; FromField)] #[derive(,)] struct A; => none
#[derive] #[derive = "FromMeta"] #[derive()] struct A; => none
#[derives(FromMeta)] #[std::derive(FromMeta)] #[r#derive(FromMeta)] #[my(derive(FromMeta))] struct A; => none
struct A<#[derive(FromMeta)] T> { #[derive(FromMeta)] a: T } => none
enum A { #[derive(FromMeta)] B(#[derive(FromMeta)] u8) } => none"#;

// Where a declaration names a derive again.
const REPEATED: &str =
    "#[derive(FromMeta, FromAttributes, FromDeriveInput, FromField, FromTypeParam, FromVariant)] struct A; => none
#[derive(FromMeta, FromMeta, Clone, Clone, FromMeta)] struct A; => 19..27, 43..51
#[derive(FromMeta, FromField, darling::FromMeta)] #[derive(FromField, FromVariant)] #[derive(FromVariant, FromMeta)]
   struct A; => 30..47, 59..68, 93..104, 106..114
#[derive(FromVariant, FromTypeParam, FromField, FromDeriveInput, FromAttributes)] #[derive(FromAttributes,
   FromDeriveInput, FromField, FromTypeParam, FromVariant)] struct A;
   => 91..105, 107..122, 124..133, 135..148, 150..161
struct A; => none
#[derive(⟨20000 FromMeta, ⟩)] struct A; => 19999 places";

// The printing of a declaration without attributes.
const WITHOUT: &str = "#[a] struct A; => struct A ;
#[a] #[b(c)] #[d = 1] pub struct S<#[e] 'x: 'y, #[f] #[g] T: Copy = u8, #[h] const N: usize = 8> where T: Copy { #[i]
   pub a: T, #[j] #[k(l)] b: u8 } => pub struct S < 'x : 'y , T : Copy = u8 , const N : usize = 8 > where T : Copy
   {pub a : T , b : u8}
#[a] struct T(#[b] u8, #[c] pub u16); => struct T (u8 , pub u16) ;
#[a] enum E { #[b] A, #[c] B(#[d] u8, pub u16), #[e] C { #[f] c: u8 }, #[g] #[h] D = 1 } => enum E {A , B (u8 , pub u16) , C {c : u8} , D = 1}
#[a] pub(crate) union U { #[b] a: u8, #[c] b: u16 } => pub (crate) union U {a : u8 , b : u16}
struct P { a: u8 } => struct P {a : u8}";

// Declarations, and their units; or where they have forms that no run reads yet.
const COMPILED: &str = "#[derive(FromDeriveInput)] struct A { n: u8 } => 1 decls: 0 FromDeriveInput
#[derive(FromMeta)] struct A { n: u8 } #[derive(FromDeriveInput)] struct B { a: A } => 2 decls: 0 FromMeta 1 FromDeriveInput
#[derive(Clone, FromDeriveInput, FromMeta)] #[derive(darling::FromMeta)] struct A {} => 1 decls: 0 FromDeriveInput 0 FromMeta 0 FromMeta
#[derive(Clone)] struct A { n: u8 } #[derive(FromMeta)] struct B { n: u8 } struct C {} => 3 decls: 1 FromMeta
#[derive(FromMeta)] struct A(u8); => 1 decls: 0 FromMeta
struct A; => 1 decls:
enum A { B } => 1 decls:
union A { n: u8 } => 1 decls:
#[derive(FromMeta)] enum A { B, C(u8), D { n: u8 } } #[derive(FromMeta)] struct B; #[derive(FromDeriveInput)]
   struct C { a: A, b: B } => 3 decls: 0 FromMeta 1 FromMeta 2 FromDeriveInput
struct A {} => 1 decls:
#[derive(FromField, FromMeta, FromAttributes, darling::FromVariant, Clone)] #[derive(FromTypeParam)] struct A {} => unbuilt at 9..18, 30..44, 46..66, 85..98
#[derive(FromDeriveInput)] #[darling(transparent, supports(any), from_ident, from_word = f, from_none = f, from_expr
   = f, derive_syn_parse)] struct A { n: u8 } => unbuilt at 37..48, 50..63, 65..75
#[derive(FromMeta)] #[darling(transparent, derive_syn_parse)] struct A { n: u8 } => 1 decls: 0 FromMeta
#[derive(FromDeriveInput)] #[darling(default, r#supports(any), a::transparent)] #[other(transparent)] #[darling]
   #[darling = 7] #[darling(7, transparent = 7)] struct A { #[darling(transparent)] n: u8 } => unbuilt at 141..156
#[darling(a = b c, from_word = 7 7)] struct A { n: u8 } => 1 decls:
#[darling(+, from_word)] struct A { n: u8 } => 1 decls:
#[derive(FromDeriveInput)] struct A { ident: u8, attrs: u8, vis: u8, data: u8, generics: u8, r#data: u8, Data: u8,
   body: u8 } => unbuilt at 69..73, 79..87
#[derive(FromMeta)] struct A { ident: u8, attrs: u8, vis: u8, data: u8, generics: u8 } => 1 decls: 0 FromMeta
#[derive(FromMeta)] #[derive(FromDeriveInput)] struct A { data: u8 } => unbuilt at 58..62
#[derive(FromDeriveInput)] struct A(u8, u8); => unbuilt at 34..35
#[darling(supports(any))] #[derive(FromDeriveInput, FromField)] enum A { B { ident: u8 } } #[derive(FromField)]
   #[darling(from_ident)] struct B { ident: u8 } => unbuilt at 52..61, 69..70, 10..23, 100..109
#[derive(FromDeriveInput)] #[darling(transparent, nonsense)] struct A { #[darling(skip, skip)] data: u8 } => unbuilt at 37..48, 95..99";

// Declarations, and their units, whether a run reads their forms or not.
const UNITS: &str =
    "#[derive(FromField)] struct A { ident: Option<Ident>, #[darling(skip)] x: u8 } => 1 decls: 0 FromField
#[derive(FromAttributes, FromDeriveInput, FromField, FromTypeParam, FromVariant)] #[darling(attributes(a))] struct A {
   n: u8 } #[derive(FromMeta)] struct B { m: u8 } #[derive(FromVariant)] #[darling(supports(unit))] struct C {}
   => 3 decls: 0 FromAttributes 0 FromDeriveInput 0 FromField 0 FromTypeParam 0 FromVariant 1 FromMeta 2 FromVariant
#[derive(FromMeta, FromAttributes)] struct A { n: u8 } => 1 faults under FromAttributes
#[derive(FromVariant, FromField)] #[darling(supports(unit))] struct A { n: u8 } => 1 faults under FromField
#[derive(FromField)] struct A { n: u8 } #[derive(FromTypeParam)] union B { n: u8 } => 1 faults under FromTypeParam";

// Statements of the last unit of these.
const ANY: &str =
    "#[derive(FromField)] struct A { ident: Option<Ident>, #[darling(skip)] x: u8 } => errors; one 0; finish; build ident x=0; 
#[derive(FromVariant)] struct A { n: u8, fields: Fields<F> } => errors; one 0; shape; body; check 0 n; finish; build fields n=0; 
#[derive(FromTypeParam)] struct A { bounds: Vec<TypeParamBound>, ident: Ident } => errors; finish; build ident bounds; 
#[derive(FromAttributes)] #[darling(attributes(my))] struct A { ident: u8, n: u8 } => errors; one 0; at my n=>0 else unknown n ; check 0 n; finish; build n=0; ";

// Statements of the last unit.
const STATEMENTS: &str =
    "#[derive(FromMeta)] struct Given { one: u8, #[darling(multiple)] many: Vec<u8>, #[darling(skip)] skip: u8 }
   => one 0; many 1; one 2; errors; one=>0 many=>>1 else unknown one many ; check 0 one; finish; build one=0 many=1
   skip=2; 
#[derive(FromMeta)] struct Given { one: u8, #[darling(flatten)] flat: Rest }
   => one 0; one 1; buffer; errors; one=>0 else keep; flatten 1 one ; check 0 one; check 1 flat; finish; build one=0
   flat=1; 
#[derive(FromDeriveInput)] #[darling(allow_unknown_fields, crate = ::darling)] struct Given { one: u8 }
   => errors; one 0; shape; body; check 0 one; finish; build one=0; ";

// The same of a struct with the option `from_ident`, which reads the attributes `serde` or none.
const BY_HAND: &str =
    "serde | struct Given { one: u8 } => errors; one 0; at serde one=>0 else nothing; shape; body; check 0 one; finish; default; build one=0; 
 | struct Given { one: u8 } => errors; one 0; shape; body; check 0 one; finish; default; build one=0; ";

// What the last unit of a program makes of an item: of a program that does not fit, and of one that is too deep.
const OUTCOMES: &str =
    "#[derive(FromMeta)] struct Opts { later: Later } #[derive(FromDeriveInput)] #[darling(attributes(my))] struct
   Later { x: u8 } | #[my(x = 1)] struct S; => Later {x: 1}
#[derive(FromMeta)] struct D0 { x: u8 } ⟨9998 #[derive(FromMeta)] struct D$ { #[darling(flatten)] a: D^ }
   ⟩#[derive(FromDeriveInput)] #[darling(attributes(my))] struct D9999 { #[darling(flatten)] a: D9998 } | #[my(x =
   1)] struct S; => no memory";

// Where the first arm of a name stands in the last unit, and how often names are compared to find it.
const ARMS: &str = "#[derive(FromMeta)] struct A { ⟨1000 f$: Option<u8>, ⟩ } | f1 => 0, 11 compared
#[derive(FromMeta)] struct A { ⟨1000 f$: Option<u8>, ⟩ } | f1000 => 999, 11 compared
#[derive(FromMeta)] struct A { ⟨1000 f$: Option<u8>, ⟩ } | f500 => 499, 11 compared
#[derive(FromMeta)] struct A { ⟨1000 f$: Option<u8>, ⟩ } | g => none, 9 compared
#[derive(FromMeta)] struct A { ⟨9 #[darling(rename = \"a\")] f$: Option<u8>, ⟩ #[darling(rename = \"r#b\")] b: u8 } | a => 0, 5 compared
#[derive(FromMeta)] struct A { #[darling(skip)] a: Option<u8> } | a => none, 0 compared";

#[test]
fn declarations_compile(rt: HostRuntime) -> Tested<()> {
    let alloc = rt.alloc();
    rows(alloc, "derives", DERIVES)?;
    rows(alloc, "repeated derives", REPEATED)?;
    rows(alloc, "without attributes", WITHOUT)?;
    rows(alloc, "compiled", COMPILED)?;
    rows(alloc, "units", UNITS)?;
    rows(alloc, "statements of any derive", ANY)?;
    rows(alloc, "statements", STATEMENTS)?;
    rows(alloc, "statements by hand", BY_HAND)?;
    rows(alloc, "outcome", OUTCOMES)?;
    rows(alloc, "arm", ARMS)
}
