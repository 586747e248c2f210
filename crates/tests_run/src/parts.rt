//! Fields that take a part of the item that is read: its identifier, its attributes, its visibility.

use crate::ends::rows;
use tests_checks::Tested;

// Attributes that are kept: those that are not read, as `forward_attrs` says.
const KEPT: &str =
    r#"#[derive(FromDeriveInput)] #[darling(attributes(my), forward_attrs(doc))] struct Opts { #[darling(with =
   attrs::count)] attrs: usize } / %% / #[doc = "a"] #[doc = "b"] #[c] struct S; => ok S Opts {attrs: 2}
#[derive(FromDeriveInput)] #[darling(attributes(my), forward_attrs(doc))] struct Opts { a: u8, attrs: Vec<Attribute> }
   / %% / #[doc = "x"] #[my(a = 1)] #[b] #[doc(y)] struct S; => ok S Opts {a: 1, attrs: [`# [doc = "x"]`, `# [doc
   (y)]`]}
#[derive(FromDeriveInput)] #[darling(attributes(my), forward_attrs)] struct Opts { a: u8, attrs: Vec<Attribute> } / %%
   / #[doc = "x"] #[my(a = 1)] #[b] #[doc(y)] struct S; => ok S Opts {a: 1, attrs: [`# [doc = "x"]`, `# [b]`, `# [doc
   (y)]`]}
#[derive(FromDeriveInput)] #[darling(attributes(my), forward_attrs())] struct Opts { a: u8, attrs: Vec<Attribute> } /
   %% / #[doc = "x"] #[my(a = 1)] #[b] #[doc(y)] struct S; => ok S Opts {a: 1, attrs: []}
#[derive(FromDeriveInput)] #[darling(forward_attrs())] struct Opts { attrs: Vec<Attribute> } / %% / #[doc = "x"] #[b]
   struct S; => ok S Opts {attrs: []}
#[derive(FromDeriveInput)] #[darling(forward_attrs())] struct Opts { #[darling(with = attrs::count)] attrs: usize } / %%
   / #[doc = "x"] #[b] struct S; => ok S Opts {attrs: 0}
#[derive(FromDeriveInput)] #[darling(attributes(my))] struct Opts { a: u8, attrs: Vec<Attribute> } / %% => refused:
   options of Opts under FromDeriveInput: 75..80 field will not be populated because `forward_attrs` is not set on the
   struct
#[derive(FromDeriveInput)] #[darling(attributes(my), forward_attrs(doc))] struct Opts { a: u8 } / %% / #[doc = "x"]
   #[my(a = 1)] #[b] #[doc(y)] struct S; => ok S Opts {a: 1}
#[derive(FromDeriveInput)] #[darling(attributes(my), forward_attrs(my, doc))] struct Opts { a: u8, attrs:
   Vec<Attribute> } / %% => refused: options of Opts under FromDeriveInput: 67..69 attribute path `my` will not be
   forwarded because it is also listed in `attributes`
#[derive(FromDeriveInput)] #[darling(forward_attrs)] struct Opts { attrs: Vec<Attribute> } / %% / #[doc = "x"] #[my(a
   = 1)] #[b] #[doc(y)] struct S; => ok S Opts {attrs: [`# [doc = "x"]`, `# [my (a = 1)]`, `# [b]`, `# [doc (y)]`]}
#[derive(FromDeriveInput)] #[darling(forward_attrs(a::b))] struct Opts { #[darling(with = attrs::count)] attrs: usize
   } / %% / #[a::b] #[a] #[b] #[a::b = 1] struct S; => ok S Opts {attrs: 2}
#[derive(FromDeriveInput)] #[darling(attributes(my), forward_attrs(doc))] struct Opts { a: u8, attrs: Vec<Attribute> }
   / %% / #[doc = "x"] #[my(a = "y", c)] #[my(a 1)] struct S; => err S 3 / 22..25 Unknown value: `y` at a / 27..28
   Unknown field: `c`. Available values: `a` / 36..39 expected a meta list"#;

// Parts between fields that items give, and beside a derive that reads metas.
const PLACED: &str =
    r#"#[derive(FromDeriveInput)] #[darling(attributes(my), forward_attrs(doc))] struct Opts { a: u8, ident: Ident,
   #[darling(default)] b: String, vis: Visibility, attrs: Vec<Attribute>, c: Option<u8> } / %% / #[doc = "x"] #[my(a =
   1)] pub(crate) struct S; => ok S Opts {a: 1, ident: `S`, b: "", vis: `pub (crate)`, attrs: [`# [doc = "x"]`], c:
   none}
#[derive(FromDeriveInput)] struct Opts { ident: Ident, vis: Visibility } / %% / #[my] enum S { A } / pub union T { a:
   u8 } / struct r#fn(u8); => ok S Opts {ident: `S`, vis: ``} / ok T Opts {ident: `T`, vis: `pub`} / ok r#fn Opts
   {ident: `r#fn`, vis: ``}
#[derive(FromDeriveInput)] #[darling(attributes(my))] struct Opts { #[darling(with = ident::text)] ident: String, n:
   u8 } / %% / #[my(n = 1)] struct S; / #[my(n = 2)] struct r#fn; / struct T; => ok S Opts {ident: "S", n: 1} / ok
   r#fn Opts {ident: "r#fn", n: 2} / err T 1 / - Missing field `n`
#[derive(FromDeriveInput)] #[darling(attributes(my))] struct Opts { ident: Ident, n: u8, vis: Visibility } / %% /
   #[my(ident = "x", n = 300, vis)] struct S; => err S 3 / 5..16 Unknown field: `ident`. Available values: `n` /
   22..25 number too large to fit in target type at n / 27..30 Unknown field: `vis`. Available values: `n`
#[derive(FromMeta, FromDeriveInput)] struct A { n: u8, ident: Ident, m: u8 }
   #[derive(FromDeriveInput)] #[darling(attributes(my))] struct Opts { ident: Ident, a: A } / %% / #[my(a(ident = "x",
   n = 1, m = 2))] struct S; / #[my(a(n = 1, m = 300))] struct T; => ok S Opts {ident: `S`, a: A {n: 1, ident: `x`, m:
   2}} / err T 2 / 64..67 number too large to fit in target type at a/m / - Missing field `ident` at a"#;

// Types that a part does not have, functions that are not offered for it, and parts that no run reads yet.
const REFUSED: &str =
    r#"#[derive(FromDeriveInput)] struct Opts { ident: String } / %% => refused: unknown type at 48..54
#[derive(FromDeriveInput)] struct Opts { ident: Option<Ident> } / %% => refused: unknown type at 48..61
#[derive(FromDeriveInput)] struct Opts { n: u8, vis: Ident } / %% => refused: unknown type at 53..58
#[derive(FromDeriveInput)] #[darling(attributes(my))] struct Opts { ident: Ident, n: strng } / %% => refused: unknown
   type at 85..90
#[derive(FromDeriveInput)] #[darling(forward_attrs)] struct Opts { attrs: Attribute } / %% => refused: unknown type at
   74..83
#[derive(FromDeriveInput)] struct Opts { #[darling(with = other)] ident: String } / %% => refused: unknown callable at
   58..63
#[derive(FromDeriveInput)] struct Opts { #[darling(with = ident::text)] ident: u8 } / %% => refused: unknown callable
   at 58..69
#[derive(FromDeriveInput)] #[darling(forward_attrs)] struct Opts { #[darling(with = ident::text)] attrs: String } / %%
   => refused: unknown callable at 84..95
#[derive(FromDeriveInput)] #[darling(attributes(my), default)] struct Opts { ident: Ident, n: u8 } / %% => refused:
   unknown type at 70..74
#[derive(FromDeriveInput)] struct Opts { data: Data<(), ()> } / %% => refused: unbuilt at 41..45
#[derive(FromDeriveInput)] struct Opts { generics: Generics } / %% => refused: unbuilt at 41..49"#;

#[test]
fn parts(rt: HostRuntime) -> Tested<()> {
    rows(rt.alloc(), &[KEPT, PLACED, REFUSED])
}
