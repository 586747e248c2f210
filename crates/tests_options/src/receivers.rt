//! What the options of receivers hold, and what is wrong with them.

use crate::ask::rows;
use tests_checks::Tested;

// A receiver that derives `FromDeriveInput`, and the faults of its options.
const DERIVE_INPUT: &str =
    r#"#[derive(FromDeriveInput)] #[darling(attributes(my))] struct A { #[darling(default, default)] n: u8 } => 84..91 Duplicate field `default`;
#[derive(FromDeriveInput)] #[darling(attributes(my))] struct A { #[darling(map = a, and_then = b)] n: u8 }
   => 84..96 Options `and_then` and `map` are mutually exclusive;
#[derive(FromDeriveInput)] #[darling(attributes(my))] struct A { #[darling(multiple, flatten)] n: u8 }
   => 85..92 `flatten` and `multiple` cannot be used together;
#[derive(FromDeriveInput)] #[darling(attributes(my))] struct A { #[darling(flatten, multiple)] n: u8 }
   => 84..92 `flatten` and `multiple` cannot be used together;
struct A { #[darling(rename = "a", rename = "a")] n: u8 } => 35..47 Duplicate field `rename`;
struct A { #[darling(default, default)] n: u8 } => 30..37 Duplicate field `default`;
struct A { #[darling(with = f, with = f)] n: u8 } => 31..39 Duplicate field `with`;
struct A { #[darling(skip, skip)] n: u8 } => 27..31 Duplicate field `skip`;
struct A { #[darling(map = f, map = f)] n: u8 } => 30..37 Duplicate field `map`;
struct A { #[darling(and_then = f, and_then = f)] n: u8 } => 35..47 Duplicate field `and_then`;
struct A { #[darling(multiple, multiple)] n: u8 } => 31..39 Duplicate field `multiple`;
struct A { #[darling(flatten, flatten)] n: u8 } => 30..37 Duplicate field `flatten`;
struct A { #[darling(rename = 1, rename = "a", rename = "b")] n: u8 } => 30..31 Unexpected type `int`;47..59 Duplicate field `rename`;
struct A { #[darling(flatten, rename = "a")] n: u8 } => 30..42 `flatten` and `rename` cannot be used together;
struct A { #[darling(flatten, with = f)] n: u8 } => 30..38 `flatten` and `with` cannot be used together;
struct A { #[darling(flatten, skip)] n: u8 } => 30..34 `flatten` and `skip` cannot be used together;
struct A { #[darling(flatten, map = f)] n: u8 } => 30..37 `flatten` and `map` cannot be used together;
struct A { #[darling(flatten, and_then = f)] n: u8 } => 30..42 `flatten` and `and_then` cannot be used together;
struct A { #[darling(map = f, skip, with = f, rename = "a", multiple, flatten)] n: u8 }
   => 70..77 `flatten` and `multiple` cannot be used together;70..77 `flatten` and `rename` cannot be used together;
  70..77 `flatten` and `with` cannot be used together;70..77 `flatten` and `skip` cannot be used together;70..77
   `flatten` and `map` cannot be used together;
struct A { #[darling(flatten, default, skip = false, multiple = false)] n: u8 } => ok
struct A { #[darling(flatten, flatten, skip)] n: u8 } => 30..37 Duplicate field `flatten`;39..43 `flatten` and `skip` cannot be used together;
struct A { #[darling(reneme = "a", a::rename, ::rename, r#skip)] n: u8 }
   => 21..33 Unknown field: `reneme`;35..44 Unknown field: `a::rename`;46..54 Unknown field: `rename`;56..62 Unknown
   field: `r#skip`;
struct A { #[darling] #[darling = 1] #[other(x)] #[::darling(x)] #[r#darling(x)] #[darling(7, default = b c)] n: u8 }
   => 13..20 Unexpected meta-item format `word`;24..35 Unexpected meta-item format `name-value`;91..92 Unexpected
   meta-item format `literal`;104..105 expected an expression;
struct A { #[darling(and_then = f, map = g)] n: u8 } => 35..42 Options `map` and `and_then` are mutually exclusive;
struct A { #[darling(and_then = f, flatten)] n: u8 } => 35..42 `flatten` and `and_then` cannot be used together;
struct A { #[darling(default)] #[darling(skip, default)] n: u8 } => 47..54 Duplicate field `default`;
#[darling(map = f, and_then = g)] struct A { n: u8 } => 19..31 Options `and_then` and `map` are mutually exclusive;
#[darling(and_then = f, map = g)] struct A { n: u8 } => 24..31 Options `map` and `and_then` are mutually exclusive;
#[darling] #[darling = 1] #[darling(7)] #[darling(default)] #[darling(default)] struct A { n: u8 }
   => 2..9 Unexpected meta-item format `word`;13..24 Unexpected meta-item format `name-value`;36..37 Unexpected
   meta-item format `literal`;70..77 Duplicate field `default`;
#[darling(default, default)] struct A { n: u8 } => 19..26 Duplicate field `default`;
#[darling(map = f, map = f)] struct A { n: u8 } => 19..26 Duplicate field `map`;
#[darling(and_then = f, and_then = f)] struct A { n: u8 } => 24..36 Duplicate field `and_then`;
#[darling(allow_unknown_fields, allow_unknown_fields)] struct A { n: u8 } => 32..52 Duplicate field `allow_unknown_fields`;
#[darling(transparent, transparent)] struct A { n: u8 } => 23..34 Duplicate field `transparent`;
#[darling(crate = a, crate = a)] struct A { n: u8 } => 21..30 Duplicate field `crate`;
#[darling(attributes(a), attributes(b), forward_attrs, forward_attrs(c), rename_all = "kebab", rename_all = "kebab",
   bound = "", bound = "", supports(any), supports(struct_named))] struct A { n: u8 } => ok
#[darling(rename_all = "kebap", supports(struct_nemed, 7), attributes(a = 1), bound = "T")] struct A { n: u8 }
   => 23..30 Unknown value: `kebap`;41..53 Unknown value: `struct_nemed`;70..75 Unexpected type `non-word`;86..89
   Unknown value: `where T`;
#[darling(supports(any, 7))] struct A { n: u8 } => 24..25 Unexpected meta-item format `non-word`;
#[darling(default, from_ident)] struct A { n: u8 } => ok
#[darling(from_ident, default, from_ident = 7)] struct A { n: u8 } => 22..29 Duplicate field `default`;
#[darling(default(a), from_word = f)] struct A { n: u8 } => 10..20 Unexpected meta-item format `list`;22..35 Unknown field: `from_word`;
#[darling(default, default)] struct A { #[darling(skip, skip)] n: u8 } => 19..26 Duplicate field `default`;
#[darling(transparent)] struct A { a: u8, b: u8 } => 10..21 `#[darling(transparent)]` can only be applied to structs with a single field;
#[darling(transparent)] struct A { a: u8 } => ok
struct A { #[darling(flatten)] a: u8, #[darling(skip, skip)] b: u8, #[darling(flatten)] c: u8 }
   => 54..58 Duplicate field `skip`;21..28 `#[darling(flatten)]` can only be applied to one field;78..85
   `#[darling(flatten)]` can only be applied to one field;
#[darling(attributes(a::b, c), forward_attrs(c, d, a::b))] struct A { n: u8 }
   => 45..46 attribute path `c` will not be forwarded because it is also listed in `attributes`;51..55 attribute path
   `a :: b` will not be forwarded because it is also listed in `attributes`;
union A { n: u8 } => - Unions are not supported;
enum A { B, C(u8) } => 9..10 Unexpected meta-item format `enum variant`;12..17 Unexpected meta-item format `enum variant`;
struct A; => ok
struct A(u8); => ok
#[darling(⟨10000 bound = "", ⟩)] struct A { n: u8 } => ok"#;

// A receiver that derives `FromMeta`.
const META: &str =
    r#"#[darling(from_word = f, from_word = f)] struct A { n: u8 } => 25..34 Duplicate field `from_word`;
#[darling(from_none = f, from_none = f)] struct A { n: u8 } => 25..34 Duplicate field `from_none`;
#[darling(from_expr = f, from_expr = f)] struct A { n: u8 } => 25..34 Duplicate field `from_expr`;
#[darling(derive_syn_parse, derive_syn_parse)] struct A { n: u8 } => 28..44 Duplicate field `derive_syn_parse`;
#[darling(attributes(a), from_word = 7, default, default)] struct A { n: u8 }
   => 10..23 Unknown field: `attributes`;37..38 Unexpected type `lit`;49..56 Duplicate field `default`;
#[darling(from_word = f)] struct A; => 22..23 `from_word` cannot be used on unit structs because it conflicts with the generated impl;
#[darling(from_word = || f(), from_none = g, from_expr = h)] struct A;
   => 22..28 `from_word` cannot be used on unit structs because it conflicts with the generated impl;
#[darling(transparent, from_word = "f", from_expr = g)] struct A;
   => 10..21 `#[darling(transparent)]` can only be applied to structs with a single field;35..38 `from_word` cannot
   be used on unit structs because it conflicts with the generated impl;
#[darling(from_none = f, from_expr = g)] struct A(u8); => 37..38 `from_expr` cannot be used on transparent structs
   because the implementation is entirely delegated to the inner type;
#[darling(from_word = f, from_expr = g)] struct A(u8, u8); => ok
#[darling(from_word = f, from_expr = g)] struct A(); => ok
#[darling(from_none = f, from_expr = g)] struct A; => ok
#[darling(from_word = f, from_expr = g)] struct A(u8); => 22..23 `from_word` cannot be used on transparent structs
   because the implementation is entirely delegated to the inner type;37..38 `from_expr` cannot be used on
   transparent structs because the implementation is entirely delegated to the inner type;
#[darling(transparent, from_word = f, from_expr = g)] struct A { a: u8, b: u8 }
   => 10..21 `#[darling(transparent)]` can only be applied to structs with a single field;35..36 `from_word` cannot
   be used on transparent structs because the implementation is entirely delegated to the inner type;50..51
   `from_expr` cannot be used on transparent structs because the implementation is entirely delegated to the inner
   type;
#[darling(from_word = f, from_expr = g)] struct A { a: u8 } => ok
union A { n: u8 } => - Unions are not supported;"#;

// What the options hold of one that derives `FromDeriveInput`.
const HELD: &str = r#"struct A { one_two: u8 } => A: one_two as one_two;
#[darling(rename_all = "kebab")] struct A { one_two: u8, #[darling(rename = "x")] two: u8, r#three: u8 } => A: one_two as one-two;two as x;r#three as r#three;
#[darling(default)] struct A { a: u8, #[darling(default = f)] b: u8, #[darling(skip)] c: u8 }
   => A = default: a as a = inherited;b as b = f;c as c = inherited skipped;
struct A { #[darling(skip)] a: u8, #[darling(skip = false)] b: u8, #[darling(default)] c: u8 } => A: a as a = default skipped;b as b;c as c = default;
struct A { #[darling(with = f, map = g)] a: u8, #[darling(and_then = "h", multiple)] b: u8, #[darling(flatten)] c: u8
   } => A: a as a with f then map g;b as b then and_then h multiple;c as c flatten;
#[darling(default = f)] #[darling(from_ident, attributes(a), attributes(b, c::d), supports(struct_named))] struct A {
   #[darling(default, rename = "x")] #[darling(skip)] a: u8 }
   => A = default: a as x = default skipped; #b #c::d from_ident named
#[darling(supports(struct_named), supports(enum_unit))] struct A(u8, u8); => A: __unnamed as __unnamed;__unnamed as __unnamed; other"#;

#[test]
fn options_of_receivers(rt: HostRuntime) -> Tested<()> {
    let alloc = rt.alloc();
    rows(alloc, "under FromDeriveInput", DERIVE_INPUT)?;
    rows(alloc, "under FromMeta", META)?;
    rows(alloc, "options", HELD)
}
