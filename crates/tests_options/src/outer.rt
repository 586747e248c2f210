//! Options of receivers that read elements: items, fields, variants, type parameters, attributes.

use crate::ask::rows;
use tests_checks::Tested;

const KINDS: [&str; 5] = [
    "under FromDeriveInput",
    "under FromField",
    "under FromTypeParam",
    "under FromVariant",
    "under FromAttributes",
];

// What is alike under each of the five derives.
const SHARED: &str = r#"#[darling(attributes(a))] struct A { n: u8 } => ok
#[darling(attributes(b), attributes(a, c::d))] struct A { n: u8 } => ok
#[darling(attributes(a), attributes, attributes = "b", attributes(c = 1, 7))] struct A { n: u8 }
   => 25..35 Unexpected meta-item format `word`;50..53 Unexpected type `string`;66..71 Unexpected type `non-word`;
#[darling(attributes(a), forward_attrs, forward_attrs(c))] struct A { n: u8 } => ok
#[darling(attributes(a), forward_attrs = 7, forward_attrs(c = 1))] struct A { n: u8 } => 41..42 Unexpected type `int`;58..63 Unexpected type `non-word`;
#[darling(attributes(a), forward_attrs)] struct A { attrs: Vec<Attribute> } => ok
#[darling(attributes(a), forward_attrs())] struct A { attrs: Vec<Attribute> } => ok
#[darling(attributes(a))] struct A { n: u8, attrs: Vec<Attribute> } => 44..49 field will not be populated because `forward_attrs` is not set on the struct;
#[darling(attributes(a, b::c), forward_attrs(b::c, d, a))] struct A { attrs: Vec<Attribute> }
   => 45..49 attribute path `b :: c` will not be forwarded because it is also listed in `attributes`;54..55 attribute
   path `a` will not be forwarded because it is also listed in `attributes`;
#[darling(attributes(a), default, from_ident)] struct A { n: u8 } => ok
#[darling(attributes(a), from_ident, default)] struct A { n: u8 } => 37..44 Duplicate field `default`;
#[darling(attributes(a), from_ident = 7, from_ident(b))] struct A { n: u8 } => ok
#[darling(attributes(a), default = f, map = g, and_then = h)] struct A { n: u8 } => 47..59 Options `and_then` and `map` are mutually exclusive;
#[darling(attributes(a), from_word = f, word, rename = "x")] struct A { n: u8 }
   => 25..38 Unknown field: `from_word`;40..44 Unknown field: `word`;46..58 Unknown field: `rename`;
#[darling(attributes(a), rename_all = "kebab", bound = "u8: B", allow_unknown_fields, crate = a::b)] struct A { n: u8 } => ok
#[darling(attributes(a))] struct A { ident: Ident, n: u8 } => ok
#[darling(attributes(a))] struct A { #[darling(with = f)] ident: B, n: u8 } => ok
#[darling(attributes(a))] struct A { #[darling(with = f, with = g)] ident: B } => 57..65 Duplicate field `with`;
#[darling(attributes(a))] struct A { #[darling(with = 7, with = |x| g(x))] ident: B } => 54..55 Unexpected type `lit`;
#[darling(attributes(a))] struct A { #[darling(default, with, a::with, r#with, 7)] ident: B }
   => 47..54 Unknown field: `default`. Available values: `with`;56..60 Unexpected meta-item format `word`;62..69
   Unknown field: `a::with`. Available values: `with`;71..77 Unknown field: `r#with`. Available values: `with`;79..80
   Unexpected meta-item format `literal`;
#[darling(attributes(a))] struct A { #[darling] #[darling = 1] #[other(x)] #[darling(with = b c)] ident: B }
   => 39..46 Unexpected meta-item format `word`;50..61 Unexpected meta-item format `name-value`;92..93 expected an
   expression;
#[darling(attributes(a), forward_attrs)] struct A { #[darling(rename = "x", with = f)] attrs: B } => 62..74 Unknown field: `rename`. Available values: `with`;
#[darling(attributes(a))] struct A { #[darling(skip, skip)] r#ident: B } => 53..57 Duplicate field `skip`;
#[darling(attributes(a))] struct A { #[darling(skip, skip)] idents: B, #[darling(flatten)] flat: C } => 53..57 Duplicate field `skip`;
#[darling(attributes(a))] struct A { #[darling(with = f, with = f)] ident: B, #[darling(skip, skip)] n: u8 }
   => 57..65 Duplicate field `with`;94..98 Duplicate field `skip`;
#[darling(attributes(a), transparent)] struct A { n: u8 } => ok
#[darling(attributes(a), transparent)] struct A { ident: Ident, n: u8 } => ok
#[darling(attributes(a), transparent)] struct A { ident: Ident } => 25..36 `#[darling(transparent)]` can only be applied to structs with a single field;
#[darling(attributes(a), transparent)] struct A { m: u8, n: u8 } => 25..36 `#[darling(transparent)]` can only be applied to structs with a single field;
#[darling(attributes(a))] struct A { #[darling(flatten)] ident: B, #[darling(flatten)] m: u8, #[darling(flatten)] n:
   u8 } => 47..54 Unknown field: `flatten`. Available values: `with`;77..84 `#[darling(flatten)]` can only be applied
   to one field;104..111 `#[darling(flatten)]` can only be applied to one field;
#[darling(attributes(a))] struct A(u8, #[darling(skip, skip)] u8); => 55..59 Duplicate field `skip`;
#[darling(attributes(a))] struct A; => ok
#[darling(attributes(a))] enum A {} => ok
#[darling(attributes(a))] enum A { B, #[darling(skip, skip)] C(u8) }
   => 35..36 Unexpected meta-item format `enum variant`;38..66 Unexpected meta-item format `enum variant`;
#[darling(attributes(a), attributes = 7)] enum A { B } => 38..39 Unexpected type `int`;
#[darling(attributes)] union A { n: u8 } => - Unions are not supported;"#;

// Names of parts that are no parts under the derive, and those that are.
const DERIVE_INPUT: &str =
    r#"struct A { vis: Visibility, generics: Generics, data: Data<B, C> } => ok
struct A { #[darling(skip, skip, 7)] vis: Visibility } => ok
struct A { #[darling(with = f)] generics: B, #[darling(with = g)] data: C } => ok
struct A { #[darling(with = f, with = f)] generics: B, #[darling(skip)] data: C }
   => 31..39 Duplicate field `with`;65..69 Unknown field: `skip`. Available values: `with`;
struct A { #[darling(skip, skip)] ty: B, #[darling(skip, skip)] fields: C, #[darling(skip, skip)] bounds: D,
   #[darling(skip, skip)] discriminant: E, #[darling(skip, skip)] default: F, #[darling(skip, skip)] body: G }
   => 27..31 Duplicate field `skip`;57..61 Duplicate field `skip`;91..95 Duplicate field `skip`;125..129 Duplicate
   field `skip`;165..169 Duplicate field `skip`;200..204 Duplicate field `skip`;
#[darling(transparent)] struct A { vis: V, generics: G, data: D, n: u8 } => ok
#[darling(transparent)] struct A { vis: V, generics: G, data: D } => 10..21 `#[darling(transparent)]` can only be applied to structs with a single field;
#[darling(supports(any))] struct A { n: u8 } => ok
#[darling(supports(any, struct_any, struct_named, struct_tuple, struct_newtype, struct_unit, enum_any, enum_named,
   enum_tuple, enum_newtype, enum_unit))] struct A { n: u8 } => ok
#[darling(supports(), supports(struct_named::x))] struct A { n: u8 } => ok
#[darling(supports, supports = 7, supports(named, 7), supports(struct_struct_named), supports(enum_))] struct A { n:
   u8 } => 10..18 Unexpected meta-item format `word`;31..32 Unexpected type `int`;43..48 Unknown value: `named`;
  63..82 Unknown value: `struct_struct_named`;94..99 Unknown value: `enum_`;
#[darling(supports(struct_named = 1, enum_any))] struct A { n: u8 } => 19..35 Unexpected meta-item format `non-word`;"#;

const FIELD: &str = r#"#[darling(attributes(a))] struct A { vis: Visibility, ty: Type } => ok
#[darling(attributes(a))] struct A { #[darling(skip, skip, 7)] vis: V, #[darling(with)] ty: T } => ok
#[darling(attributes(a))] struct A { #[darling(skip, skip)] data: B, #[darling(skip, skip)] generics: C,
   #[darling(skip, skip)] fields: D, #[darling(skip, skip)] default: E }
   => 53..57 Duplicate field `skip`;85..89 Duplicate field `skip`;121..125 Duplicate field `skip`;155..159 Duplicate
   field `skip`;
#[darling(attributes(a), supports(named))] struct A { n: u8 } => 25..40 Unknown field: `supports`;
struct A { n: u8 } => ok"#;

const TYPE_PARAM: &str =
    r#"#[darling(attributes(a))] struct A { bounds: Vec<TypeParamBound>, default: Option<Type> } => ok
#[darling(attributes(a))] struct A { #[darling(skip, skip, 7)] bounds: B, #[darling(with)] default: C } => ok
#[darling(attributes(a))] struct A { #[darling(skip, skip)] vis: B, #[darling(skip, skip)] ty: C, #[darling(skip,
   skip)] discriminant: D } => 53..57 Duplicate field `skip`;84..88 Duplicate field `skip`;114..118 Duplicate field
   `skip`;
#[darling(supports(any))] struct A { n: u8 } => 10..23 Unknown field: `supports`;
struct A; => ok"#;

const VARIANT: &str =
    r#"#[darling(attributes(a))] struct A { discriminant: Option<Expr>, fields: Fields<B> } => ok
#[darling(attributes(a))] struct A { #[darling(skip, skip, 7)] discriminant: B, #[darling(with = f)] fields: C } => ok
#[darling(attributes(a))] struct A { #[darling(with = f, with = f)] fields: C, #[darling(skip, skip)] data: D,
   #[darling(skip, skip)] vis: E } => 57..65 Duplicate field `with`;95..99 Duplicate field `skip`;127..131 Duplicate
   field `skip`;
#[darling(supports(any, named, tuple, newtype, unit))] struct A { n: u8 } => ok
#[darling(supports(), supports(named))] struct A { n: u8 } => ok
#[darling(supports(named, x, 7, struct_named, unit = 1, any::y, Unit))] struct A { n: u8 }
   => - Unknown value: `x`;29..30 Unexpected meta-item format `non-word`;- Unknown value: `struct_named`;46..54
   Unexpected meta-item format `non-word`;- Unknown value: `Unit`;
#[darling(supports, supports = 7)] struct A { n: u8 } => 10..18 Unexpected meta-item format `word`;31..32 Unexpected type `int`;
#[darling(supports(x))] struct A { n: u8 } => 10..21 Unknown value: `x`;"#;

const ATTRIBUTES: &str =
    r#"struct A { n: u8 } => - FromAttributes without attributes collects nothing;
#[darling(attributes())] struct A { n: u8 } => - FromAttributes without attributes collects nothing;
#[darling(forward_attrs)] struct A { attrs: B } => - FromAttributes without attributes collects nothing;
struct A(u8); => ok
struct A(u8, u8); => - FromAttributes without attributes collects nothing;
struct A(); => - FromAttributes without attributes collects nothing;
struct A; => - FromAttributes without attributes collects nothing;
enum A {} => - FromAttributes without attributes collects nothing;
#[darling(transparent)] struct A { n: u8 } => ok
#[darling(transparent)] struct A; => 10..21 `#[darling(transparent)]` can only be applied to structs with a single field;
#[darling(transparent)] struct A { ident: Ident, n: u8 } => ok
#[darling(attributes)] struct A { #[darling(skip, skip)] n: u8 } => 10..20 Unexpected meta-item format `word`;
struct A { #[darling(skip, skip)] n: u8 } => 27..31 Duplicate field `skip`;
#[darling(attributes(a), supports(any))] struct A { #[darling(skip, skip)] vis: B } => 25..38 Unknown field: `supports`;"#;

#[test]
fn options_of_elements(rt: HostRuntime) -> Tested<()> {
    let alloc = rt.alloc();
    for kind in KINDS {
        rows(alloc, kind, SHARED)?;
    }
    rows(alloc, "under FromDeriveInput", DERIVE_INPUT)?;
    rows(alloc, "under FromField", FIELD)?;
    rows(alloc, "under FromTypeParam", TYPE_PARAM)?;
    rows(alloc, "under FromVariant", VARIANT)?;
    rows(alloc, "under FromAttributes", ATTRIBUTES)
}
