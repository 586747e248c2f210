//! What the options of variants hold, what is wrong with them, and the forms that options show.

use crate::ask::{item_of, rows};
use crate::values::{push_field, table};
use body_core::ast::{Data, Fields};
use error_core::Text;
use node_core::Style;
use options_core::{FromMetaOptions, InputField, InputVariant};
use options_forms::Forms;
use std::alloc::Global;
use std::test::Fail;
use tests_checks::Tested;
use tok_core::Span;

// An enum that derives `FromMeta`, and the faults of its options.
const META: &str = r#"enum A {} => ok
enum A { #[darling(rename = "x", skip, word)] B, #[darling(transparent)] C(u8), D { a: u8 } } => ok
enum A { #[darling(rename = "x", rename = "y")] B } => 33..45 Duplicate field `rename`;
enum A { #[darling(rename = 1, rename = "y")] B } => 28..29 Unexpected type `int`;
enum A { #[darling(rename, rename("y"))] B } => 19..25 Unexpected meta-item format `word`;27..38 Unexpected meta-item format `list`;
enum A { #[darling(skip, skip)] B } => 25..29 Duplicate field `skip`;
enum A { #[darling(skip = false, skip)] B } => 33..37 Duplicate field `skip`;
enum A { #[darling(skip = 7)] B } => 26..27 Unexpected type `int`;
enum A { #[darling(skip)] #[darling(skip = true)] B } => 36..47 Duplicate field `skip`;
enum A { #[darling(transparent, transparent)] B(u8) } => 32..43 Duplicate field `transparent`;
enum A { #[darling(transparent = true, transparent())] B(u8) } => 33..37 Unexpected type `bool`;39..52 Unexpected meta-item format `list`;
enum A { #[darling(transparent)] B, #[darling(transparent)] C { a: u8, b: u8 } } => ok
enum A { #[darling(word, word)] B } => 25..29 Duplicate field `word`;
enum A { #[darling(word = 7, word)] B } => 26..27 Unexpected type `int`;
enum A { #[darling(word)] B(u8) } => 19..23 Unexpected field: `word`. `#[darling(word)]` can only be applied to a unit variant;
enum A { #[darling(word, word)] B { a: u8 } } => 19..23 Unexpected field: `word`. `#[darling(word)]` can only be
   applied to a unit variant;25..29 Unexpected field: `word`. `#[darling(word)]` can only be applied to a unit
   variant;
enum A { #[darling(word = 7)] B() } => 19..27 Unexpected field: `word`. `#[darling(word)]` can only be applied to a unit variant;
enum A { #[darling(default, 7, with = f)] B } => 19..26 Unknown field: `default`;28..29 Unexpected meta-item format `literal`;31..39 Unknown field: `with`;
enum A { #[darling(reneme = "a", a::word, ::skip, r#word, multiple, flatten, map = f)] B(u8) }
   => 19..31 Unknown field: `reneme`;33..40 Unknown field: `a::word`;42..48 Unknown field: `skip`;50..56 Unknown
   field: `r#word`;58..66 Unknown field: `multiple`;68..75 Unknown field: `flatten`;77..84 Unknown field: `map`;
enum A { #[darling] #[darling = 1] #[other(x)] #[::darling(x)] #[r#darling(x)] #[darling(7, skip = b c)] B }
   => 11..18 Unexpected meta-item format `word`;22..33 Unexpected meta-item format `name-value`;89..90 Unexpected
   meta-item format `literal`;99..100 expected an expression;
enum A { B { #[darling(skip, skip)] a: u8, #[darling(multiple, multiple)] b: u8 } } => 29..33 Duplicate field `skip`;
enum A { B(u8, #[darling(skip, skip)] u8, #[darling(skip, skip)] u8) } => 31..35 Duplicate field `skip`;
enum A { B { #[darling(skip, skip, rename = 1)] a: u8, #[darling(skip, skip)] b: u8 }, C(#[darling(word)] u8) }
   => 29..33 Duplicate field `skip`;44..45 Unexpected type `int`;99..103 Unknown field: `word`;
enum A { #[darling(skip, skip)] B { #[darling(multiple, multiple)] a: u8 } } => 25..29 Duplicate field `skip`;
enum A { B { #[darling(skip, skip)] a: u8 }, C, #[darling(rename)] D } => 29..33 Duplicate field `skip`;58..64 Unexpected meta-item format `word`;
enum A { B { #[darling(flatten)] a: u8, #[darling(flatten)] b: u8 } } => ok
#[darling(default, default)] enum A { #[darling(skip, skip)] B } => 19..26 Duplicate field `default`;
#[darling(transparent)] enum A { B } => ok
#[darling(from_word = f)] enum A { #[darling(word)] B } => 22..23 `from_word` cannot be used with an enum that also uses `word`;
#[darling(from_word = f)] enum A { #[darling(word = false)] B, #[darling(word = false)] C } => ok
#[darling(from_word = f)] enum A { #[darling(word, word)] B } => 51..55 Duplicate field `word`;
enum A { #[darling(word)] B, #[darling(word = true)] C, #[darling(word = false)] D }
   => 19..23 `#[darling(word)]` can only be applied to one variant;46..50 `#[darling(word)]` can only be applied to
   one variant;
enum A { #[darling(word)] B, #[darling(skip, word)] C } => 19..23 `#[darling(word)]` can only be applied to one
   variant;45..49 `#[darling(word)]` can only be applied to one variant;
enum A { #[darling(word)] B, #[darling(word, skip, skip)] C } => 51..55 Duplicate field `skip`;
#[darling(from_expr = f)] enum A { B } => 22..23 `from_expr` cannot be used on enums with non-skipped unit variants
   because it conflicts with the generated impl;
#[darling(from_expr = f)] enum A { #[darling(skip)] B, C(u8), #[darling(skip = true)] D } => ok
#[darling(from_expr = f)] enum A { #[darling(skip = false)] B }
   => 22..23 `from_expr` cannot be used on enums with non-skipped unit variants because it conflicts with the
   generated impl;
#[darling(from_expr = f)] enum A { #[darling(skip = 7)] B } => 52..53 Unexpected type `int`;
#[darling(from_expr = f)] enum A { B(), C {}, D(u8, u8) } => ok
#[darling(from_expr = f, from_word = g)] enum A { #[darling(word)] B, #[darling(word)] C }
   => 37..38 `from_word` cannot be used with an enum that also uses `word`;60..64 `#[darling(word)]` can only be
   applied to one variant;80..84 `#[darling(word)]` can only be applied to one variant;22..23 `from_expr` cannot be
   used on enums with non-skipped unit variants because it conflicts with the generated impl;"#;

// What the options hold of an enum that derives `FromMeta`.
const HELD: &str =
    r#"enum A { OneTwo, #[darling(rename = "x", skip)] OneThree(u8), #[darling(word)] r#B }
   => A: OneTwo as one_two unit;OneThree as x skipped tuple __unnamed as __unnamed;;r#B as r#B word unit;
#[darling(rename_all = "kebab", default, allow_unknown_fields)] enum A { OneTwo { one_two: u8, #[darling(default =
   f)] b: u8 }, #[darling(transparent)] C { a: u8 } } => A: OneTwo as one-two allowed struct one_two as one-two =
   inherited;b as b = f;;C as C allowed transparent struct a as a = inherited;;"#;

// The forms that options show which have no program.
const FORMS: &str = r#"struct A(u8, u8); => 7..8 tuple;
struct A(); => 7..8 tuple;
struct A(u8); => none
struct A { a: u8 } => none
struct A; => none
enum A { B(u8, u8), C(), D(u8), #[darling(skip)] E(u8, u8), F {}, G } => 9..10 tuple;20..21 tuple;
enum A { #[darling(transparent)] B(u8, u8), #[darling(transparent)] C(u8), #[darling(transparent, skip)] D() } => 33..34 tuple;
#[darling(default)] enum Z { Q { p: u8, #[darling(default)] q: u8, #[darling(skip)] w: u8 }, #[darling(skip)] S { h:
   u8 }, #[darling(transparent)] T { j: u8 }, U(u8), #[darling(transparent)] V { y: u8, z: u8 } }
   => 33..34 inherited default;84..85 inherited default;195..196 inherited default;202..203 inherited default;
#[darling(map = f)] enum A { B } => 25..26 transform;
#[darling(and_then = f)] struct A; => 32..33 transform;
#[darling(map = f)] struct A(u8); => 27..28 transform;
#[darling(transparent, map = f)] struct A { a: u8 } => 40..41 transform;
#[darling(map = f)] struct A { a: u8 } => none
#[darling(from_none = f)] struct A; => 33..34 from_none;
#[darling(from_none = f)] struct A(u8); => 33..34 from_none;
#[darling(from_none = f)] struct A { a: u8 } => none
#[darling(from_none = f)] enum A { B } => none
#[darling(from_expr = f)] struct A; => 33..34 from_expr;
#[darling(from_expr = f)] struct A { a: u8 } => none
#[darling(from_expr = f)] enum A { B(u8) } => none
struct A<T> { a: T } => 7..8 generics;
enum A where u8: B { C } => 5..6 generics;
struct A<'a>; => 7..8 generics;
struct A<> { a: Vec<B<'a>> } => none
struct A { #[darling(with = _darling::f)] a: u8, #[darling(skip, default = _darling)] b: u8 } => 28..36 generated name;75..83 generated name;
struct A { #[darling(with = ::_darling::f, default = a::_darling, map = _darlings::b)] a: u8 } => none
struct A { #[darling(with = |x| _darling::f(x))] a: u8 } => none
#[darling(from_none = _darling::a, from_expr = _darling, and_then = r#_darling::b)] struct A { #[darling(with =
   "_darling::f", and_then = "_darling")] a: u8 } => 68..78 generated name;22..30 generated name;47..55 generated
   name;112..125 generated name;138..148 generated name;
#[darling(crate = _darling, bound = "u8: _darling::A", from_word = a::_darling)] struct A { #[darling(rename =
   "_darling", with = <_darling::B>::c)] a: _darling::D } => none
#[darling(map = _darling::f, default = "_darling::g", from_word = _darling::h)] struct A { #[darling(and_then =
   _darling::i)] a: u8 } => 39..52 generated name;16..24 generated name;66..74 generated name;112..120 generated name;
#[darling(map = _darling::f)] enum A<T> { B(T, T), #[darling(skip)] C { #[darling(with = _darling::g)] a: u8 } }
   => 16..24 generated name;35..36 generics;35..36 transform;42..43 tuple;89..97 generated name;"#;

/// What the options of an enum hold that derives `FromMeta`.
pub fn shown_variants(alloc: Global, row: &str) -> Tested<Text> {
    let options = options_of(alloc, row)?;
    let mut text = Text::new(alloc);
    text.push_str(options.base.ident.to_text(alloc)?.as_str())?;
    text.push_str(": ")?;
    if let Data::Enum(variants) = &options.base.body {
        for variant in variants.as_slice() {
            push_variant(alloc, &mut text, variant)?;
        }
    }
    Ok(text)
}

/// The options of a declaration that derives `FromMeta`.
pub fn options_of(alloc: Global, row: &str) -> Tested<FromMetaOptions> {
    let item = item_of(alloc, row)?;
    match FromMetaOptions::new(alloc, &item, &table(alloc)?) {
        Ok(options) => Ok(options),
        Err(_) => Err(Fail::new(format_args!("{row} is refused"))),
    }
}

fn push_variant(alloc: Global, text: &mut Text, variant: &InputVariant) -> Tested<()> {
    text.push_str(variant.ident.to_text(alloc)?.as_str())?;
    text.push_str(" as ")?;
    text.push_str(variant.name.as_str())?;
    if variant.is_skipped() {
        text.push_str(" skipped")?;
    }
    if variant.has_word() {
        text.push_str(" word")?;
    }
    if variant.allow_unknown_fields.unwrap_or(false) {
        text.push_str(" allowed")?;
    }
    if variant.transparent.is_present() {
        text.push_str(" transparent")?;
    }
    push_members(alloc, text, &variant.body)?;
    text.push(';')?;
    Ok(())
}

fn push_members(alloc: Global, text: &mut Text, body: &Fields<InputField>) -> Tested<()> {
    text.push_str(match body.style {
        Style::Unit => " unit",
        Style::Tuple => " tuple ",
        Style::Struct => " struct ",
    })?;
    for field in body.fields.as_slice() {
        push_field(alloc, text, field)?;
    }
    Ok(())
}

/// Each form that options show with its place; `none`, where there is none.
pub fn forms(alloc: Global, row: &str) -> Tested<Text> {
    let options = options_of(alloc, row)?;
    let found = options.forms_of(alloc)?;
    let mut text = Text::new(alloc);
    if found.is_empty() {
        text.push_str("none")?;
    }
    for it in found.as_slice() {
        let Span::At { start, end, .. } = it.span else {
            return Err(Fail::new(format_args!("{row} has a form of no place")));
        };
        text.push_str(format!(in alloc; "{start}..{end} {};", it.form.words())?.as_str())?;
    }
    Ok(text)
}

#[test]
fn options_of_variants(rt: HostRuntime) -> Tested<()> {
    let alloc = rt.alloc();
    rows(alloc, "under FromMeta", META)?;
    rows(alloc, "variants", HELD)?;
    rows(alloc, "forms", FORMS)
}
