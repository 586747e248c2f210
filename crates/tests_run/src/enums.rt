//! Enums, and structs that are read as their one field is or by a word.
//!
//! The names of variants are those of the rule `snake_case` in the third part of the input; without one they stay.

use crate::ends::rows;
use std::alloc::Global;
use tests_checks::{Tested, row_of, unwrapped};

// Declarations, of which the last reads the items.
const MODE: &str =
    r#"#[derive(FromMeta)] enum Mode { Fast, Slow { by: u8 } } #[derive(FromDeriveInput)] #[darling(attributes(my))] struct
   Opts { mode: Mode }"#;

const SWITCH: &str =
    r#"#[derive(FromMeta)] enum Mode { #[darling(word)] Off, On(u8) } #[derive(FromDeriveInput)] #[darling(attributes(my))]
   struct Opts { mode: Mode }"#;

const SIZES: &str =
    r#"#[derive(FromMeta)] enum Size { Flat { w: u8, h: u8 }, #[darling(skip)] Gone { g: u8 }, Deep { d: u8,
   #[darling(multiple)] n: Vec<u8> }, Line { #[darling(rename = "l")] len: u8, #[darling(default)] on: bool } }
   #[derive(FromDeriveInput)] #[darling(attributes(my))] struct Opts { a: Size, b: Size, c: Size }"#;

const PLACED: &str =
    r#"#[derive(FromMeta)] enum Mode { Fast, Slow { by: u8 } } #[derive(FromDeriveInput)] #[darling(attributes(my))] struct
   Opts { o: Option<Mode>, #[darling(multiple)] v: Vec<Mode>, m: BTreeMap<String, Mode> }"#;

const FLATTENED: &str =
    r#"#[derive(FromMeta)] enum Mode { Fast, Slow { by: u8 } } #[derive(FromDeriveInput)] #[darling(attributes(my))] struct
   Opts { name: String, #[darling(flatten)] mode: Mode }"#;

// The names of variants, as a third part.
const NAMES: &str = " / %% / snake_case variant Fast fast / snake_case variant Slow slow";

// Items under `MODE`, with the names: a word, a string and a list of one item.
const BY_NAME: &str = r#"#[my(mode = "fast")] struct S; => ok S Opts {mode: Mode::Fast}
#[my(mode(fast))] struct S; => ok S Opts {mode: Mode::Fast}
#[my(mode(slow))] struct S; => err S 1 / 5..15 Unexpected meta-item format `non-list` at mode
#[my(mode(quick))] struct S; => err S 1 / 10..15 Unknown field: `quick`. Available values: `fast`, `slow` at mode
#[my(mode = "slow")] struct S; => err S 1 / 12..18 Unexpected meta-item format `literal` at mode
#[my(mode(fast()))] struct S; => err S 1 / 5..17 Unexpected meta-item format `non-path` at mode
#[my(mode("fast"))] struct S; => err S 1 / 5..17 Unexpected meta-item format `literal` at mode
#[my(mode())] struct S; => err S 1 / 5..11 Too few items: Expected at least 1 at mode
#[my(mode(fast, slow))] struct S; => err S 1 / 5..21 Too many items: Expected no more than 1 at mode
#[my(mode)] struct S; => err S 1 / 5..9 Unexpected meta-item format `word` at mode
#[my(mode = 1)] struct S; => err S 1 / 12..13 Unexpected type `int` at mode
#[my(mode(slow(by = 300)))] struct S; => err S 1 / 20..23 number too large to fit in target type at mode/slow/by
#[my(mode(slow()))] struct S; => err S 1 / 5..17 Missing field `by` at mode/slow
#[my(mode(slow(to = 1)))] struct S; => err S 2 / 15..21 Unknown field: `to`. Available values: `by` at mode/slow / -
   Missing field `by` at mode/slow
#[my(mode(slow(by = 1, by = 2)))] struct S; => err S 1 / 23..29 Duplicate field `by` at mode/slow
#[my(mode(slow(by 2)))] struct S; => err S 1 / 15..19 expected a meta list at mode
#[my(mode(Fast))] struct S; => err S 1 / 10..14 Unknown field: `Fast`. Available values: `fast`, `slow` at mode
#[my()] struct S; => err S 1 / - Missing field `mode`"#;

// Items under `SWITCH`: what the word of the enum is, and a variant that is read as its one member.
const BY_WORD: &str = r#"#[my(mode(On = 3))] struct S; => ok S Opts {mode: Mode::On(3)}
#[my(mode = "On")] struct S; => err S 1 / 12..16 Unexpected meta-item format `literal` at mode
#[my(mode = "Off")] struct S; => ok S Opts {mode: Mode::Off}
#[my(mode(Off))] struct S; => ok S Opts {mode: Mode::Off}
#[my(mode(On = "4"))] struct S; => ok S Opts {mode: Mode::On(4)}
#[my(mode(Off = 1))] struct S; => err S 1 / 5..18 Unexpected meta-item format `non-path` at mode
#[my(mode(On = 300))] struct S; => err S 1 / 15..18 number too large to fit in target type at mode/On
#[my(mode(On))] struct S; => err S 1 / 10..12 Unexpected meta-item format `word` at mode/On
#[my(mode(On()))] struct S; => err S 1 / 10..14 Unexpected meta-item format `list` at mode/On"#;

// Items under `SIZES`: variants that are read field by field.
const BY_FIELDS: &str =
    r#"#[my(a(Deep(n = 1, d = 2, n = 3)), b(Line(l = 4)), c(Flat(h = 6, w = 5)))] struct S; => ok S Opts {a: Size::Deep {d:
   2, n: [1, 3]}, b: Size::Line {len: 4, on: false}, c: Size::Flat {w: 5, h: 6}}
#[my(a(Deep(n = 1, n = "x")), b(Gone(g = 1)), c(Flat(w = 7, l = 8)))] struct S; => err S 5 / 23..26 Unknown value:
   `x` at a/Deep/n[1] / - Missing field `d` at a/Deep / 32..43 Unknown field: `Gone`. Available values: `Deep`,
   `Flat`, `Line` at b / 60..65 Unknown field: `l`. Available values: `h`, `w` at c/Flat / - Missing field `h` at
   c/Flat"#;

// Items under `PLACED`: enums in other types.
const IN_TYPES: &str =
    r#"#[my(v = "Fast", v(Slow(by = 1)), m(a = "Fast", b(Slow(by = 2))))] struct S; => ok S Opts {o: none, v: [Mode::Fast,
   Mode::Slow {by: 1}], m: {"a": Mode::Fast, "b": Mode::Slow {by: 2}}}
#[my(o(Slow(by = 3)), m())] struct S; => ok S Opts {o: some(Mode::Slow {by: 3}), v: [], m: {}}
#[my(o = "x", v = "Fast", v(Slow), m(b(Slow(by = "y"))))] struct S; => err S 3 / 9..12 Unknown value: `x`. Available
   values: `Fast`, `Slow` at o / 26..33 Unexpected meta-item format `non-list` at v[1] / 49..52 Unknown value: `y`
   at m/b/Slow/by"#;

// Items under `FLATTENED`: what is left for an enum.
const IN_FLATTENED: &str =
    r#"#[my(Fast, name = "a")] struct S; => ok S Opts {name: "a", mode: Mode::Fast}
#[my(name = "a", Slow(by = 1))] struct S; => ok S Opts {name: "a", mode: Mode::Slow {by: 1}}
#[my(name = "a")] struct S; => err S 1 / - Too few items: Expected at least 1
#[my(name = "a", Fast, Fast)] struct S; => err S 1 / - Too many items: Expected no more than 1
#[my(name = "a", Round)] struct S; => err S 1 / 17..22 Unknown field: `Round`. Available values: `Fast`, `Slow`,
   `name`
#[my(name = "a", Slow(to = 1, by = 2))] struct S; => err S 1 / 22..28 Unknown field: `to`. Available values: `by` at
   Slow"#;

// Whole inputs, as in `inputs`.
const WHOLE: &str =
    r#"#[derive(FromMeta)] enum Mode { Fast, Slow { by: u8 } } #[derive(FromDeriveInput)] #[darling(attributes(my))] struct
   Opts { mode: Mode } / %% / #[my(mode(slow(by = 2)))] struct S; / %% / snake_case variant Fast fast / snake_case
   variant Slow slow => ok S Opts {mode: Mode::Slow {by: 2}}
#[derive(FromMeta)] enum Mode { Fast, Slow { by: u8 } } #[derive(FromDeriveInput)] #[darling(attributes(my))] struct
   Opts { mode: Mode } / %% / #[my(mode = "quick")] struct S; / %% / snake_case variant Fast fast / snake_case
   variant Slow slow => err S 1 / 12..19 Unknown value: `quick`. Available values: `fast`, `slow` at mode
#[derive(FromMeta)] enum Mode { #[darling(word)] Off, On(u8) } #[derive(FromDeriveInput)] #[darling(attributes(my))]
   struct Opts { mode: Mode } / %% / #[my(mode)] struct S; => ok S Opts {mode: Mode::Off}
#[derive(FromMeta)] #[darling(transparent, derive_syn_parse)] struct A { n: u8 } #[derive(FromDeriveInput)]
   #[darling(attributes(my))] struct Opts { a: A } / %% / #[my(a = 1)] struct S; => ok S Opts {a: A {n: 1}}
#[derive(FromMeta)] enum Of { Some(Option<u8>), #[darling(transparent)] Named { n: Option<u8> }, None }
   #[derive(FromDeriveInput)] #[darling(attributes(my))] struct Opts { a: Of, b: Of, c: Of, d: Of } / %% / #[my(a =
   "Some", b = "Named", c(Named = 2), d(Some = 3))] struct S; => ok S Opts {a: Of::Some(none), b: Of::Named {n:
   none}, c: Of::Named {n: some(2)}, d: Of::Some(some(3))}
#[derive(FromMeta)] struct W(u8); #[derive(FromMeta)] #[darling(transparent)] struct V { n: String }
   #[derive(FromMeta)] struct U; #[derive(FromDeriveInput)] #[darling(attributes(my))] struct Opts { w: W, v: V, u:
   U } / %% / #[my(w = 3, v = "n", u)] struct S; => ok S Opts {w: W(3), v: V {n: "n"}, u: U}
#[derive(FromMeta)] struct W(u8); #[derive(FromMeta)] #[darling(transparent)] struct V { n: String }
   #[derive(FromMeta)] struct U; #[derive(FromDeriveInput)] #[darling(attributes(my))] struct Opts { w: W, v: V, u:
   U } / %% / #[my(w = 300, v = 4, u = 1)] struct S; => err S 3 / 9..12 number too large to fit in target type at w
   / 18..19 Unexpected type `int` at v / 25..26 Unexpected type `int` at u
#[derive(FromMeta)] struct Rest { x: u8 } #[derive(FromMeta)] enum Shape { Dot, Box { w: u8, #[darling(flatten)]
   rest: Option<Rest> } } #[derive(FromDeriveInput)] #[darling(attributes(my))] struct Opts { shape: Shape } / %% /
   #[my(shape(Box(w = 1, x = 2)))] struct S; => ok S Opts {shape: Shape::Box {w: 1, rest: none}}
#[derive(FromMeta)] struct Rest { x: u8 } #[derive(FromMeta)] enum Shape { Dot, Box { w: u8, #[darling(flatten)]
   rest: Rest } } #[derive(FromDeriveInput)] #[darling(attributes(my))] struct Opts { shape: Shape } / %% /
   #[my(shape(Box(w = 1, x = 2)))] struct S; => err S 1 / 5..29 Missing field `rest` at shape/Box
#[derive(FromMeta)] enum Mode { #[darling(rename = "b")] First, #[darling(rename = "b")] Second { x: u8 } }
   #[derive(FromDeriveInput)] #[darling(attributes(my))] struct Opts { a: Mode, b: Mode, c: Mode } / %% / #[my(a =
   "b", b(b), c = "Second")] struct S; => err S 1 / 24..32 Unknown value: `Second`. Available values: `b` at c
#[derive(FromMeta)] enum Mode { #[darling(rename = "b")] First, #[darling(rename = "b")] Second { x: u8 } }
   #[derive(FromDeriveInput)] #[darling(attributes(my))] struct Opts { a: Mode, b: Mode } / %% / #[my(a = "b",
   b(b))] struct S; => ok S Opts {a: Mode::First, b: Mode::First}
#[derive(FromMeta)] enum Inner { A(u8) } #[derive(FromMeta)] enum Outer { B { inner: Inner }, C(Inner) }
   #[derive(FromDeriveInput)] #[darling(attributes(my))] struct Opts { o: Outer, p: Outer } / %% / #[my(o(B(inner(A
   = 7))), p(C(A = 8)))] struct S; => ok S Opts {o: Outer::B {inner: Inner::A(7)}, p: Outer::C(Inner::A(8))}
#[derive(FromMeta)] enum Inner { A(u8) } #[derive(FromMeta)] enum Outer { B { inner: Inner }, C(Inner) }
   #[derive(FromDeriveInput)] #[darling(attributes(my))] struct Opts { o: Outer, p: Outer } / %% / #[my(o(B(inner(A
   = 300))), p(C(A = 301)))] struct S; => err S 2 / 19..22 number too large to fit in target type at o/B/inner/A /
   35..38 number too large to fit in target type at p/C/A"#;

// Many variants, and enums in enums.
const MANY: &str =
    r#"#[derive(FromMeta)] enum Mode { ⟨256 V^, ⟩} #[derive(FromDeriveInput)] #[darling(attributes(my))] struct Opts { a:
   Mode, b: Mode, c: Mode } / %% / #[my(a = "V0", b = "V255", c(V128))] struct S; => ok S Opts {a: Mode::V0, b:
   Mode::V255, c: Mode::V128}
#[derive(FromMeta)] enum Mode { ⟨256 V^ { a: u8 }, ⟩} #[derive(FromDeriveInput)] #[darling(attributes(my))] struct
   Opts { a: Mode, b: Mode } / %% / #[my(a(V0(a = 1)), b(V255(a = 2)))] struct S; => ok S Opts {a: Mode::V0 {a: 1},
   b: Mode::V255 {a: 2}}
#[derive(FromMeta)] enum D0 { A } ⟨98 #[derive(FromMeta)] enum D$ { A(D^) } ⟩#[derive(FromDeriveInput)]
   #[darling(attributes(my))] struct Opts { a: D98 } / %% / #[my(a(⟨98 A(⟩A⟨98 )⟩))] struct S; => ok S Opts {a: ⟨98
   D~::A(⟩D0::A⟨98 )⟩}"#;

// Ten thousand declarations.
const DECLARED: &str =
    r#"⟨9999 #[derive(FromMeta)] enum M$ { A, B { of: u8 } } ⟩#[derive(FromDeriveInput)] #[darling(attributes(my))] struct
   Opts { a: M1, b: M9999 } / %% / #[my(a = "A", b(B(of = 1)))] struct S; => ok S Opts {a: M1::A, b: M9999::B {of:
   1}}"#;

/// Runs the tool on the items of each row, ITEMS => LINES, under the declarations and with the names.
fn under(alloc: Global, declarations: &str, names: &str, table: &str) -> Tested<()> {
    let declarations = unwrapped(alloc, declarations)?;
    let table = unwrapped(alloc, table)?;
    let mut whole = String::new(alloc);
    for row in table.lines() {
        let (items, wanted) = row_of(row);
        for piece in [
            declarations.as_str(),
            " / %% / ",
            items,
            names,
            " => ",
            wanted,
            "\n",
        ] {
            whole.push_str(piece)?;
        }
    }
    rows(alloc, &[whole.as_str()])
}

#[test]
fn enums(rt: HostRuntime) -> Tested<()> {
    let alloc = rt.alloc();
    under(alloc, MODE, NAMES, BY_NAME)?;
    under(alloc, SWITCH, "", BY_WORD)?;
    under(alloc, SIZES, "", BY_FIELDS)?;
    under(alloc, PLACED, "", IN_TYPES)?;
    under(alloc, FLATTENED, "", IN_FLATTENED)?;
    rows(alloc, &[WHOLE])
}

#[test]
fn many_variants(rt: HostRuntime) -> Tested<()> {
    rows(rt.alloc(), &[MANY])
}

#[test]
fn many_enums(rt: HostRuntime) -> Tested<()> {
    rows(rt.alloc(), &[DECLARED])
}
