//! What units of enums, of unit structs and of transparent structs make of items.

use crate::ask::rows;
use crate::programs::ran;
use crate::sources::{item_of, items_of};
use codegen_outer::OuterFromImpl;
use codegen_program::{Decls, Program, Unit};
use machine_execute::Element;
use node_core::{DeriveInput, Items, Text};
use options_core::{FdiOptions, FromMetaOptions};
use std::alloc::Global;
use std::test::Fail;
use tests_checks::{Tested, kind_of};
use util_table::RenameTable;

// The names of variants by the rule that enums begin with.
const TABLE: &str = "snake_case variant Fast fast
snake_case variant Slow slow
snake_case variant A a
snake_case variant B b
snake_case variant C c
snake_case variant Off off
snake_case variant On on
snake_case variant Of of";

// Variants by a word, by a string and by a list of one item.
const MODES: &str =
    r#"enum Mode { Fast, Slow { by: u8 } } #[darling(attributes(my))] struct S { mode: Mode } | #[my(mode = "fast")] struct X; => S {mode: Mode::Fast}
enum Mode { Fast, Slow { by: u8 } } #[darling(attributes(my))] struct S { mode: Mode } | #[my(mode(fast))] struct X; => S {mode: Mode::Fast}
enum Mode { Fast, Slow { by: u8 } } #[darling(attributes(my))] struct S { mode: Mode } | #[my(mode(slow(by = 2)))] struct X; => S {mode: Mode::Slow {by: 2}}
enum Mode { Fast, Slow { by: u8 } } #[darling(attributes(my))] struct S { mode: Mode } | #[my(mode(slow))] struct X;
   => 5..15 Unexpected meta-item format `non-list` at mode;
enum Mode { Fast, Slow { by: u8 } } #[darling(attributes(my))] struct S { mode: Mode } | #[my(mode(slow = 2))] struct
   X; => 5..19 Unexpected meta-item format `non-list` at mode;
enum Mode { Fast, Slow { by: u8 } } #[darling(attributes(my))] struct S { mode: Mode } | #[my(mode(quick))] struct X;
   => 10..15 Unknown field: `quick`. Available values: `fast`, `slow` at mode;
enum Mode { Fast, Slow { by: u8 } } #[darling(attributes(my))] struct S { mode: Mode } | #[my(mode = "quick")] struct
   X; => 12..19 Unknown value: `quick`. Available values: `fast`, `slow` at mode;
enum Mode { Fast, Slow { by: u8 } } #[darling(attributes(my))] struct S { mode: Mode } | #[my(mode = "slow")] struct
   X; => 12..18 Unexpected meta-item format `literal` at mode;
enum Mode { Fast, Slow { by: u8 } } #[darling(attributes(my))] struct S { mode: Mode } | #[my(mode(fast()))] struct
   X; => 5..17 Unexpected meta-item format `non-path` at mode;
enum Mode { Fast, Slow { by: u8 } } #[darling(attributes(my))] struct S { mode: Mode } | #[my(mode("fast"))] struct
   X; => 5..17 Unexpected meta-item format `literal` at mode;
enum Mode { Fast, Slow { by: u8 } } #[darling(attributes(my))] struct S { mode: Mode } | #[my(mode())] struct X;
   => 5..11 Too few items: Expected at least 1 at mode;
enum Mode { Fast, Slow { by: u8 } } #[darling(attributes(my))] struct S { mode: Mode } | #[my(mode(fast, slow))]
   struct X; => 5..21 Too many items: Expected no more than 1 at mode;
enum Mode { Fast, Slow { by: u8 } } #[darling(attributes(my))] struct S { mode: Mode } | #[my(mode)] struct X;
   => 5..9 Unexpected meta-item format `word` at mode;
enum Mode { Fast, Slow { by: u8 } } #[darling(attributes(my))] struct S { mode: Mode } | #[my(mode(slow(by = 300)))]
   struct X; => 20..23 number too large to fit in target type at mode/slow/by;
enum Mode { Fast, Slow { by: u8 } } #[darling(attributes(my))] struct S { mode: Mode } | #[my(mode(slow(by 2)))]
   struct X; => 15..19 expected a meta list at mode;
enum Mode { A { x: u8 }, #[darling(skip)] B { x: u8 }, C { y: u8, z: u8 } } #[darling(attributes(my))] struct S { a:
   Mode, b: Mode } | #[my(a(c(z = 1, y = 2)), b(a(x = 3)))] struct X;
   => S {a: Mode::C {y: 2, z: 1}, b: Mode::A {x: 3}}
enum Mode { A { x: u8 }, C { y: u8, z: u8 } } #[darling(attributes(my))] struct S { a: Mode } | #[my(a(c(z = 1, w =
   2)))] struct X; => 16..21 Unknown field: `w`. Available values: `y`, `z` at a/c;- Missing field `y` at a/c;
enum Mode { A, #[darling(skip)] B } #[darling(attributes(my))] struct S { a: Mode } | #[my(a = "b")] struct X;
   => 9..12 Unknown value: `b`. Available values: `a` at a;
enum Mode { A, #[darling(skip)] B } #[darling(attributes(my))] struct S { a: Mode } | #[my(a(b))] struct X;
   => 7..8 Unknown field: `b`. Available values: `a` at a;
enum Mode { #[darling(rename = "a")] First, #[darling(rename = "a")] Second { x: u8 } } #[darling(attributes(my))]
   struct S { a: Mode, b: Mode } | #[my(a = "a", b(a))] struct X; => S {a: Mode::First, b: Mode::First}
enum Inner { A(u8) } enum Outer { B { inner: Inner } } #[darling(attributes(my))] struct S { o: Option<Outer> } |
   #[my(o(b(inner(a = 7))))] struct X; => S {o: some(Outer::B {inner: Inner::A(7)})}"#;

// Variants and structs of one member, and what words, no items and expressions are.
const WHOLES: &str =
    r#"enum Mode { #[darling(word)] Off, On(u8) } #[darling(attributes(my))] struct S { mode: Mode } | #[my(mode)] struct X; => S {mode: Mode::Off}
enum Mode { #[darling(word)] Off, On(u8) } #[darling(attributes(my))] struct S { mode: Mode } | #[my(mode(on = 3))] struct X; => S {mode: Mode::On(3)}
enum Mode { #[darling(word)] Off, On(u8) } #[darling(attributes(my))] struct S { mode: Mode } | #[my(mode = "on")]
   struct X; => 12..16 Unexpected meta-item format `literal` at mode;
enum Mode { #[darling(word)] Off, On(u8) } #[darling(attributes(my))] struct S { mode: Mode } | #[my(mode(on =
   true))] struct X; => 15..19 Unexpected type `bool` at mode/on;
enum Mode { Off, On(Option<u8>), #[darling(transparent)] Of { n: Option<u8> } } #[darling(attributes(my))] struct S {
   a: Mode, b: Mode, c: Mode } | #[my(a = "on", b = "of", c(of = 2))] struct X;
   => S {a: Mode::On(none), b: Mode::Of {n: none}, c: Mode::Of {n: some(2)}}
struct W(u8); #[darling(transparent)] struct V { n: String } struct U; #[darling(attributes(my))] struct S { w: W, v:
   V, u: U } | #[my(w = 3, v = "n", u)] struct X; => S {w: W(3), v: V {n: "n"}, u: U}
struct W(u8); #[darling(attributes(my))] struct S { w: W } | #[my(w = "n")] struct X; => 9..12 Unknown value: `n` at w;
struct W(Option<u8>); #[darling(attributes(my))] struct S { w: W } | struct X; => - Missing field `w`;
#[darling(from_none = f)] enum Mode { A } #[darling(attributes(my))] struct S { mode: Mode } | struct X; => - Missing field `mode`;
#[darling(from_word = f)] enum Mode { A } #[darling(attributes(my))] struct S { mode: Mode } | #[my(mode)] struct X;
   => 5..9 the function is not asked so at mode;
#[darling(from_expr = f)] enum Mode { A(u8) } #[darling(attributes(my))] struct S { mode: Mode } | #[my(mode = 5)]
   struct X; => 12..13 the function is not asked so at mode;"#;

/// What the last declaration makes of an item, a row `DECLARATIONS | ITEM`: it alone derives `FromDeriveInput`, those before it
/// derive `FromMeta`.
pub fn variant_outcome(alloc: Global, row: &str) -> Tested<Text> {
    let (decls, subject) = kind_of(row)?;
    let decls = items_of(alloc, decls)?;
    let table = table(alloc)?;
    let count = decls.len();
    let mut units = Items::new(alloc);
    for (number, decl) in decls.as_slice().iter().enumerate() {
        let Ok(place) = u32::try_from(number) else {
            return Err(Fail::new(format_args!("there are too many declarations")));
        };
        if number.saturating_add(1) == count {
            units.push(input_unit(alloc, decl, place)?)?;
        } else {
            units.push(meta_unit(alloc, decl, &table, place)?)?;
        }
    }
    let decls = Decls::new(alloc, decls)?;
    let item = item_of(alloc, 1, subject)?;
    ran(alloc, &Program { decls, units }, Element::Input(&item))
}

fn table(alloc: Global) -> Tested<RenameTable> {
    match RenameTable::parse(alloc, TABLE) {
        Ok(table) => Ok(table),
        Err(_) => Err(Fail::new(format_args!("the table is bad"))),
    }
}

fn meta_unit(alloc: Global, decl: &DeriveInput, table: &RenameTable, number: u32) -> Tested<Unit> {
    let Ok(options) = FromMetaOptions::new(alloc, decl, table) else {
        return Err(Fail::new(format_args!("options have faults")));
    };
    let left = options.as_impl(alloc)?;
    if !left.base.has_few_slots() {
        return Err(Fail::new(format_args!("it has too many slots")));
    }
    Ok(left.unit_of(alloc, number)?)
}

fn input_unit(alloc: Global, decl: &DeriveInput, number: u32) -> Tested<Unit> {
    let Ok(options) = FdiOptions::new(alloc, decl, &RenameTable::empty(alloc)) else {
        return Err(Fail::new(format_args!("options have faults")));
    };
    let left = options.as_impl(alloc)?;
    if !left.outer.base.has_few_fields() {
        return Err(Fail::new(format_args!("it has too many fields")));
    }
    Ok(left.unit_of(alloc, number)?)
}

#[test]
fn variants_are_read(rt: HostRuntime) -> Tested<()> {
    let alloc = rt.alloc();
    rows(alloc, "variants", MODES)?;
    rows(alloc, "variants", WHOLES)
}
