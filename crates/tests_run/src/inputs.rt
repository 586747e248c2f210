//! Whole inputs: declarations, items, and perhaps a table of names. A row: LINES => LINES, with ` / ` between lines.
//!
//! `⟨3 x⟩` stands for `xxx`. In it `$` counts 1, 2, 3, `^` counts 0, 1, 2, and `~` counts 3, 2, 1.

use crate::ends::{ends_so, must_end, rows};
use tests_checks::{Tested, unwrapped};

// Parts, and what is refused in their order.
const PARTS: &str = r#"struct A; / %% => refused: no receiver
struct A; => refused: no parts
%% / %% / %% => refused: no parts
%% => refused: no receiver
struct A { a: u8 } / %% / %% => refused: no receiver
#[doc = "x / %% / "] struct D; / %% => refused: syntax in part 1 at 8
struct A { a } / %% => refused: syntax in part 1 at 0
struct A; ] / %% / ( => refused: syntax in part 1 at 10
struct A; / %% / struct => refused: syntax in part 2 at 0
%% / %% / snake_case variant Fast => refused: bad table line 1
" / %% / %% /  / Pascal field one_two OneTwo / x => refused: bad table line 3
#[derive(FromDeriveInput)] #[darling(attributes(my), rename_all = "Pascal")] struct A { one_two: u8 } / %% /
   #[my(OneTwo = 1)] struct S; / %% / Pascal field one_two OneTwo => ok S A {one_two: 1}
#[derive(FromDeriveInput)] #[darling(attributes(my), rename_all = "Pascal")] struct A { one_two: u8 } / %% /
   #[my(OneTwo = 1)] struct S; => refused: options of A under FromDeriveInput: 66..74 Unknown value: `Pascal`
#[derive(FromField, FromDeriveInput)] struct A { b: u8, b: u8 } / %% => refused: unbuilt at 9..18
#[derive(FromDeriveInput)] / #[darling(attributes(my))] / struct Opts { name: String } / %% => nothing
#[derive(FromDeriveInput)] / #[darling(attributes(my))] / struct Opts { name: String } / %% / struct S; / %% / x => refused: bad table line 1"#;

// Declarations in declarations.
const NESTED: &str =
    r#"#[derive(FromMeta)] struct Inner { x: u8, y: u8 } #[derive(FromDeriveInput)] #[darling(attributes(my))] struct
   Opts { a: Inner } / %% / #[my(a(x = 1, y = 2))] struct S; => ok S Opts {a: Inner {x: 1, y: 2}}
#[derive(FromMeta)] struct Inner { x: u8, y: u8 } #[derive(FromDeriveInput)] #[darling(attributes(my))] struct Opts {
   a: Inner } / %% / #[my(a(x = 1))] struct S; => err S 1 / 5..13 Missing field `y` at a
#[derive(FromMeta)] struct Inner { x: u8, y: u8 } #[derive(FromDeriveInput)] #[darling(attributes(my))] struct Opts {
   a: Inner } / %% / #[my(a())] struct S; => err S 2 / - Missing field `x` at a / - Missing field `y` at a
#[derive(FromMeta)] struct Inner { x: u8, y: u8 } #[derive(FromDeriveInput)] #[darling(attributes(my))] struct Opts {
   a: Inner } / %% / #[my(a)] struct S; => err S 1 / 5..6 Unexpected meta-item format `word` at a
#[derive(FromMeta)] struct Inner { b: u8 } #[derive(FromDeriveInput)] #[darling(attributes(my))] struct Opts { a: u8,
   #[darling(flatten)] rest: Inner } / %% / #[my(a = 1, c = 2)] struct S;
   => err S 2 / 12..17 Unknown field: `c`. Available values: `a`, `b` / - Missing field `b`
#[derive(FromMeta)] struct Inner { b: u8 } #[derive(FromDeriveInput)] #[darling(attributes(my))] struct Opts { a: u8,
   #[darling(flatten)] rest: Inner } / %% / #[my(a = 1, b = 2)] struct S; => ok S Opts {a: 1, rest: Inner {b: 2}}
#[derive(FromMeta)] struct Inner { b: Option<u8> } #[derive(FromDeriveInput)] #[darling(attributes(my))] struct Opts
   { #[darling(flatten)] o: Option<Inner> } / %% / struct S; => err S 1 / - Unexpected meta-item format `list`
#[derive(FromMeta)] struct A { x: u8 } #[derive(FromMeta)] struct B { a: A } #[derive(FromDeriveInput)]
   #[darling(attributes(my))] struct Opts { b: Box<B> } / %% / #[my(b(a(x = "y")))] struct S;
   => err S 1 / 13..16 Unknown value: `y` at b/a/x
#[derive(FromMeta)] struct Inner { x: u8, y: String } #[derive(FromDeriveInput)] #[darling(attributes(my))] struct
   Opts { #[darling(default)] a: Inner } / %% / struct S; => ok S Opts {a: Inner {x: 0, y: ""}}
#[derive(FromMeta)] struct Inner { a: u8, b: u8 } #[derive(FromDeriveInput)] #[darling(attributes(my))] struct Opts {
   r: Result<Inner> } / %% / #[my(r(b = "\n"))] struct S; => ok S Opts {r: Result::Err(faults[11..15 Unknown value:
   `\n` at b; - Missing field `a`])}
#[derive(FromDeriveInput)] struct A { n: u8 } #[derive(FromDeriveInput)] struct B {} / %% / enum S { T } union U { a: u8 } => ok S B {} / ok U B {}"#;

// Options, and what they make of an item.
const COMPILED: &str =
    r#"#[derive(FromDeriveInput)] #[darling(attributes(my))] struct A { #[darling(default)] name: String } / %% /
   #[my(name = "a")] struct S; => ok S A {name: "a"}
#[derive(FromDeriveInput)] #[darling(attributes(my))] struct A { #[darling(default)] name: String } / %% / #[my] struct S; => ok S A {name: ""}
#[derive(FromDeriveInput)] #[darling(attributes(my), rename_all = "Pascal")] struct A { one_two: u8 } / %% /
   #[my(OneTwo = 1)] struct S; / %% / Pascal field one_two OneTwo => ok S A {one_two: 1}
#[derive(FromDeriveInput)] / #[darling(attributes(my), rename_all = "camelCase")] / struct Opts { base_url: String,
   max_retries: u8, use_proxy: bool } / %% / #[my(baseUrl = "x", maxRetries = 3, useProxy)] struct S; / %% /
   camelCase field base_url baseUrl / camelCase field max_retries maxRetries / camelCase field use_proxy useProxy
   => ok S Opts {base_url: "x", max_retries: 3, use_proxy: true}
#[derive(FromDeriveInput)] #[darling(attributes(my), rename_all = "Pascal")] struct A { #[darling(rename = "b")]
   one_two: u8 } / %% / #[my(b = 1, OneTwo = 2)] struct S; / %% / Pascal field one_two OneTwo
   => err S 1 / 12..22 Unknown field: `OneTwo`. Available values: `b`
#[derive(FromDeriveInput)] #[darling(attributes(my), attributes(a, other::mine), allow_unknown_fields)] struct A { n:
   u8, m: u8 } / %% / #[a(n = 1, k = 2)] #[my(n = 2)] #[other::mine(m = 3)] struct S; => ok S A {n: 1, m: 3}
#[derive(FromDeriveInput)] #[darling(attributes(my), bound = "T: Copy", crate = my::darling, forward_attrs(doc))]
   struct A { n: u8 } / %% / #[my(n = 1)] #[doc = "x"] struct S; => ok S A {n: 1}
#[derive(Debug, FromDeriveInput)] struct A {} / %% / struct S; => ok S A {}
#[derive(FromMeta)] struct A { ident: String } #[derive(FromDeriveInput)] #[darling(attributes(my))] struct B { a: A
   } / %% / #[my(a(ident = "x"))] struct S; => ok S B {a: A {ident: "x"}}
#[derive(FromDeriveInput)] #[darling(attributes(my), default)] struct A { n: u8, m: u8 } / %% / #[my(m = 1)] struct S; => ok S A {n: 0, m: 1}
#[derive(FromDeriveInput)] struct A { n: u8 } / %% / #[my(n = 1)] struct S; => err S 1 / - Missing field `n`
#[derive(FromMeta)] struct B { x: u8, #[darling(default)] y: u8 } #[derive(FromDeriveInput)]
   #[darling(attributes(my))] struct A { b: B, #[darling(flatten)] c: B } / %% / #[my(b(x = 1), x = 2, y = 3)] struct
   S; => ok S A {b: B {x: 1, y: 0}, c: B {x: 2, y: 3}}
#[derive(FromMeta)] struct B { x: u8, #[darling(default)] y: u8 } #[derive(FromDeriveInput)]
   #[darling(attributes(my))] struct A { #[darling(multiple)] b: Vec<B> } / %% / #[my(b(x = 1), b(y = 2))] struct S;
   => err S 1 / 15..23 Missing field `x` at b[1]
#[derive(FromDeriveInput)] #[darling(attributes(my))] struct A { #[darling(with = meta::path_text)] s: String,
   #[darling(map = "text::trim")] t: String, #[darling(skip)] u: u8 } / %% / #[my(s, t = " a ")] struct S;
   => ok S A {s: "s", t: "a", u: 0}
#[derive(FromDeriveInput)] #[darling(attributes(my), default)] struct r#A { r#type: u8, m: u8 } / %% / #[my(m = 1)] struct S; => ok S r#A {r#type: 0, m: 1}"#;

// What is as deep as it may be, and deeper.
const DEEP: &str =
    r#"#[derive(FromDeriveInput)] / #[darling(attributes(my))] / struct Opts {} / %% / #[a⟨127 (⟩⟨127 )⟩] struct S; => ok S Opts {}
#[derive(FromDeriveInput)] / #[darling(attributes(my))] / struct Opts {} / %% / #[a⟨128 (⟩⟨128 )⟩] struct S; => refused: too deep in part 2 at 130
" / %% / #[a⟨128 (⟩⟨128 )⟩] struct S; => refused: too deep in part 2 at 130
#[derive(FromMeta)] struct D0 { x: u8 } ⟨98 #[derive(FromMeta)] struct D$ { #[darling(flatten)] a: D^ }
   ⟩#[derive(FromDeriveInput)] #[darling(attributes(my))] struct D99 { #[darling(flatten)] a: D98 } / %% / #[my(x =
   1)] struct S; => ok S ⟨99 D~ {a: ⟩D0 {x: 1}⟨99 }⟩
#[derive(FromMeta)] struct D0 { x: u8 } ⟨250 #[derive(FromMeta)] struct D$ { a: D^ } ⟩#[derive(FromDeriveInput)]
   struct D { #[darling(default)] a: D250 } / %% / struct S; => ok S D {a: ⟨250 D~ {a: ⟩D0 {x: 0}⟨250 }⟩}
#[derive(FromMeta)] struct D0 { x: u8 } ⟨1100 #[derive(FromMeta)] struct D$ { a: D^ } ⟩#[derive(FromDeriveInput)]
   struct D { #[darling(default)] a: D1100 } / %% / struct S; => out of memory"#;

const REALISTIC: &str = r##"#[derive(FromMeta)]
struct Limits { min: u32, max: Option<u32> }
#[derive(FromMeta)]
struct Extra { tag: Option<String>, #[darling(default)] quiet: bool }
#[derive(FromDeriveInput)]
#[darling(attributes(builder))]
struct Opts {
    #[darling(rename = "name")] title: String,
    #[darling(default)] level: u8,
    #[darling(multiple)] each: Vec<Ident>,
    limits: Limits,
    env: BTreeMap<String, String>,
    doc: Option<String>,
    fast: Flag,
    #[darling(flatten)] extra: Extra,
}
%%
#[builder(name = "a", each = x, each = y, limits(min = 1), env(k = "v"), fast, tag = "t")] struct A;
#[builder(name = "b", level = 9, limits(min = 2, max = 3), env())] #[builder(doc = "d")] pub enum B { X, Y(u8) }
#[builder(each = 1, limits(min = "x"), env(k = 1), fast = true, hue = 2)] union C { a: u8 }
"##;

const REALISTIC_LINES: &str =
    r##"ok A Opts {title: "a", level: 0, each: [`x`, `y`], limits: Limits {min: 1, max: none}, env: {"k": "v"}, doc: none, fast: some(73..77), extra: Extra {tag: some("t"), quiet: false}}
ok B Opts {title: "b", level: 9, each: [], limits: Limits {min: 2, max: some(3)}, env: {}, doc: some("d"), fast: none, extra: Extra {tag: none, quiet: false}}
err C 6
  231..232 Unexpected type `int` at each[0]
  247..250 Unknown value: `x` at limits/min
  261..262 Unexpected type `int` at env/k
  272..276 Unexpected type `bool` at fast
  278..285 Unknown field: `hue`. Available values: `doc`, `each`, `env`, `fast`, `level`, `limits`, `name`, `quiet`, `tag`
  - Missing field `name`
"##;

// Words, faults and limits. A row: WORDS | FAULT | INPUT => NUMBER | TEXT, with ` / ` for each line feed.
const ENDS: &str = r##"run | none |  => 3 | refused: no parts / 
run extra | none |  => 2 | refused: usage / 
run | byte | %% /  => 3 | refused: not UTF-8 at 3 / 
run | read | #[derive(FromDeriveInput)] / #[darling(attributes(my))] / struct Opts { name: String } / %% / #[my(name
   = "a")] struct S; /  => 4 | refused: read fault / 
run | write | #[derive(FromDeriveInput)] / #[darling(attributes(my))] / struct Opts { name: String } / %% / #[my(name = "a")] struct S; /  => 5 | ok S Opt
run | spaces |  => 3 | refused: input over 16777216 bytes / "##;

#[test]
fn inputs(rt: HostRuntime) -> Tested<()> {
    let alloc = rt.alloc();
    rows(alloc, &[PARTS, NESTED, COMPILED, DEEP])?;
    must_end(alloc, REALISTIC, 0, REALISTIC_LINES)?;
    let ends = unwrapped(alloc, ENDS)?;
    for row in ends.lines() {
        ends_so(alloc, row)?;
    }
    Ok(())
}
