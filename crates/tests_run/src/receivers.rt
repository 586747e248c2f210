//! Receivers of some fields. A row: FIELDS | ITEMS => LINES. The fields are those of a struct `Opts` that reads the
//! attributes `my` of the items; ` / ` stands between lines.

use crate::ends::rows;
use tests_checks::Tested;

// Attributes and items of all kinds.
const ITEMS: &str = r##"name: String | #[my(name = "a")] struct S; => ok S Opts {name: "a"}
#[doc = "x"] pub name: String | #[my(name = "a")] struct S; => ok S Opts {name: "a"}
name: String | #[my] struct S; => err S 1 / - Missing field `name`
name: String | #[my(name = "a", name = 5, nom = "b")] struct S;
   => err S 2 / 17..25 Duplicate field `name` / 27..36 Unknown field: `nom`. Available values: `name`
name: String | #[my(name = 5)] struct S; => err S 1 / 12..13 Unexpected type `int` at name
name: String | #[my = 4] struct S; => err S 2 / 2..8 Name-value arguments are not supported. Use #[my(...)] / - Missing field `name`
name: String | #[my()] struct S; => err S 1 / - Missing field `name`
name: String | #[my(nom = "a", name = "b",)] struct S; => err S 1 / 5..14 Unknown field: `nom`. Available values: `name`
name: String | #[my(name = "\u{e9}\"")] struct S; => ok S Opts {name: "é\""}
name: String | #[my(name = r#"a"#)] struct S; => ok S Opts {name: "a"}
name: String | #[my[name = "a"]] struct S; => ok S Opts {name: "a"}
name: String | #[my("a")] struct S; => err S 2 / 5..8 Unexpected meta-item format `literal` / - Missing field `name`
name: String | /// x / #[a::my(b)] #[my(name = "a")] pub enum E<T> where T: A { B(T), C = 1 } => ok E Opts {name: "a"}
name: String | #[::my(name = "a")] pub(crate) union r#type { a: A } => ok r#type Opts {name: "a"}
name: String | struct S<const N: usize>([u8; N]); => err S 1 / - Missing field `name`
name: String | #[my(name = "a")] struct S { #[my(other)] a: A } / struct T; => ok S Opts {name: "a"} / err T 1 / - Missing field `name`
name: String | struct S; struct T {} fn f() {} => refused: syntax in part 2 at 22
name: String | struct S; " => refused: syntax in part 2 at 10
name: String | struct S; => err S 1 / - Missing field `name`
name: String | #[my(name = "a")] #[other(name = 1)] #[my("b")] struct S; => err S 1 / 42..45 Unexpected meta-item format `literal`
name: String | #[my(name = )] struct S; => err S 1 / 10..11 expected an expression at name
 | #[other] struct S; => ok S Opts {}"##;

// Fields of another name, fields that share one, and fields of many items.
const MANY: &str =
    r#"#[darling(multiple)] n: Vec<u8> | #[my(n = 300, n = 1, n = 301, n = "x")] struct S;
   => err S 3 / 9..12 number too large to fit in target type at n[0] / 25..28 number too large to fit in target type
   at n[1] / 34..37 Unknown value: `x` at n[1]
#[darling(multiple)] n: Vec<u8>, a: u8 | #[my(n = 1, n = 1, n = 1, n = 1, n = 1, n = 1, n = 1, n = 1, n = 1, n = 1, n
   = 1, n = 1, n = 1, n = 1, n = 1, a = 1, a = 2, m = 3, m = 4)] struct S;
   => err S 3 / 117..122 Duplicate field `a` / 124..129 Unknown field: `m`. Available values: `a`, `n` / 131..136
   Unknown field: `m`. Available values: `a`, `n`
#[darling(multiple)] n: Vec<u8>, a: u8 | #[my(n = 1, n = 1, n = 1, n = 1, n = 1, n = 1, n = 1, n = 1, n = 1, n = 1, n
   = 1, n = 1, n = 1, n = 1, n = 1, n = 1, a = 7)] struct S;
   => ok S Opts {n: [1, 1, 1, 1, 1, 1, 1, 1, 1, 1, 1, 1, 1, 1, 1, 1], a: 7}
#[darling(rename = "name")] title: String | #[my(name = "a")] struct S; => ok S Opts {title: "a"}
#[darling(rename = "x")] a: u8, #[darling(rename = "x")] b: String | #[my(x = 1, x = 2)] struct S; => err S 2 / 12..17 Duplicate field `x` / - Missing field `x`
#[darling(multiple)] n: Vec<u8> | #[my(n = 3, n = "4")] struct S; => ok S Opts {n: [3, 4]}
#[darling(multiple)] n: Vec<u8> | struct S; => ok S Opts {n: []}"#;

// Defaults, and functions of the host.
const FUNCTIONS: &str =
    r#"#[darling(default = "text::star", map = "text::trim")] s: String | #[my(s = " a ")] struct S; => ok S Opts {s: "a"}
#[darling(default = "text::star", map = "text::trim")] s: String | #[my] struct S; => ok S Opts {s: "*"}
#[darling(default, and_then = "text::nonempty")] s: String | #[my] struct S; => ok S Opts {s: ""}
#[darling(default, and_then = "text::nonempty")] s: String | #[my(s = "")] struct S; => err S 1 / 5..11 must not be empty at s
#[darling(with = other)] s: String | #[my()] struct S; => refused: unknown callable at 85..90
#[darling(default = "text::star", map = "text::trim")] s: String | struct S; => ok S Opts {s: "*"}
#[darling(default, and_then = "text::nonempty")] s: String | struct S; => ok S Opts {s: ""}
#[darling(and_then = "text::nonempty")] s: String | #[my(s = "")] struct S; => err S 1 / 5..11 must not be empty at s
#[darling(with = meta::path_text)] s: String | #[my(s = 1)] struct S; => ok S Opts {s: "s"}
#[darling(skip, multiple)] c: Vec<String> | struct S; => ok S Opts {c: []}
#[darling(skip, default)] n: u8, o: Option<u8>, f: Flag | struct S; => ok S Opts {n: 0, o: none, f: none}"#;

// Types of the table.
const TYPES: &str =
    r#"n: u8 | #[my(n = 300, n = 4)] struct S; => err S 2 / 9..12 number too large to fit in target type at n / 14..19 Duplicate field `n`
n: i8, y: Flag, s: i16 | #[my(n = -128, y, s = "-25")] struct S; => ok S Opts {n: -128, y: some(15..16), s: -25}
n: i8, y: Flag, s: i16 | #[my(n = -129, s = 1)] struct S; => err S 1 / 9..13 number too small to fit in target type at n
flag: Flag | #[my(flag())] struct S; => err S 1 / 5..11 Unexpected meta-item format `list` at flag
n: u128 | #[my(n = 340282366920938463463374607431768211455)] struct S; => ok S Opts {n: 340282366920938463463374607431768211455}
n: u128 | #[my(n = 340282366920938463463374607431768211456)] struct S; => refused: syntax in part 2 at 9
x: String, y: u8 | #[my(x = a b, y = 1)] struct S; => err S 1 / 9..10 expected an expression at x
v: Visibility | #[my(v = pub(crate))] struct S; => ok S Opts {v: `pub (crate)`}
v: Option<Visibility> | #[my(v = pub(crate))] struct S; => err S 1 / 9..12 expected an expression at v
v: Option<Visibility> | #[my(v = "pub(crate)")] struct S; => ok S Opts {v: some(`pub (crate)`)}
m: BTreeMap<String, bool> | #[my(m(hello, hello = 3, hello = false))] struct S;
   => err S 3 / 14..19 Duplicate field `hello` at m / 22..23 Unexpected type `int` at m/hello / 25..30 Duplicate
   field `hello` at m
t: Tag, #[darling(multiple)] u: Vec<Tag> | #[my(t = "a", u = "b", u(c))] struct S; => err S 1 / 23..27 Unexpected meta-item format `list` at u[1]
t: Tag | #[my(t = "a")] struct S; => ok S Opts {t: host(Tag, "a")}
m: BTreeMap<String, bool> | #[my(m(b, a = false))] struct S; => ok S Opts {m: {"a": false, "b": true}}
m: HashMap<Ident, Option<u8>> | #[my(m(z = 1, a = 2))] struct S; => ok S Opts {m: {"a": some(2), "z": some(1)}}
n: i8 | #[my(n = -129)] struct S; => err S 1 / 9..13 number too small to fit in target type at n
a: Ident, b: Path, c: char, d: (), e: Vec<LitInt> | #[my(a = "x", b = a::b, c = 'y', d, e(1, 2))] struct S;
   => ok S Opts {a: `x`, b: `a :: b`, c: 'y', d: (), e: [`1`, `2`]}
o: Override<u8>, p: Override<u8>, r: Result<u8>, s: SpannedValue<bool> | #[my(o, p = 1, r = "x", s)] struct S;
   => ok S Opts {o: Override::Inherit, p: Override::Explicit(1), r: Result::Err(faults[19..22 Unknown value: `x`]),
   s: SpannedValue {value: true, span: 24..25}}"#;

// The texts of values, each by its variant.
const VALUES: &str = r#"n: u8 | #[my(n = 0)] struct S; => ok S Opts {n: 0}
n: u8 | #[my(n = 5)] struct S; => ok S Opts {n: 5}
n: i8 | #[my(n = -5)] struct S; => ok S Opts {n: -5}
c: char | #[my(c = 'c')] struct S; => ok S Opts {c: 'c'}
c: char | #[my(c = '\u{e9}')] struct S; => ok S Opts {c: 'é'}
c: char | #[my(c = '\'')] struct S; => ok S Opts {c: '\''}
c: char | #[my(c = '"')] struct S; => ok S Opts {c: '"'}
c: char | #[my(c = '`')] struct S; => ok S Opts {c: '`'}
c: char | #[my(c = '\\')] struct S; => ok S Opts {c: '\\'}
c: char | #[my(c = '\n')] struct S; => ok S Opts {c: '\n'}
c: char | #[my(c = '\r')] struct S; => ok S Opts {c: '\r'}
c: char | #[my(c = '\t')] struct S; => ok S Opts {c: '\t'}
c: char | #[my(c = '\0')] struct S; => ok S Opts {c: '\0'}
s: String | #[my(s = "")] struct S; => ok S Opts {s: ""}
s: String | #[my(s = "text")] struct S; => ok S Opts {s: "text"}
s: String | #[my(s = "'\u{e9}'`\"`")] struct S; => ok S Opts {s: "'é'`\"`"}
s: String | #[my(s = "\\\n\r\t\0")] struct S; => ok S Opts {s: "\\\n\r\t\0"}
#[darling(default)] s: SpannedValue<u8> | struct S; => ok S Opts {s: SpannedValue {value: 0, span: call}}
f: Flag | #[my(f)] struct S; => ok S Opts {f: some(5..6)}
u: (), b: bool, c: bool | #[my(u, b, c = false)] struct S; => ok S Opts {u: (), b: true, c: false}
v: Visibility, e: Expr | #[my(v = "", e = a::b('`'))] struct S; => ok S Opts {v: ``, e: `a :: b ('\`')`}
e: Expr | #[my(e = a("\\' / "))] struct S; => ok S Opts {e: `a ("\\\\'\n")`}
t: Tag | #[my(t = "")] struct S; => ok S Opts {t: host(Tag, "")}
t: Tag | #[my(t = "a\"\n'")] struct S; => ok S Opts {t: host(Tag, "a\"\n'")}
v: Vec<u8> | #[my(v = [])] struct S; => ok S Opts {v: []}
o: Option<Option<char>> | #[my(o = 'c')] struct S; => ok S Opts {o: some(some('c'))}
m: BTreeMap<String, ()> | #[my(m())] struct S; => ok S Opts {m: {}}
m: BTreeMap<String, ()> | #[my(m(a))] struct S; => ok S Opts {m: {"a": ()}}
r: Result<Option<u8>> | #[my(r = "\n")] struct S; => ok S Opts {r: Result::Err(faults[9..13 Unknown value: `\n`])}"#;

#[test]
fn receivers(rt: HostRuntime) -> Tested<()> {
    rows(rt.alloc(), &[ITEMS, MANY, FUNCTIONS, TYPES, VALUES])
}
