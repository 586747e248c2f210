//! Declarations that are refused, or not. A row: LINES => LINES, as in `inputs`.

use crate::ends::rows;
use tests_checks::Tested;

// One reason a row.
const ONE: &str = r#"#[derive(FromDeriveInput)] struct A { n: u8 } / %% => nothing
#[derive(FromMeta)] struct A { n: u8 } #[derive(FromDeriveInput)] struct B { a: A } / %% => nothing
#[derive(FromDeriveInput)] #[darling(attributes(my))] struct A { #[darling(default, default)] n: u8 } / %%
   => refused: options of A under FromDeriveInput: 84..91 Duplicate field `default`
#[derive(FromMeta)] struct A { b: B } #[derive(FromDeriveInput)] struct B {} / %% => refused: unknown type at 34..35
#[derive(FromDeriveInput)] #[darling(attributes(my))] struct Opts { #[darling(with = other)] s: String } / %% => refused: unknown callable at 85..90
#[derive(FromDeriveInput)] struct A { n: u8, n: u8 } / %% => refused: duplicate name at 45..46
#[derive(FromDeriveInput)] struct A { n: u8, r#n: u8 } / %% => refused: duplicate name at 45..48
#[derive(FromMeta)] struct A {} #[derive(FromDeriveInput)] struct A {} / %% => refused: duplicate name at 66..67
#[derive(FromDeriveInput, FromDeriveInput)] struct A {} / %% => refused: duplicate name at 26..41
#[derive(FromMeta)] #[derive(FromDeriveInput, darling::FromMeta)] struct A {} / %% => refused: duplicate name at 46..63
#[derive(FromDeriveInput)] struct A<T> { n: u8 } / %% => refused: unsupported generics at 34..35
#[derive(FromDeriveInput)] struct A { __errors: u8 } / %% => refused: unsupported generated name at 38..46
#[derive(FromDeriveInput)] #[darling(map = "_darling::f")] struct A {} / %% => refused: unsupported generated name at 43..56
#[derive(FromDeriveInput)] struct A { n: f32 } / %% => refused: unknown type at 41..44
#[derive(FromDeriveInput)] struct A { n: Vec<bool> } / %% => refused: unknown type at 41..50
#[derive(FromDeriveInput)] struct A { #[darling(skip)] n: Ident } / %% => refused: unknown type at 58..63
#[derive(FromDeriveInput)] struct A { #[darling(map = "other")] n: u8 } / %% => nothing
#[derive(FromDeriveInput)] #[darling(attributes(my))] struct A { #[darling(map = "other")] n: u8 } / %% => refused: unknown callable at 81..88
#[derive(FromDeriveInput)] #[darling(and_then = "other")] struct A { n: u8 } / %% => refused: unknown callable at 48..55
#[derive(FromMeta)] struct A { n: u8 } / %% => refused: no receiver
#[derive(FromDeriveInput)] struct A {} #[derive(FromMeta)] struct B {} / %% => refused: no receiver
struct A {} / %% => refused: no receiver
#[derive(FromMeta)] struct A { b: u8 } / %% / struct S; => refused: no receiver
#[derive(FromDeriveInput)] struct A { b: u8, b: u8 } / %% / struct S; => refused: duplicate name at 45..46
#[derive(FromDeriveInput)] struct A<T> { b: u8 } / %% / struct S; => refused: unsupported generics at 34..35
#[derive(FromDeriveInput)] struct A { __err: u8 } / %% / struct S; => refused: unsupported generated name at 38..43
#[derive(FromDeriveInput)] struct A { #[darling(skip, with = _darling::f)] n: u8 } / %% / struct S; => refused: unsupported generated name at 61..69
#[derive(FromDeriveInput)] struct A { #[darling(map = _darling::x)] n: u8 } / %% / struct S; => refused: unsupported generated name at 54..62
#[derive(FromDeriveInput)] struct A { __err: u8, #[darling(skip, with = _darling::f)] n: u8 } / %% / struct S; => refused: unsupported generated name at 38..43
struct A { #[darling(with = _darling::f)] n: u8 } #[derive(FromDeriveInput)] struct B {} / %% => nothing
#[derive(FromDeriveInput)] struct A { #[darling(with = ::_darling::f)] n: u8 } / %% => nothing
#[derive(FromDeriveInput)] struct A(u8); / %% / struct S; => refused: unbuilt at 34..35
#[derive(FromMeta)] enum E { A } / %% => refused: no receiver
#[derive(FromMeta)] enum E { #[darling(word, word)] A, B(u8, u8) } / %% => refused: options of E under FromMeta: 45..49 Duplicate field `word`
#[derive(FromMeta)] struct A; / %% => refused: no receiver
#[derive(FromMeta)] struct A(u8, u8); / %% => refused: unsupported tuple at 27..28
#[derive(FromMeta)] #[darling(transparent)] struct A { n: u8 } / %% => refused: no receiver
#[derive(FromMeta)] union U { a: u8 } / %% => refused: options of U under FromMeta: - Unions are not supported
#[derive(FromMeta)] #[darling(derive_syn_parse)] struct A { n: u8 } / %% => refused: no receiver
#[derive(FromDeriveInput)] struct A { generics: Generics } / %% => refused: unbuilt at 38..46
#[derive(FromDeriveInput)] struct A {} / %% / struct S => refused: syntax in part 2 at 0
struct A { b: B / %% / struct S => refused: syntax in part 1 at 16
#[derive(FromDeriveInput)] #[darling(attributes(my))] struct A { #[darling(default, default)] n: u8 } / %% / struct
   S; => refused: options of A under FromDeriveInput: 84..91 Duplicate field `default`
#[derive(FromMeta)] struct A { b: B } #[derive(FromDeriveInput)] struct B {} / %% / struct S; => refused: unknown type at 34..35"#;

// Enums and other forms under `FromMeta`, and what no run reads yet.
const FORMS: &str = r#"#[derive(FromMeta)] struct A(); / %% => refused: unsupported tuple at 27..28
#[derive(FromMeta)] enum E { A, B(u8, u8) } / %% => refused: unsupported tuple at 32..33
#[derive(FromMeta)] enum E { A, B() } / %% => refused: unsupported tuple at 32..33
#[derive(FromMeta)] enum E { A, #[darling(skip)] B(u8, u8) } / %% => refused: no receiver
#[derive(FromMeta)] #[darling(map = f)] enum E { A } / %% => refused: unsupported transform at 45..46
#[derive(FromMeta)] #[darling(and_then = f)] struct A; / %% => refused: unsupported transform at 52..53
#[derive(FromMeta)] #[darling(map = f)] struct A(u8); / %% => refused: unsupported transform at 47..48
#[derive(FromMeta)] #[darling(from_none = f)] struct A; / %% => refused: unsupported from_none at 53..54
#[derive(FromMeta)] #[darling(transparent, from_none = f)] struct A { a: u8 } / %% => refused: unsupported from_none
   at 66..67
#[derive(FromMeta)] #[darling(from_expr = f)] struct A; / %% => refused: unsupported from_expr at 53..54
#[derive(FromMeta)] #[darling(default)] enum E { A, B { #[darling(default)] a: u8, b: u8 } } / %% => refused:
   unsupported inherited default at 83..84
#[derive(FromMeta)] enum E<T> { A } / %% => refused: unsupported generics at 25..26
#[derive(FromMeta)] enum E { A, B, A } / %% => refused: duplicate name at 35..36
#[derive(FromMeta)] enum E { A { a: u8, a: u8 } } / %% => refused: duplicate name at 40..41
#[derive(FromMeta)] enum E { A { a: u8, b: Bad } } / %% => refused: unknown type at 43..46
#[derive(FromMeta)] enum E { A(F) } #[derive(FromMeta)] enum F { A } / %% => refused: unknown type at 31..32
#[derive(FromMeta)] enum E { A, B { e: E } } / %% => refused: unknown type at 39..40
#[derive(FromMeta)] #[darling(from_none = f)] enum E { A } / %% => refused: unknown callable at 42..43
#[derive(FromMeta)] #[darling(from_word = f)] enum E { A } / %% => refused: unknown callable at 42..43
#[derive(FromMeta)] #[darling(from_expr = f)] enum E { A(u8) } / %% => refused: unknown callable at 42..43
#[derive(FromMeta)] enum E { A { #[darling(with = f)] a: u8 } } / %% => refused: unknown callable at 50..51
#[derive(FromDeriveInput)] enum A { B } / %% => refused: unbuilt at 32..33
#[derive(FromDeriveInput)] struct A; / %% => refused: unbuilt at 34..35
#[derive(FromDeriveInput)] union A { b: u8 } / %% => refused: unbuilt at 33..34
#[derive(FromDeriveInput)] #[darling(transparent)] struct A { b: u8 } / %% => refused: unbuilt at 37..48
#[derive(FromDeriveInput)] #[darling(supports(any))] struct A {} / %% => refused: unbuilt at 37..50
#[derive(FromDeriveInput)] #[darling(from_ident)] struct A {} / %% => refused: unbuilt at 37..47
#[derive(FromMeta)] enum E { A } #[derive(FromField)] struct A { e: E } / %% => refused: unbuilt at 42..51
#[derive(FromMeta, FromVariant)] enum E { A } / %% => refused: unbuilt at 19..30"#;

// Two reasons a row: the earlier of the list is told, wherever it stands, and of two of one kind the first in the text.
const TWO: &str =
    r#"#[derive(FromMeta)] struct A { #[darling(aa)] n: u8 } #[derive(FromMeta)] struct A { m: u8 } / %% => refused: duplicate name at 81..82
#[derive(FromMeta)] struct A { n: u8, n: u8 } #[derive(FromMeta)] struct B { #[darling(aa)] m: u8 } / %% => refused: duplicate name at 38..39
#[derive(FromMeta)] struct A<T> { n: u8 } #[derive(FromMeta)] struct B { #[darling(aa)] m: u8 } / %%
   => refused: options of B under FromMeta: 83..85 Unknown field: `aa`
#[derive(FromMeta)] struct B { #[darling(aa)] m: u8 } #[derive(FromMeta)] struct A<T> { n: u8 } / %%
   => refused: options of B under FromMeta: 41..43 Unknown field: `aa`
#[derive(FromMeta)] struct A { n: f32 } #[derive(FromMeta)] struct B<T> { m: u8 } / %% => refused: unsupported generics at 67..68
#[derive(FromMeta)] struct B<T> { m: u8 } #[derive(FromMeta)] struct A { n: f32 } / %% => refused: unsupported generics at 27..28
#[derive(FromMeta)] struct A { #[darling(with = _darling::f)] n: u8 } #[derive(FromMeta)] struct B { #[darling(aa)]
   m: u8 } / %% => refused: options of B under FromMeta: 111..113 Unknown field: `aa`
#[derive(FromMeta)] struct A { n: f32, #[darling(skip, default = _darling::f)] m: u8 } / %% => refused: unsupported generated name at 65..73
#[derive(FromMeta)] struct A { #[darling(default, map = "_darling::f")] n: u8, __err: u8 } #[derive(FromMeta)] struct
   B<T> { m: u8 } / %% => refused: unsupported generated name at 56..69
#[derive(FromMeta)] struct A { __err: u8, #[darling(with = _darling::f)] n: u8 } / %% => refused: unsupported generated name at 31..36
#[derive(FromMeta, FromDeriveInput)] #[darling(and_then = _darling::f)] struct A<T> { #[darling(with = other)] n: u8
   } / %% => refused: unsupported generated name at 58..66
#[derive(FromMeta)] struct A { #[darling(with = other)] n: u8 } #[derive(FromMeta)] struct B { m: f32 } / %% => refused: unknown type at 98..101
#[derive(FromMeta)] struct B { m: f32 } #[derive(FromMeta)] struct A { #[darling(with = other)] n: u8 } / %% => refused: unknown type at 34..37
#[derive(FromMeta)] struct A { #[darling(with = other)] n: u8 } / %% => refused: unknown callable at 48..53
#[derive(FromMeta, FromMeta)] struct A { n: u8, n: u8 } / %% => refused: duplicate name at 19..27
#[derive(FromMeta)] struct A { n: u8, n: u8 } #[derive(FromMeta, FromMeta)] struct B {} / %% => refused: duplicate name at 38..39
#[derive(FromMeta)] struct A { n: f32 } #[derive(FromMeta)] struct B { m: f64 } / %% => refused: unknown type at 34..37
#[derive(FromMeta)] struct A { #[darling(multiple)] n: u8, m: f64 } / %% => refused: unknown type at 55..57
#[derive(FromMeta)] struct A { #[darling(with = one)] n: u8, #[darling(with = two)] m: u8 } / %% => refused: unknown callable at 48..51
#[derive(FromMeta)] #[darling(default = two)] struct A { #[darling(with = one)] n: u8 } / %% => refused: unknown callable at 40..43"#;

// Options with faults: of the first declaration that has some, under its first derive.
const OPTIONS: &str =
    r#"#[derive(FromMeta)] struct A { #[darling(default, default)] n: u8 } / %% => refused: options of A under FromMeta: 50..57 Duplicate field `default`
#[derive(FromMeta)] #[darling(attributes(my))] struct A { #[darling(default, default)] n: u8 } / %%
   => refused: options of A under FromMeta: 30..44 Unknown field: `attributes`
#[derive(FromMeta, FromDeriveInput)] #[darling(attributes(my))] struct A { n: u8 } / %%
   => refused: options of A under FromMeta: 47..61 Unknown field: `attributes`
#[derive(FromDeriveInput, FromMeta)] #[darling(attributes(my))] struct A { n: u8 } / %%
   => refused: options of A under FromMeta: 47..61 Unknown field: `attributes`
#[derive(FromMeta, FromDeriveInput)] struct A { #[darling(skip, skip)] n: u8, #[darling(rename = 1)] m: u8 } / %%
   => refused: options of A under FromMeta: 64..68 Duplicate field `skip`; 97..98 Unexpected type `int`
#[derive(FromDeriveInput, FromMeta)] struct A { #[darling(skip, skip)] n: u8 } / %%
   => refused: options of A under FromDeriveInput: 64..68 Duplicate field `skip`
#[derive(FromMeta)] struct A { n: u8 } #[derive(FromMeta)] struct B { #[darling(aa)] n: u8 } #[derive(FromMeta)]
   struct C { #[darling(bb)] n: u8 } / %% => refused: options of B under FromMeta: 80..82 Unknown field: `aa`
#[derive(FromMeta)] struct C { #[darling(bb)] n: u8 } #[derive(FromMeta)] struct B { #[darling(aa)] n: u8 } / %%
   => refused: options of C under FromMeta: 41..43 Unknown field: `bb`
#[darling(nonsense)] struct A { #[darling(default, default)] n: u8 } #[derive(FromMeta)] struct r#B { #[darling(aa)]
   n: u8 } / %% => refused: options of r#B under FromMeta: 112..114 Unknown field: `aa`
#[derive(FromMeta)] struct B { #[darling(flatten, skip)] n: u8 } / %%
   => refused: options of B under FromMeta: 50..54 `flatten` and `skip` cannot be used together
#[derive(FromMeta)] #[darling(rename_all = "Pescal", default, default)] struct A { #[darling(aa)] n: u8 } / %%
   => refused: options of A under FromMeta: 43..51 Unknown value: `Pescal`; 62..69 Duplicate field `default`"#;

#[test]
fn declarations(rt: HostRuntime) -> Tested<()> {
    rows(rt.alloc(), &[ONE, FORMS, TWO, OPTIONS])
}
