//! What stands against programs, with the marks of `fits`.

use crate::ask::rows;
use tests_checks::Tested;

// Names that stand twice are refused where they do so first.
const NAMES: &str =
    "#[derive(FromDeriveInput)] #[darling(attributes(my))] struct A { a: u8, b: u8 } => fits
struct A; struct B; #[derive(FromDeriveInput)] #[darling(attributes(my))] struct @A { a: u8 } => duplicate name
struct A; struct @r#A; #[derive(FromDeriveInput)] #[darling(attributes(my))] struct A { a: u8 } => duplicate name
#[derive(FromDeriveInput)] #[darling(attributes(my))] struct A { a: u8, @a: u8, a: u8 } => duplicate name
#[derive(FromDeriveInput)] #[darling(attributes(my))] struct A { a: u8, @r#a: u8 } => duplicate name
enum E { X, Y { a: u8, @a: u8 }, X } struct E; => duplicate name
enum E { X, @X { a: u8, a: u8 } } struct E; => duplicate name
union U { a: u8, @a: u8 } struct U; => duplicate name
enum E { X { a: u8 }, a { a: u8 } } #[derive(FromDeriveInput)] #[darling(attributes(my))] struct X { X: u8 } => fits
#[derive(FromMeta, FromMeta)] struct @A { a: u8, a: u8 } struct A; => duplicate name
#[derive(FromMeta, FromDeriveInput, FromMeta)] struct @A { a: u8 } => duplicate name
#[derive(FromMeta, FromDeriveInput)] struct A { a: u8 } => fits
struct A { a: Bad, __err: u8, @a: u8 } => duplicate name
struct A(u8, u8); #[derive(FromDeriveInput)] #[darling(attributes(my))] struct B { a: u8 } => fits";

// Generics and names of generated code are refused where they stand first.
const FORMS: &str =
    "#[derive(FromDeriveInput)] #[darling(attributes(my))] struct @A<T> { a: u8 } => generics
#[derive(FromDeriveInput)] #[darling(attributes(my))] struct @A where u8: Copy { a: u8 } => generics
#[derive(FromDeriveInput)] #[darling(attributes(my))] struct A<> { a: u8 } => fits
struct A { a: Bad } struct @B<'a>; struct C { __err: u8 } => generics
struct A { a: Bad, @__err: u8 } struct B<'a>; => generated name
enum E { __err, X { a: u8, @_darling: u8 } } => generated name
union U { a: u8, @__items: u8 } => generated name
#[derive(FromDeriveInput)] #[darling(attributes(my))] struct __err { __errs: u8, errors: u8 } => fits
#[derive(FromDeriveInput)] #[darling(attributes(my))] struct A { #[darling(with = bad, map = @_darling::f)] a: Bad,
   #[darling(with = _darling::f)] b: u8 } => generated name
#[derive(FromDeriveInput)] #[darling(attributes(my))] #[darling(default = @_darling::f)] struct A { a: u8 } => generated name
#[derive(FromDeriveInput)] #[darling(attributes(my))] struct A { #[darling(default = @_darling::f)] a: u8 } => generated name
#[derive(FromDeriveInput)] #[darling(attributes(my))] #[darling(map = @_darling)] struct A { a: u8 } => generated name
#[derive(FromDeriveInput)] #[darling(attributes(my))] struct A { #[darling(with = @::_darling::f)] a: u8 } => unknown callable";

// Types that don't fit their places are refused where they stand first.
const TYPES: &str =
    "#[derive(FromDeriveInput)] #[darling(attributes(my))] struct A { a: Option<Box<u8>>, b: std::collections::BTreeMap<String, Tag> } => fits
#[derive(FromDeriveInput)] #[darling(attributes(my))] struct A { a: u8, b: @Option<Bad>, c: Bad } => unknown type
struct A { a: @Bad } => unknown type
struct A(u8, @Bad); => unknown type
enum E { X, Y(u8), Z { a: u8, b: @Bad } } => unknown type
union U { a: u8, b: @Bad } => unknown type
#[derive(FromMeta)] struct A { a: u8 } #[derive(FromDeriveInput)] #[darling(attributes(my))] struct B { a: Option<A>, b: Vec<u8> } => fits
#[derive(FromMeta)] struct A { a: @B } #[derive(FromMeta)] struct B { a: u8 } => unknown type
#[derive(FromDeriveInput)] #[darling(attributes(my))] struct A { a: @A } => unknown type
struct A { a: u8 } #[derive(FromDeriveInput)] #[darling(attributes(my))] struct B { a: @A } => unknown type
#[derive(FromDeriveInput)] #[darling(attributes(my))] struct A { a: u8 } #[derive(FromDeriveInput)]
   #[darling(attributes(my))] struct B { #[darling(flatten)] a: @A } => unknown type
struct A { a: u8 } #[derive(FromDeriveInput)] #[darling(attributes(my))] struct B { #[darling(with =
   meta::path_text)] a: String, #[darling(skip, default)] b: Option<A> } => fits
struct A { a: u8 } #[derive(FromDeriveInput)] struct B { a: A } => fits
struct A { a: u8 } #[derive(FromDeriveInput)] struct B { #[darling(flatten)] a: @A } => unknown type
struct A { a: u8 } #[derive(FromDeriveInput, FromMeta)] struct B { a: @A } => unknown type
struct A { a: u8 } struct B { a: A } #[derive(FromDeriveInput)] #[darling(attributes(my))] struct C { a: u8 } => fits
struct A { a: @B } struct B { a: u8 } #[derive(FromDeriveInput)] #[darling(attributes(my))] struct C { a: u8 } => unknown type
#[derive(FromMeta)] struct A { a: u8 } #[derive(FromDeriveInput)] #[darling(attributes(my))] struct B {
   #[darling(multiple)] a: Vec<A>, #[darling(multiple)] b: Vec<u8> } => fits
#[derive(FromMeta)] struct A { a: u8 } #[derive(FromDeriveInput)] #[darling(attributes(my))] struct B { a: @Vec<A> } => unknown type
#[derive(FromMeta)] struct A { a: u8 } #[derive(FromDeriveInput)] #[darling(attributes(my))] struct B { a: @Option<Vec<A>> } => unknown type
#[derive(FromDeriveInput)] #[darling(attributes(my))] struct B { #[darling(multiple)] a: @u8 } => unknown type
#[derive(FromDeriveInput)] #[darling(attributes(my))] struct B { #[darling(multiple)] a: @Vec<Bad> } => unknown type
struct A { a: u8 } #[derive(FromDeriveInput)] #[darling(attributes(my))] struct B { #[darling(multiple)] a: @Vec<A> } => unknown type
#[derive(FromDeriveInput)] #[darling(attributes(my))] struct A { #[darling(default)] a: u8, #[darling(default)] b: Option<Tag>, c: Tag } => fits
#[derive(FromDeriveInput)] #[darling(attributes(my))] struct A { a: Tag, #[darling(default)] b: @Tag } => unknown type
#[derive(FromDeriveInput)] #[darling(attributes(my))] struct A { #[darling(default)] b: @Box<syn::Ident> } => unknown type
#[derive(FromMeta)] struct A { a: u8 } #[derive(FromDeriveInput)] #[darling(attributes(my))] #[darling(default)] struct B { #[darling(default)] a: A } => fits
#[derive(FromDeriveInput)] #[darling(attributes(my))] #[darling(default)] struct @A { a: Bad, b: Tag } => unknown type
#[derive(FromMeta)] #[darling(default)] struct A { a: u8 } struct B { a: @Bad, #[darling(with = bad)] b: u8 } => unknown type";

// Functions that the host doesn't offer are refused where they stand first.
const CALLABLES: &str =
    "#[derive(FromDeriveInput)] #[darling(attributes(my))] struct A { #[darling(map = text::trim)] a: String, #[darling(default = num::one)] b: u8 } => fits
#[derive(FromDeriveInput)] #[darling(attributes(my))] struct A { #[darling(with = meta::path_text, and_then = text::nonempty)] a: String } => fits
#[derive(FromDeriveInput)] #[darling(attributes(my))] struct A { #[darling(multiple, map = text::trim)] a: Vec<String> } => fits
#[derive(FromDeriveInput)] #[darling(attributes(my))] struct A { a: u8, #[darling(with = @bad)] b: u8, #[darling(with = bad)] c: u8 } => unknown callable
#[derive(FromDeriveInput)] #[darling(attributes(my))] struct A { #[darling(with = @meta::path_text)] b: u8 } => unknown callable
#[derive(FromDeriveInput)] #[darling(attributes(my))] struct A { #[darling(map = @bad)] a: String } => unknown callable
#[derive(FromDeriveInput)] #[darling(attributes(my))] struct A { #[darling(and_then = @text::trim)] a: String } => unknown callable
#[derive(FromDeriveInput)] #[darling(attributes(my))] struct A { #[darling(map = @text::trim)] a: u8 } => unknown callable
#[derive(FromDeriveInput)] #[darling(attributes(my))] struct A { #[darling(with = @bad, map = bad)] a: String } => unknown callable
#[derive(FromDeriveInput)] #[darling(attributes(my))] struct A { a: u8, #[darling(default = @num::one)] b: String } => unknown callable
#[derive(FromDeriveInput)] #[darling(attributes(my))] struct A { a: u8, #[darling(skip, default = @bad)] b: String } => unknown callable
#[derive(FromDeriveInput)] #[darling(attributes(my))] #[darling(default = @bad)] struct A { a: u8 } => unknown callable
#[derive(FromDeriveInput)] #[darling(attributes(my))] #[darling(map = @text::trim)] struct A { a: String } => unknown callable
#[derive(FromMeta)] struct A { #[darling(with = @bad)] a: u8 } #[derive(FromMeta)] struct B { #[darling(with = bad)] a: u8 } => unknown callable
#[derive(FromMeta)] struct A { #[darling(with = @|item| item)] a: u8 } => unknown callable";

// The last declaration reads items.
const RECEIVERS: &str = " => no receiver
struct A { a: u8 } => no receiver
#[derive(FromMeta)] struct A { a: u8 } => no receiver
#[derive(FromDeriveInput)] #[darling(attributes(my))] struct A { a: u8 } struct B; => no receiver
struct A; #[derive(FromMeta, FromDeriveInput)] struct B { a: u8 } => fits";

// Of two things that stand against a program the first in the order of answers is named, wherever they stand.
const ORDER: &str = "struct A<T> { a: u8, @a: u8 } => duplicate name
struct A<T>; struct @A; => duplicate name
struct A { a: Bad } struct @B<T>; => generics
struct @B<T>; struct A { a: Bad } => generics
#[derive(FromMeta)] struct A { #[darling(with = bad)] a: u8 } struct B { a: @Bad } => unknown type
struct B { a: @Bad } #[derive(FromMeta)] struct A { #[darling(with = bad)] a: u8 } => unknown type
#[derive(FromMeta)] struct A { #[darling(with = @bad)] a: u8 } => unknown callable
struct A { a: @Bad } => unknown type";

// What the host that refuses offers is not refused beforehand.
const REFUSING: &str =
    "#[derive(FromDeriveInput)] #[darling(attributes(my))] struct A { #[darling(with = a, map = b)] a: String } => fits
#[derive(FromDeriveInput)] #[darling(attributes(my))] struct A { #[darling(default = @a)] a: String } => unknown callable
#[derive(FromDeriveInput)] #[darling(attributes(my))] struct A { a: @Tag } => unknown type
#[derive(FromMeta)] struct A { a: u8 } #[derive(FromDeriveInput)] #[darling(attributes(my))] struct B { #[darling(default)] a: @A } => unknown type
#[derive(FromDeriveInput)] #[darling(attributes(my))] #[darling(default)] struct @A { a: u8 } => unknown type
#[derive(FromDeriveInput)] #[darling(attributes(my), and_then = c)] struct A { a: String } => fits";

// The first place of a text stands before others that print before it: a path of an attribute prints behind all fields, what
// is called on the whole behind what is called on its parts, a reader before the transform; and a row before the next one.
const IN_TEXT: &str =
    "#[derive(FromDeriveInput)] #[darling(attributes(my))] struct A { a: u8 } => fits
struct A { a: u8 } => no receiver
struct A { a: u8, $@a: u8 } #[derive(FromMeta, FromMeta)] struct A { a: u8 } => duplicate name
#[derive(FromDeriveInput)] #[darling(attributes(my))] struct A { #[darling(with = $_darling::f)] a: u8, @__err: u8 } => generated name
#[derive(FromDeriveInput)] #[darling(attributes(my))] struct A { $@__err: u8, #[darling(with = _darling::f)] b: u8 } => generated name
#[derive(FromDeriveInput)] #[darling(attributes(my))] #[darling(map = $_darling::f)] struct A { @__err: u8 } => generated name
#[derive(FromDeriveInput)] #[darling(attributes(my))] #[darling(map = $bad)] struct A { #[darling(with = @bad)] a: u8 } => unknown callable
#[derive(FromDeriveInput)] #[darling(attributes(my))] struct A { #[darling(map = $bad, with = @bad)] a: u8 } => unknown callable
#[derive(FromDeriveInput)] #[darling(attributes(my))] struct A { #[darling(with = bad)] a: Bad, $@__err: u8 } => generated name
struct A { a: $@Bad, b: Bad } => unknown type";

// What a transform takes is refused at its path, which prints behind the types of fields; the default of the whole at the
// declaration.
const REFUSING_IN_TEXT: &str =
    "struct String { a: u8 } #[derive(FromDeriveInput)] #[darling(attributes(my))] struct B { #[darling(map = $f)] a: u8, b: @Bad } => unknown type
struct String { a: u8 } #[derive(FromDeriveInput)] #[darling(attributes(my))] struct B { a: $@Bad, #[darling(map = f)] b: u8 } => unknown type
struct String { a: u8 } #[derive(FromDeriveInput)] #[darling(attributes(my))] #[darling(default, map = f)] struct $@B
   { #[darling(map = f)] a: u8 } => unknown type";

// The option `from_ident` asks the function of this name of the host; a field `with` is read by `function`.
const BY_HAND: &str = "struct @A { with: u8 } => unknown callable";

const REFUSING_BY_HAND: &str = "struct A { a: String } => fits
struct A { with: u8 } => fits";

// All that stands twice, in a program and in its declarations alone: what is derived twice stands in the program.
const TWICE: &str =
    "struct A; #[derive(FromMeta, FromMeta)] struct B { a: u8, a: u8, a: u8 } struct A; struct B;
   => 47..48, 58..59, 65..66, 80..81, 90..91; 58..59, 65..66, 80..81, 90..91";

// The fields of variants, of which those that are read to slots have these on from one variant to the next.
const VARIANTS: &str =
    "#[derive(FromMeta)] enum E { A, B(u8), C { a: u8, b: Option<u8> } } #[derive(FromDeriveInput)]
   #[darling(attributes(my))] struct R { e: E, f: Option<E> } => fits
#[derive(FromMeta)] enum E { A, B(u8), C { a: u8, b: @Bad } } => unknown type
#[derive(FromMeta)] enum E { A, B(@Bad) } => unknown type
#[derive(FromMeta)] enum E { A, B { e: @E } } => unknown type
struct S { a: u8 } #[derive(FromMeta)] enum E { A(@S) } => unknown type
struct S { a: u8 } #[derive(FromMeta)] enum E { A(#[darling(skip)] @S) } => unknown type
struct S { a: u8 } #[derive(FromMeta)] enum E { A { a: u8 }, B { b: u8, c: @S } } => unknown type
struct S { a: u8 } #[derive(FromMeta)] enum E { A { a: u8 }, B { b: u8, #[darling(flatten)] c: S } }
   #[derive(FromDeriveInput)] #[darling(attributes(my))] struct R { e: E } => fits
struct S { a: u8 } #[derive(FromMeta)] enum E { #[darling(skip)] A { a: S }, #[darling(skip)] B(S), C { a: u8,
   #[darling(with = meta::path_text)] b: String, #[darling(skip, default)] c: Option<S> } }
   #[derive(FromDeriveInput)] #[darling(attributes(my))] struct R { e: E } => fits
struct S { a: u8 } #[derive(FromMeta)] enum E { #[darling(skip)] A { a: S, b: @Bad }, B } => unknown type
struct S { a: u8 } enum E { A { a: S }, B(S) } #[derive(FromDeriveInput)] #[darling(attributes(my))] struct R { a: u8 } => fits
#[derive(FromMeta)] enum E { A { a: u8, b: u8 }, #[darling(skip)] B { a: u8 }, C(u8), D { #[darling(multiple)] a:
   @Vec<I>, b: u8 } } #[derive(FromMeta)] enum I { A } => unknown type
#[derive(FromMeta)] enum I { A } #[derive(FromMeta)] enum E { A { a: u8, b: u8 }, #[darling(skip)] B { a: u8 },
   C(u8), D { #[darling(multiple)] a: Vec<I>, b: u8 } } #[derive(FromDeriveInput)] #[darling(attributes(my))] struct
   R { e: E } => fits
#[derive(FromMeta)] enum E { A { a: u8, b: u8 }, #[darling(skip)] B { a: u8 }, C(u8), D { a: u8, #[darling(multiple)] b: @u8 } } => unknown type
#[derive(FromMeta)] enum I { A } #[derive(FromMeta)] enum E { A { #[darling(multiple)] a: Vec<I> }, B { a: @Vec<I> } } => unknown type
#[derive(FromMeta)] enum E { A { a: Tag }, B { a: Tag, #[darling(default)] b: @Tag } } => unknown type
#[derive(FromMeta)] enum E { A { #[darling(default)] a: u8 }, B { a: Tag } } #[derive(FromDeriveInput)] #[darling(attributes(my))] struct R { e: E } => fits
#[derive(FromMeta)] enum E { A { a: String }, B(u8), C { a: u8, #[darling(map = text::trim)] b: String,
   #[darling(default = num::one)] c: u8 } } #[derive(FromDeriveInput)] #[darling(attributes(my))] struct R { e: E }
   => fits
#[derive(FromMeta)] enum E { A { a: String }, B(u8), C { a: String, #[darling(map = @text::trim)] b: u8 } } => unknown callable
#[derive(FromMeta)] enum E { A { a: String }, #[darling(skip)] B { a: u8 }, C { a: String, #[darling(with = @bad)] b: u8 } } => unknown callable
#[derive(FromMeta)] enum E { A { a: u8 }, B { a: u8, #[darling(default = @text::empty)] b: u8 } } => unknown callable
#[derive(FromMeta)] enum E { A, B { #[darling(with = @_darling::f)] a: u8 } } => generated name";

// Structs that are read as their one field is, and structs without fields.
const ALONE: &str =
    "#[derive(FromMeta)] struct W(u8); #[derive(FromMeta)] struct U; #[derive(FromDeriveInput)]
   #[darling(attributes(my))] struct R { w: W, u: Option<U> } => fits
#[derive(FromMeta)] #[darling(transparent)] struct W { a: Option<u8> } #[derive(FromDeriveInput)] #[darling(attributes(my))] struct R { w: W } => fits
#[derive(FromMeta)] struct W(@Bad); => unknown type
#[derive(FromMeta)] struct W(@W); => unknown type
struct S { a: u8 } #[derive(FromMeta)] struct W(@S); => unknown type
struct S { a: u8 } #[derive(FromMeta)] #[darling(transparent)] struct W { #[darling(with = meta::path_text)] a: @S } => unknown type
struct S { a: u8 } struct W(S); #[derive(FromDeriveInput)] #[darling(attributes(my))] struct R { a: u8 } => fits";

// Callables in the place of functions. The closure of a variant is none.
const CALLED: &str =
    "#[derive(FromMeta)] enum E { A(u8), #[darling(word)] B } #[derive(FromDeriveInput)] #[darling(attributes(my))] struct R { e: E } => fits
#[derive(FromMeta)] #[darling(from_word = || _darling::export::Ok(Self::B))] enum E { A(u8), B }
   #[derive(FromDeriveInput)] #[darling(attributes(my))] struct R { e: E } => fits
#[derive(FromMeta)] #[darling(from_word = @|| _darling::export::Ok(Self::A))] enum E { A(u8), B } => unknown callable
#[derive(FromMeta)] #[darling(from_word = @|| _darling::export::Ok(Self::B))] struct S { a: u8 } => unknown callable
#[derive(FromMeta)] #[darling(from_word = @f)] enum E { A(u8), B } => unknown callable
#[derive(FromMeta)] #[darling(from_word = @f)] struct S { #[darling(with = bad)] a: u8 } => unknown callable
#[derive(FromMeta)] #[darling(from_none = @f)] struct S { a: u8 } => unknown callable
#[derive(FromMeta)] #[darling(from_expr = @f)] enum E { A(u8) } => unknown callable
#[derive(FromMeta)] #[darling(from_none = @_darling::f)] struct S { a: u8 } => generated name";

#[test]
fn forms_fit(rt: HostRuntime) -> Tested<()> {
    let alloc = rt.alloc();
    for table in [VARIANTS, ALONE, CALLED] {
        rows(alloc, "fit", table)?;
    }
    Ok(())
}

#[test]
fn programs_fit(rt: HostRuntime) -> Tested<()> {
    let alloc = rt.alloc();
    for table in [NAMES, FORMS, TYPES, CALLABLES, RECEIVERS, ORDER, IN_TEXT] {
        rows(alloc, "fit", table)?;
    }
    rows(alloc, "first in the text", IN_TEXT)?;
    rows(alloc, "refusing fit", REFUSING)?;
    rows(alloc, "refusing fit", REFUSING_IN_TEXT)?;
    rows(alloc, "refusing first in the text", REFUSING_IN_TEXT)?;
    rows(alloc, "fit by hand", BY_HAND)?;
    rows(alloc, "refusing fit by hand", REFUSING_BY_HAND)?;
    rows(alloc, "names", TWICE)
}
