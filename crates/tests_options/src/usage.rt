//! The parameters that nodes use, a table a kind of node; shapes, and what is read of bodies.

use crate::ask::rows;
use tests_checks::Tested;

// Type parameters of types.
const TYPES: &str = "T | T => T | T
T | r#T => - | -
T | ::T => - | -
T | a::T => - | -
T | T::A => T | T
T U | A<T, B = U> => T U | T U
T U | A<T: U> => U | U
T U | A<T = u8, U = 8> => - | -
T | A<{T}> => - | -
T | [T; 8] => T | T
T | [u8; T] => - | -
T U | (T, [U]) => T U | T U
T U | fn(x: T) -> U => T U | T U
T U V | impl T + Fn(U) -> V => T U V | T U V
T U | dyn T + A<U> => T U | T U
T U | &'a T => T | T
T | *const T => T | T
T | (T) => T | T
T U | <T as A<U>>::B => U | T U
T U | <T as U>::B => U | T U
T U | A<<T as U>::B> => U | T U
T | <<T as A>::B as C>::D => - | T
T | <T>::A => - | T
T | ! => - | -
T | _ => - | -";

// Lifetimes of types.
const LIFETIMES: &str = "'a | &'a T => 'a | 'a
'a 'b | &'a mut A<'b, T> => 'a 'b | 'a 'b
'a 'b 'c | for<'a> fn(&'b T) -> &'c T => 'b 'c | 'b 'c
'a 'b | dyn for<'a> A<'b> + 'c => 'a 'b | 'a 'b
'a 'b | impl A + 'a => 'a | 'a
'a 'b | A<B = &'a T, C: 'b> => 'a 'b | 'a 'b
'a | [u8; 8] => - | -
'a 'b | <A<'a> as B<'b>>::C => 'b | 'a 'b
'a | (A, [&'a T]) => 'a | 'a";

// Bodies of items.
const BODIES: &str = "T U | enum A { B(T), C { c: U }, D } => T U | T U
T | enum A { B = T } => - | -
T | union A { a: T } => T | T
T | struct A; => - | -
T U X | struct Foo<T, U>(T, i32, A, U); => T U | T U
T U X | struct Foo<T, U = usize> { bar: T, world: U } => T U | T U
T U X | struct Foo<T, U> { bar: T, world: Vec<U> } => T U | T U
T INTO | struct Foo<'a, T> where T: Iterator { peek: T::Item } => T | T
T | struct Foo<T>(Box<dyn Fn() -> T>); => T | T
T | struct Foo<T>(Box<dyn Fn(&T) -> ()>); => T | T
T U | struct Foo<T>(<Vec<T> as a::b::Trait>::AssociatedItem); => - | T
'a 'b 'c | struct Foo<'a, 'b: 'a> { parent: &'b Bar, child: &'a Baz } => 'a 'b | 'a 'b
'a 'b | struct Foo<'a, 'b: 'a> { parent: &'b Bar, child: <Bar<'a> as MyIterator>::Item } => 'b | 'a 'b";

// Predicates.
const PREDICATES: &str = "'a 'b 'c | where 'a: 'b + 'c => 'a 'b 'c | 'a 'b 'c
'a 'b 'c | where for<'a> &'b T: A + 'c => 'a 'b 'c | 'a 'b 'c";

// Parameters of items.
const PARAMETERS: &str =
    "'a 'b 'c 'd 'e 'f | struct A<'a: 'b, T: B<'c> + 'd = &'e u8, const N: &'f u8 = 8>(T); => 'a 'b 'c 'd 'f | 'a 'b 'c 'd 'f";

// The parameters that an item declares.
const DECLARED: &str =
    "'a 'b 'c 'd 'e 'f T N | struct A<'a: 'b, T: B<'c> + 'd = &'e u8, const N: &'f u8 = 8>(T); => 'a T
'a 'b | struct Foo<'a, 'b: 'a> { parent: &'b Bar, child: <Bar<'a> as MyIterator>::Item } => 'a 'b";

// Fields one by one, together.
const FIELDS: &str = "T U 'a 'b | struct A(T, &'a <U as B>::C, X); => T 'a";

// Bodies whose variants are read as their names, and whose members as their types.
const MEMBERS: &str = "T U V | struct S { a: T, b: [U; 8] } => T U | T U
T U | struct S(T, <U as A>::B); => T | T U
T U | enum E { T, B(U) } => T | T";

// Sets of shapes, and their texts.
const SHAPES: &str = " => nothing
newtype => one unnamed field
unit named => named fields or no fields
unit newtype tuple named => named fields, unnamed fields, or no fields";

// Sets of shapes, and whether a struct has one of them.
const TAKEN: &str = "all | struct Example; => ok
tuple | struct Example(String); => ok
newtype | struct Example(String, u64); => - Unsupported shape `unnamed fields`. Expected one unnamed field.;
newtype unit | struct A(u8); => ok
newtype unit | struct A(u8, u8); => - Unsupported shape `unnamed fields`. Expected one unnamed field or no fields.;";

// Members of a struct as they print.
const PRINTED: &str =
    "struct ExampleTest { executable: String, args: Vec<String>, env: Vec<String>, index: usize, optional: Option<String>, current_dir: String, } => {executable : String , args : Vec < String > , env : Vec < String > , index : usize , optional : Option < String > , current_dir : String ,}
struct ExampleTest(u64, usize, &'a T); => (u64 , usize , & 'a T)";

// Type parameters among others.
const GENERICS: &str = "struct Example<T>; => T of 1
struct A<'a, T, const N: usize, U>; => T U of 4";

// Each item, and the faults of a reading that takes none of its parts.
const REFUSED: &str = "struct A { x: u8, r#fn: u8 } => - no at x;- no at r#fn;
struct A(u8, u8); => - no;- no;
enum A { X, Y(u8) } => - no;- no;
union A { x: u8 } => - Unions are not supported;";

#[test]
fn parameters_are_searched(rt: HostRuntime) -> Tested<()> {
    let alloc = rt.alloc();
    rows(alloc, "type", TYPES)?;
    rows(alloc, "type", LIFETIMES)?;
    rows(alloc, "body", BODIES)?;
    rows(alloc, "where clause", PREDICATES)?;
    rows(alloc, "parameters", PARAMETERS)?;
    rows(alloc, "declared", DECLARED)?;
    rows(alloc, "fields", FIELDS)?;
    rows(alloc, "members of any type", MEMBERS)?;
    rows(alloc, "type parameter", "T U V | T: A<U> = V => U | U")?;
    rows(alloc, "name", "T U | T => T | T")?;
    rows(alloc, "some name", "T U | T => T | T")?;
    rows(alloc, "no name", "T U | T => - | -")?;
    rows(alloc, "no lifetime", "'a U | T => - | -")?;
    rows(alloc, "()", "T 'a | T => - | -")
}

#[test]
fn bodies_and_shapes(rt: HostRuntime) -> Tested<()> {
    let alloc = rt.alloc();
    rows(alloc, "shapes", SHAPES)?;
    rows(alloc, "taken", TAKEN)?;
    rows(alloc, "members", PRINTED)?;
    rows(alloc, "type parameters", GENERICS)?;
    rows(alloc, "read as nothing", REFUSED)
}
