//! Types, of any kind and of one.

use crate::asked::rows;
use crate::shown::Printed;
use node_core::{
    Type, TypeArray, TypeFnPtr, TypeGroup, TypeImplTrait, TypeInfer, TypeNever, TypeParen,
    TypePath, TypePtr, TypeReference, TypeSlice, TypeTraitObject, TypeTuple,
};
use tests_checks::Tested;

// What is no type.
const NONE: &str = r#"a => 0..1 Unexpected meta-item format `word`;
a(b) => 0..4 Unexpected meta-item format `list`;
a = 1 => 4..5 Unexpected type `int`;
a = 'b' => 4..7 Unexpected type `char`;
a = true => 4..8 Unexpected type `bool`;
a = "b c" => 4..9 Unknown value: `b c`;
a = "" => 4..6 Unknown value: ``;
a = b + c => 4..9 expected a type;
a = b c => 4..7 expected a type;
a = => call expected a type;"#;

const ARRAY: &str = r#"a = [u32; 4] => [u32 ; 4]
a = "[u32; 4]" => [u32 ; 4]
// test_type_array
ignore = [u32; 4] => [u32 ; 4]
ignore = "[u32; 4]" => [u32 ; 4]"#;

const FN_PTR: &str = r#"a = fn(u32) -> b => fn (u32) -> b
a = "fn(u32) -> b" => fn (u32) -> b
// test_type_bare_fn
ignore = fn(usize) -> bool => fn (usize) -> bool
ignore = "fn(usize) -> bool" => fn (usize) -> bool"#;

const IMPL_TRAIT: &str = r#"a = impl Trait + 'a => impl Trait + 'a
a = "impl Trait + 'a" => impl Trait + 'a
// test_type_impl_trait
ignore = impl Trait + 'a => impl Trait + 'a
ignore = "impl Trait + 'a" => impl Trait + 'a"#;

const INFER: &str = r#"a = _ => _
a = "_" => _
// test_type_infer
ignore = _ => _
ignore = "_" => _"#;

const NEVER: &str = r#"a = ! => !
a = "!" => !
// test_type_never
ignore = ! => !
ignore = "!" => !"#;

const PAREN: &str = r#"a = (u32) => (u32)
a = "(u32)" => (u32)
// test_type_paren
ignore = (u32) => (u32)
ignore = "(u32)" => (u32)"#;

const TYPE_PATH: &str = r#"a = b::c => b :: c
a = "b::c" => b :: c"#;

const PTR: &str = r#"a = *const T => * const T
a = *mut T => * mut T
a = "*mut T" => * mut T
// test_type_ptr
ignore = *const T => * const T
ignore = "*const T" => * const T
ignore = *mut T => * mut T
ignore = "*mut T" => * mut T"#;

const REFERENCE: &str = r#"a = &u32 => & u32
a = &'a mut u32 => & 'a mut u32
a = "&'a u32" => & 'a u32
// test_type_reference
ignore = &u32 => & u32
ignore = "&u32" => & u32
ignore = &'a mut u32 => & 'a mut u32
ignore = "&'a mut u32" => & 'a mut u32"#;

const SLICE: &str = r#"a = [u32] => [u32]
a = "[u32]" => [u32]
// test_type_slice
ignore = [u32] => [u32]
ignore = "[u32]" => [u32]"#;

const TRAIT_OBJECT: &str = r#"a = dyn Trait => dyn Trait
a = "dyn Trait + 'b" => dyn Trait + 'b
// test_type_trait_object
ignore = dyn Trait => dyn Trait
ignore = "dyn Trait" => dyn Trait"#;

const TUPLE: &str = r#"a = (u32, i32) => (u32 , i32)
a = "()" => ()
a = () => ()
// test_type_tuple
ignore = (u32, i32) => (u32 , i32)
ignore = "(u32, i32)" => (u32 , i32)"#;

// A type of another kind: of a string the text is told, and of other tokens that they are no type.
const OTHER: &str = r#"a = "&b" => 4..8 Unknown value: `&b`;
a = &b => 4..6 expected a type;"#;

const ANOTHER: &str = r#"a = "_" => 4..7 Unknown value: `_`;
a = _ => 4..5 expected a type;"#;

// A type path alone reads a path of an expression, and keeps the fault of a bad value.
const PATH: &str = r#"a = <b as c>::d => < b as c > :: d
a = "<b as c>::d" => < b as c > :: d
a = b::<c> => b < c >
"b" => b
a = "&b" => 4..8 Unknown value: `&b`;
a = &b => 4..6 Unexpected type `reference`;
a = b c => 4..5 expected an expression;
a => 0..1 Unexpected meta-item format `word`;
from_groups a::b => a :: b"#;

// A type that is none is told with its place, and one in groups without delimiters is looked through.
const ANY: &str = "from_groups (a, b) => (a , b)
from_groups a + b => 0..5 expected a type;";

#[test]
fn types(rt: HostRuntime) -> Tested<()> {
    let alloc = rt.alloc();
    let kinds = [
        ARRAY,
        FN_PTR,
        IMPL_TRAIT,
        INFER,
        NEVER,
        PAREN,
        TYPE_PATH,
        PTR,
        REFERENCE,
        SLICE,
        TRAIT_OBJECT,
        TUPLE,
    ];
    rows::<Type, Printed>(alloc, &kinds)?;
    rows::<Type, Printed>(alloc, &[ANY, NONE])?;
    rows::<TypePath, Printed>(alloc, &[PATH])?;
    rows::<TypeArray, Printed>(alloc, &[ARRAY, OTHER, ANOTHER, NONE])?;
    rows::<TypeFnPtr, Printed>(alloc, &[FN_PTR, OTHER, ANOTHER, NONE])?;
    rows::<TypeGroup, Printed>(alloc, &[OTHER, ANOTHER, NONE])?;
    rows::<TypeImplTrait, Printed>(alloc, &[IMPL_TRAIT, OTHER, ANOTHER, NONE])?;
    rows::<TypeInfer, Printed>(alloc, &[INFER, OTHER, NONE])?;
    rows::<TypeNever, Printed>(alloc, &[NEVER, OTHER, ANOTHER, NONE])?;
    rows::<TypeParen, Printed>(alloc, &[PAREN, OTHER, ANOTHER, NONE])?;
    rows::<TypePtr, Printed>(alloc, &[PTR, OTHER, ANOTHER, NONE])?;
    rows::<TypeReference, Printed>(alloc, &[REFERENCE, ANOTHER, NONE])?;
    rows::<TypeSlice, Printed>(alloc, &[SLICE, OTHER, ANOTHER, NONE])?;
    rows::<TypeTraitObject, Printed>(alloc, &[TRAIT_OBJECT, OTHER, ANOTHER, NONE])?;
    rows::<TypeTuple, Printed>(alloc, &[TUPLE, OTHER, ANOTHER, NONE])?;
    Ok(())
}
