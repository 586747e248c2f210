//! Vectors: of literals, of unsigned integers, and of names; sets of names, and lists of paths.

use crate::asked::rows;
use crate::shown::{Debugged, Own, Printed};
use error_core::Path;
use meta_core::{Ident, PathList};
use node_core::{LitBool, LitByte, LitByteStr, LitChar, LitFloat, LitInt, LitStr};
use std::collections::HashSet;
use tests_checks::Tested;

// What is told is the first fault alone.
const INTS: &str = r#"a(1, 2u8, - 3) => [1, 2u8, - 3]
a() => []
a(b = 1) => [1]
a(1, b, "c") => 5..6 Unexpected meta-item format `word`;
a(1, "b", 'c') => 5..8 Unexpected type `string`;
a(1, b = c d, "e") => 9..10 expected an expression;
a = [1, 0x2] => [1, 0x2]
a = [] => []
a = [1, b, 'c'] => 8..9 Unexpected type `path`;
a = [1, "b", 'c'] => 8..11 Unexpected type `string`;
a = [[1]] => 5..8 Unexpected type `array`;
a = "[1, 2]" => [1, 2]
a = "[]" => []
a = "[1, b, 'c']" => 4..17 Unexpected type `path`;
a = "1, 2" => 4..10 Unknown value: `1, 2`;
a = "[1" => 4..8 Unknown value: `[1`;
"[1]" => [1]
from_array_of_groups 7 => [7]
from_array_of_groups b => 0..1 Unexpected type `path`;"#;

// What each vector of literals and of unsigned integers makes of other items.
const OTHERS: &str = r#"a => 0..1 Unexpected meta-item format `word`;
a = 1 => 4..5 Unexpected type `int`;
a = 'b' => 4..7 Unexpected type `char`;
a = true => 4..8 Unexpected type `bool`;
a = "b" => 4..7 Unknown value: `b`;
a = b => 4..5 Unexpected type `path`;
a = (1, 2) => 4..10 Unexpected type `tuple`;
a = b c => 4..5 expected an expression;
1 => 0..1 Unexpected type `int`;"#;

const FLOATS: &str = "a(1.5, 2e3) => [1.5, 2e3]
a = [1.5] => [1.5]";

const STRINGS: &str = r#"a("b", "c") => ["b", "c"]
// test_lit_array
ignore = "[\"Hello World\", \"Test Array\"]" => ["Hello World", "Test Array"]
ignore = ["Hello World", "Test Array"] => ["Hello World", "Test Array"]
ignore = "[]" => []
ignore = [] => []"#;

const LIT_BYTES: &str = "a(b'b') => [b'b']
a = [b'c'] => [b'c']";

const BYTE_STRINGS: &str = r#"a(b"b") => [b"b"]
a = [b"c"] => [b"c"]"#;

const CHARS: &str = r#"a('b') => ['b']
a = "['c']" => ['c']
// test_lit_array
ignore = "['a', 'b', 'c']" => ['a', 'b', 'c']"#;

const BOOLS: &str = r#"a(true, b = false) => [true, false]
a = [1] => 5..6 Unexpected type `int`;
// test_lit_array
ignore = "[true]" => [true]
ignore = [true, false] => [true, false]"#;

// An element is what a literal is at the type, a string too.
const BYTES: &str = r#"a = [1, 0x2A, "3"] => [1, 42, 3]
a = [] => []
a = [1, 300, b] => 8..11 number too large to fit in target type;
a = [1, b, 300] => 8..9 Expected array of unsigned integers;
a = [-1] => 5..7 Expected array of unsigned integers;
a = ['b'] => 5..8 Unexpected type `char`;
a = ["b"] => 5..8 Unknown value: `b`;
a = [(1)] => 5..8 Expected array of unsigned integers;
a = [1 + 1] => 5..10 Expected array of unsigned integers;
a = [[1]] => 5..8 Expected array of unsigned integers;
a = "[1, 2]" => [1, 2]
a = "[1, 300]" => 4..14 number too large to fit in target type;
a = "[1, b]" => 4..12 Expected array of unsigned integers;
a = "1, 2" => 4..10 Unknown value: `1, 2`;
"[1]" => [1]
a(1, 2) => 0..7 Unexpected meta-item format `list`;
from_array 7 => [7]
from_array_of_group 7 => [7]
from_array_of_groups 7 => call Expected array of unsigned integers;
from_array_of_group b => call Expected array of unsigned integers;
// test_number_array
ignore = [16, 0xff] => [16, 255]"#;

const SHORTS: &str = r#"a = [300, "300"] => [300, 300]
a = [65536] => 5..10 number too large to fit in target type;
// test_number_array
ignore = "[32, 0xffff]" => [32, 65535]"#;

const WORDS: &str = r#"a = [65536] => [65536]
// test_number_array
ignore = "[48, 0xffffffff]" => [48, 4294967295]"#;

const LONGS: &str = r#"a = [4294967296] => [4294967296]
// test_number_array
ignore = "[64, 0xffffffffffffffff]" => [64, 18446744073709551615]"#;

const SIZES: &str = r#"a = [4294967296] => [4294967296]
// test_number_array
ignore = "[80, 0xffffffff]" => [80, 4294967295]"#;

// What is told is every fault; that of a literal among others has no place.
const IDENTS: &str = r#"a(b, r#type, b) => [b, r#type, b]
a() => []
a(b::c) => 2..6 expected an identifier;
a(b(c)) => 2..6 expected a path only;
a(b = c) => 2..7 expected a path only;
a("b") => 0..6 Unexpected meta-item format `expression`;
a(b = c d) => 0..10 Unexpected meta-item format `expression`;
a(b(c), d, "e", f::g) => 2..6 expected a path only;- Unexpected meta-item format `expression`;16..20 expected an identifier;
a => 0..1 Unexpected meta-item format `word`;
a = [b] => 4..7 Unexpected type `array`;
a = "b" => 4..7 Unexpected type `string`;
"b" => 0..3 Unexpected type `string`;
// vec_ident_succeeds
ignore(hello, world, there) => [hello, world, there]
// vec_ident_allows_duplicates
ignore(hello, hello) => [hello, hello]
// vec_ident_rejects_paths
ignore(the::world) => 7..17 expected an identifier;"#;

const PATHS: &str = "a(b, c::d, b) => [b, c :: d, b]
a() => []
a(b(c), d = e, f) => 2..6 expected a path only;8..13 expected a path only;
a(1) => 0..4 Unexpected meta-item format `expression`;
a(1, b = c d) => - Unexpected meta-item format `expression`;- Unexpected meta-item format `expression`;
a => 0..1 Unexpected meta-item format `word`;
a = b => 4..5 Unexpected type `path`;
// vec_path_succeeds
ignore(hello, the::world) => [hello, the :: world]
// vec_path_allows_duplicates
ignore(hello, hello) => [hello, hello]";

const NAMES: &str = "a() => 
a(c, r#b, b) => b;c;r#b;
a(r#b, r#b) => 7..10 Duplicate field `r#b`;
a(b, b(c), 1, d = 2, d, b) => 5..9 expected a path only;- Unexpected meta-item format `expression`;14..19 expected a path only;24..25 Duplicate field `b`;
a(d = b c, d) => 0..13 Unexpected meta-item format `expression`;
a => 0..1 Unexpected meta-item format `word`;
a = b => 4..5 Unexpected type `path`;";

const SET_IDENTS: &str = "// hash_set_ident_succeeds
ignore(hello, world) => hello;world;
// hash_set_ident_duplicate
ignore(hello, hello) => 14..19 Duplicate field `hello`;
// hash_set_ident_multiple_errors
ignore(hello, hello, the::world) => 14..19 Duplicate field `hello`;21..31 expected an identifier;";

const SET_PATHS: &str = "a(b, ::c, d::e) => b;c;d::e;
a(::b, ::b, b) => 7..10 Duplicate field `b`;
// hash_set_path_succeeds
ignore(hello, the::world) => hello;the::world;
// hash_set_path_duplicate
ignore(the::world, the::world) => 19..29 Duplicate field `the::world`;";

// The first fault is told alone.
const PATH_WORDS: &str = "ignore(Debug, Clone, Eq) => Debug;Clone;Eq;
ignore(serde::Debug, Clone, Clone) => serde::Debug;Clone;Clone;
ignore() => 
ignore(Debug, Clone = false) => 14..27 Unexpected type `non-word`;
ignore(Debug, Clone(a), 1) => 14..22 Unexpected type `non-word`;
ignore(1, Debug = 2) => 7..8 Unexpected type `non-word`;
ignore(Debug = a b) => 7..18 Unexpected type `non-word`;
ignore => 0..6 Unexpected meta-item format `word`;";

#[test]
fn vectors_sets_and_lists(rt: HostRuntime) -> Tested<()> {
    let alloc = rt.alloc();
    rows::<Vec<LitInt>, Vec<Printed>>(alloc, &[INTS, OTHERS])?;
    rows::<Vec<LitFloat>, Vec<Printed>>(alloc, &[FLOATS])?;
    rows::<Vec<LitStr>, Vec<Printed>>(alloc, &[STRINGS, OTHERS])?;
    rows::<Vec<LitByte>, Vec<Printed>>(alloc, &[LIT_BYTES])?;
    rows::<Vec<LitByteStr>, Vec<Printed>>(alloc, &[BYTE_STRINGS])?;
    rows::<Vec<LitChar>, Vec<Printed>>(alloc, &[CHARS])?;
    rows::<Vec<LitBool>, Vec<Printed>>(alloc, &[BOOLS])?;
    rows::<Vec<u8>, Debugged>(alloc, &[BYTES, OTHERS])?;
    rows::<Vec<u16>, Debugged>(alloc, &[SHORTS])?;
    rows::<Vec<u32>, Debugged>(alloc, &[WORDS])?;
    rows::<Vec<u64>, Debugged>(alloc, &[LONGS])?;
    rows::<Vec<usize>, Debugged>(alloc, &[SIZES])?;
    rows::<Vec<Ident>, Vec<Printed>>(alloc, &[IDENTS])?;
    rows::<Vec<Path>, Vec<Printed>>(alloc, &[PATHS])?;
    rows::<HashSet<Ident>, Own>(alloc, &[NAMES, SET_IDENTS])?;
    rows::<HashSet<Path>, Own>(alloc, &[NAMES, SET_PATHS])?;
    rows::<PathList, Own>(alloc, &[PATH_WORDS])?;
    Ok(())
}
