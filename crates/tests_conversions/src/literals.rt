//! Literals, words, characters and strings.

use crate::asked::rows;
use crate::shown::{Debugged, Printed};
use error_core::{Lit, Text};
use node_core::{LitBool, LitByte, LitByteStr, LitChar, LitFloat, LitInt, LitStr};
use std::path::PathBuf;
use tests_checks::Tested;

const LIT: &str = r#"a = "b" => "b"
a = b"b" => b"b"
a = b'b' => b'b'
a = 'b' => 'b'
a = -1u8 => - 1u8
a = 1.5 => 1.5
a = true => true
1 => 1
a => 0..1 Unexpected meta-item format `word`;
a(1) => 0..4 Unexpected meta-item format `list`;
a = [1] => 4..7 Unexpected type `array`;
a = b c => 4..5 expected an expression;"#;

// What each kind makes of the other seven.
const STRING: &str = r#"a = "b" => 4..7 Unexpected type `string`;"#;

const BYTE_STRING: &str = r#"a = b"b" => 4..8 Unexpected type `byte string`;"#;

const BYTE: &str = "a = b'b' => 4..8 Unexpected type `byte`;";

const CHAR: &str = "a = 'b' => 4..7 Unexpected type `char`;";

const INT: &str = "a = -1 => 4..6 Unexpected type `int`;";

const FLOAT: &str = "a = 1.5 => 4..7 Unexpected type `float`;";

const BOOL: &str = "a = true => 4..8 Unexpected type `bool`;";

// What no kind of literal is.
const NONE: &str = "a => 0..1 Unexpected meta-item format `word`;
a(1) => 0..4 Unexpected meta-item format `list`;
a = b => 4..5 Unexpected type `path`;";

// What each kind makes of itself.
const LIT_INT: &str = "a = 0x2Au8 => 0x2Au8
a = - 1 => - 1
7 => 7";

const LIT_FLOAT: &str = "a = 1.50f32 => 1.50f32
a = -1e3 => - 1e3";

const LIT_STRING: &str = r##"a = "b\n" => "b\n"
a = r#"b"# => r#"b"#"##;

const LIT_BYTE: &str = r"a = b'\n' => b'\n'";

const LIT_BYTE_STRING: &str = r#"a = b"b\n" => b"b\n""#;

const LIT_CHAR: &str = r"a = '\u{1F62C}' => '\u{1F62C}'";

const LIT_BOOL: &str = "a = true => true
false => false";

const UNIT: &str = r#"a => ()
a() => ()
a(b, c = 1, d(e)) => 2..3 Unknown field: `b`;5..10 Unknown field: `c`;12..16 Unknown field: `d`;
a("b", -1, c = d e) => 2..5 Unexpected type `lit`;7..9 Unexpected type `lit`;11..12 Unknown field: `c`;
a(::b::c) => 2..8 Unknown field: `b::c`;
a = "" => 4..6 Unexpected type `string`;
a = b c => 4..5 expected an expression;
from_none => nothing
from_list => ()
// unit_succeeds
ignore => ()
ignore() => ()
// unit_fails
ignore(foo = "bar") => 7..18 Unknown field: `foo`;"#;

const BOOL_VALUE: &str = r#"a => true
a = true => true
a = false => false
a = "true" => true
a = "false" => false
a = r"true" => true
true => true
a = "True" => 4..10 Unknown value: `True`;
a = "" => 4..6 Unknown value: ``;
a = 1 => 4..5 Unexpected type `int`;
a = b'1' => 4..8 Unexpected type `byte`;
a = b"1" => 4..8 Unexpected type `byte string`;
a = !b => 4..6 Unexpected type `unary`;
a() => 0..3 Unexpected meta-item format `list`;
a(=) => 2..3 expected a meta list;
from_none => nothing
from_word => true
from_string yes => - Unknown value: `yes`;
// bool_succeeds
ignore => true
ignore = true => true
ignore = false => false
ignore = "true" => true
ignore = "false" => false"#;

const CHAR_VALUE: &str = r#"a = 'b' => 'b'
a = '😬' => '😬'
a = "😬" => '😬'
'b' => 'b'
"b" => 'b'
a = "" => 4..6 Unexpected type `string`;
a = "bc" => 4..8 Unexpected type `string`;
a = "éé" => 4..10 Unexpected type `string`;
a = true => 4..8 Unexpected type `bool`;
a => 0..1 Unexpected meta-item format `word`;
from_none => nothing
from_string bc => - Unexpected type `string`;
// char_succeeds
ignore = '😬' => '😬'
ignore = "😬" => '😬'"#;

const STRING_VALUE: &str = r##"a = "b" => "b"
a = r#"b"c"# => "b\"c"
a = "" => ""
"b" => "b"
a = 'b' => 4..7 Unexpected type `char`;
a = true => 4..8 Unexpected type `bool`;
a = 1 => 4..5 Unexpected type `int`;
a = b => 4..5 Unexpected type `path`;
a => 0..1 Unexpected meta-item format `word`;
a("b") => 0..6 Unexpected meta-item format `list`;
from_none => nothing
// string_succeeds
ignore = "world" => "world"
ignore = r#"world"# => "world"
// pathbuf_succeeds
ignore = r#"C:\"# => "C:\\""##;

#[test]
fn literals_words_and_strings(rt: HostRuntime) -> Tested<()> {
    let alloc = rt.alloc();
    rows::<Lit, Printed>(alloc, &[LIT])?;
    rows::<LitInt, Printed>(
        alloc,
        &[LIT_INT, STRING, BYTE_STRING, BYTE, CHAR, FLOAT, BOOL, NONE],
    )?;
    rows::<LitFloat, Printed>(
        alloc,
        &[LIT_FLOAT, STRING, BYTE_STRING, BYTE, CHAR, INT, BOOL, NONE],
    )?;
    rows::<LitStr, Printed>(
        alloc,
        &[LIT_STRING, BYTE_STRING, BYTE, CHAR, INT, FLOAT, BOOL, NONE],
    )?;
    rows::<LitByte, Printed>(
        alloc,
        &[LIT_BYTE, STRING, BYTE_STRING, CHAR, INT, FLOAT, BOOL, NONE],
    )?;
    rows::<LitByteStr, Printed>(
        alloc,
        &[LIT_BYTE_STRING, STRING, BYTE, CHAR, INT, FLOAT, BOOL, NONE],
    )?;
    rows::<LitChar, Printed>(
        alloc,
        &[LIT_CHAR, STRING, BYTE_STRING, BYTE, INT, FLOAT, BOOL, NONE],
    )?;
    rows::<LitBool, Printed>(
        alloc,
        &[LIT_BOOL, STRING, BYTE_STRING, BYTE, CHAR, INT, FLOAT, NONE],
    )?;
    rows::<(), Debugged>(alloc, &[UNIT])?;
    rows::<bool, Debugged>(alloc, &[BOOL_VALUE])?;
    rows::<char, Debugged>(alloc, &[CHAR_VALUE])?;
    rows::<Text, Debugged>(alloc, &[STRING_VALUE])?;
    rows::<String, Debugged>(alloc, &[STRING_VALUE])?;
    rows::<PathBuf, Debugged>(alloc, &[STRING_VALUE])?;
    Ok(())
}
