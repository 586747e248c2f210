//! Literals have their values: a row is `text => kind and value`.

use crate::told::Tested;
use base_core::Mem;
use std::alloc::Global;
use tok_lit::*;

pub const ROWS: &str = r###""" => string 
"a 'é'" => string a 'é'
"\n\r\t\\\'\"" => string ‹A›‹D›‹9›\'"
"\x41\u{1_F600}" => string A😀
"a\‹A› ‹9›‹D›‹A› b\n" => string ab‹A›
r"\n" => string \n
r##"a"#b"## => string a"#b
b"a\xff\0" => bytes [97, 255, 0]
br#"\""# => bytes [92, 34]
b'\x80' => byte 128
b'a' => byte 97
'é' => character é
'\'' => character '
'\u{e9}' => character é
0 => integer 0
1_000_u8 => integer 1000
0xfF_f32 => integer 1048370
0o17 => integer 15
0b1_01i8 => integer 5
340282366920938463463374607431768211455 => integer 340282366920938463463374607431768211455
1e_ => integer 1
1. => float
1.5e-3 => float
1E5f32 => float
1f64 => float
1f32 => float
1e5 => float
1f32_ => integer 1
 => none
a => none
true => none
'a => none
"a => none
"a"b => none
 1 => none
1  => none
-1 => none
b'é' => none
"\xff" => none
"\u{110000}" => none
r#"a" => none
0x => none
340282366920938463463374607431768211456 => none"###;

/// The kind and the value, as one text.
pub fn value(alloc: Global, text: &str) -> Tested<String> {
    Ok(told(alloc, &value_of(alloc, text)?)?)
}

fn told(alloc: Global, value: &Option<Value>) -> Mem<String> {
    match value {
        Some(Value::Str(value)) => format!(in alloc; "string {}", value.as_str()),
        Some(Value::ByteStr(value)) => format!(in alloc; "bytes {:?}", value.as_slice()),
        Some(Value::Byte(value)) => format!(in alloc; "byte {value}"),
        Some(Value::Char(value)) => format!(in alloc; "character {value}"),
        Some(Value::Int(value)) => format!(in alloc; "integer {value}"),
        Some(Value::Float) => format!(in alloc; "float"),
        None => format!(in alloc; "none"),
    }
}
