//! The piece that a text begins with is found: a row is `kind | text => answer`.

use base_core::Mem;
use std::alloc::Global;
use tok_scan::*;

// `piece`: the kind and the length of the piece that the text begins with. `raw`: the same, once it is known which
// raw strings end. `text`: its bytes, and itself.
pub const ROWS: &str = r###"piece | ‹D›‹A› => White 1
piece | ‹200E› => White 1
piece | // a‹A›b => Comment 4
piece | ////x => Comment 5
piece | //!x => Comment 4
piece | ///x‹D›‹A› => Doc 5
piece | /// => Doc 3
piece | /**/*/ => Comment 4
piece | /* /* */ */ */ => Comment 11
piece | /*/*/**/*/*/ => Comment 12
piece | a_1=b => Ident 3
piece | _ " => Ident 1
piece | été·x => Ident 5
piece | r#type => RawIdent 6
piece | r#self => Ident 1
piece | r#selfish => RawIdent 9
piece | r## => Ident 1
piece | br#x => Ident 2
piece | b'a => Ident 1
piece | r#"abc => Ident 1
piece | # => Mark { joint: false } 1
piece | ::x => Mark { joint: true } 1
piece | = = => Mark { joint: false } 1
piece | =///x => Mark { joint: true } 1
piece | =//x => Mark { joint: false } 1
piece | =////x => Mark { joint: false } 1
piece | /= => Mark { joint: true } 1
piece | (( => Open(Parenthesis) 1
piece | ] => Close(Bracket) 1
piece | """" => Literal 2
piece | "a 'b' ~", => Literal 9
piece | "\n\"\u{1_0ffff}\x7f"  => Literal 21
piece | "\‹A› ‹9›‹D›‹A› x" => Literal 10
piece | "é‹D›" => Literal 4
piece | b"\xff\‹A›" => Literal 9
piece | r"\"" => Literal 4
piece | r##"a"#b"##; => Literal 11
piece | br#""# => Literal 6
piece | b'\xff' => Literal 7
piece | 'a' => Literal 3
piece | '\'' => Literal 4
piece | '\u{0}' => Literal 7
piece | 'é' => Literal 3
piece | 0 => Literal 1
piece | 1..2 => Literal 1
piece | 1.f => Literal 1
piece | 1. => Literal 2
piece | 1.  => Literal 2
piece | 1.5.0 => Literal 3
piece | 1.5e-1_0f32) => Literal 11
piece | 1e5 => Literal 3
piece | 1e_-5 => Literal 3
piece | 1e+_5 => Literal 5
piece | 1e+ => Literal 2
piece | 1_000u8  => Literal 7
piece | 0xFF_u8 => Literal 7
piece | 0b101 => Literal 5
piece | 0o_17usize => Literal 10
piece | 0x1f32 => Literal 6
piece | 0_x => Literal 3
piece | 340282366920938463463374607431768211455 => Literal 39
piece | 340282366920938463463374607431768211456.0 => Literal 41
piece | 'a => Lifetime 2
piece | 'ab' => Lifetime 3
piece | 'a'b => Lifetime 2
piece | 'r#a => Lifetime 4
piece | 'r#self => Lifetime 2
piece | 'a"x" => Lifetime 2
piece | '_ => Lifetime 2
piece |  => none
piece | ‹A0› => none
piece | ‹FEFF›a => none
piece | a"b" => none
piece | "a => none
piece | "a"_ => none
piece | "\u{110000}" => none
piece | "\u{d800}" => none
piece | "\u{1234567}" => none
piece | "\u{_1}" => none
piece | "\x80" => none
piece | b"\u{1}" => none
piece | b"é" => none
piece | br"é" => none
piece | b"a => none
piece | r"a => none
piece | r#"a"#b => none
piece | ''' => none
piece | '‹A›' => none
piece | '\' => none
piece | 1· => none
piece | 1_· => none
piece | 1e5· => none
piece | 0x => none
piece | 0x_ => none
piece | 0b12 => none
piece | 0xg => none
piece | 340282366920938463463374607431768211456 => none
piece | 0x1_00000000_00000000_00000000_00000000u8 => none
piece | /* => none
piece | /* /* */ => none
piece | \ => none
piece | ` => none
raw | r#"a"# => Literal 6
raw | r##"a"# => Ident 1
raw | r#" r#" r#" => Ident 1
raw | br#"é"# => Ident 2
text | aé€🦀 => 10 aé€🦀"###;

/// What is found in the text.
pub fn found(alloc: Global, kind: &str, text: &str) -> Mem<String> {
    let text = characters(alloc, text)?;
    let found = match kind {
        "piece" => piece(&text),
        "raw" => piece_with(&text, &closings(alloc, &text)?),
        _ => {
            let again = text_of(alloc, &text)?;
            return format!(in alloc; "{} {}", byte_length(&text), again.as_str());
        }
    };
    match found {
        Some(Found { kind, length }) => format!(in alloc; "{kind:?} {length}"),
        None => format!(in alloc; "none"),
    }
}
