//! What the host of the program answers, and the host that refuses.

use crate::ask::rows;
use tests_checks::Tested;

// A place and a function, and the types at which it is offered there. A leading `::` and arguments are not looked at.
const OFFERED: &str = "map text::trim => String, std::string::String, ::std::string::String
and_then text::nonempty => String, std::string::String, ::std::string::String
default text::star => String, std::string::String, ::std::string::String
default num::one => u8, u16, u32, u64, u128, usize, i8, i16, i32, i64, i128, isize
with meta::path_text => String, std::string::String, ::std::string::String
ident ident::text => String, std::string::String, ::std::string::String
attrs attrs::count => usize
map ::text::trim => String, std::string::String, ::std::string::String
map text::<u8>::trim => String, std::string::String, ::std::string::String
and_then text::trim => none
map text::nonempty => none
default text::nonempty => none
with text::star => none
from_word num::one => none
from_none num::one => none
from_expr meta::path_text => none
map num::one => none
default meta::path_text => none
with ident::text => none
optional_ident ident::text => none
ident meta::path_text => none
fields attrs::count => none
with attrs::count => none
map text => none
map trim => none
map text::trim::x => none
map a::text::trim => none
map r#text::trim => none
map text::Trim => none
map <u8 as text>::trim => none
map |it| it => none";

// A place, a function and its type, the text that it is asked of, and the answer.
const TEXTS: &str = r#"map text::trim String | a => "a"
map text::trim String |  a  => "a"
map text::trim String |    => ""
map text::trim String |  a  b  => "a  b"
and_then text::nonempty String | a => "a"
and_then text::nonempty String |   => " "
and_then text::nonempty String |  => - must not be empty"#;

// The same of metas.
const METAS: &str = r#"with meta::path_text String | a => "a"
with meta::path_text String | ::a::b => "a::b"
with meta::path_text String | a::b(c) => "a::b"
with meta::path_text String | a = 1 => "a"
with meta::path_text String | r#type => "r#type""#;

const NAMES: &str = r#"ident ident::text String | r#type => "r#type""#;

const ATTRIBUTES: &str = r#"attrs attrs::count usize | #[a] #[doc = "b"] #[c(d)] struct S; => 3"#;

// Functions that are asked without an argument; one that takes one is not asked so.
const NOTHING: &str = r#"default text::star String |  => "*"
default num::one i128 |  => 1
map num::one u8 |  => - the function is not asked so"#;

const UNIT: &str = "map text::trim String |  => - the function is not asked so";

// A function, and the type of the value that it takes.
const TAKEN: &str = "text::trim => String
text::nonempty => String
::text::trim => String
text::star => none
num::one => none
trim => none
text => none";

// What `Tag` reads: metas, values that are no expression, and lists.
const TAGS: &str = r#"a = "x" => host(Tag, "x")
a = "" => host(Tag, "")
a => 0..1 Unexpected meta-item format `word`
a = 5 => 4..5 Unexpected type `int`
a(b) => 0..4 Unexpected meta-item format `list`
a = b => 4..5 Unexpected type `path`
a, b = 1 => - Unexpected meta-item format `list`
a = b c => 4..5 expected an expression"#;

// Types of the host.
const KNOWN: &str = "Tag => yes
::Tag => yes
Tags => no
tag => no
r#Tag => no
a::Tag => no
Tag<u8> => no
&Tag => no
(Tag) => no
String => no";

// Types, and their defaults among the declarations of `hosts`.
const DEFAULTS: &str = r#"Empty => Empty {}
Limits => Limits {min: 0, max: none}
All => All {a: false, b: '\0', c: "", d: [], e: none, f: Override::Inherit, g: {}, h: (), i: []}
Nested => Nested {one: Limits {min: 0, max: none}, two: Limits {min: 0, max: none}, three: SpannedValue {value: Empty {}, span: call}}
Later => Later {it: 0}
r#Empty => Empty {}
Raw => r#Raw {r#type: 0}
r#Raw => r#Raw {r#type: 0}
TagHeld => none
Refused => none
AlsoRefused => none
Kept => none
Early => none
Itself => none
Pair => none
Nothing => none
Mode => none
Both => none
Tag => none
String => none
Box<Empty> => none
Empty<u8> => none
a::Empty => none
Unknown => none"#;

// Each declaration is looked at once.
const MANY: &str = "struct S0 { a: u8 } ⟨199 struct S$ { a: S^, b: S^ } ⟩ | S199 => some
struct S0 { a: Ident } ⟨199 struct S$ { a: S^, b: S^ } ⟩ | S199 => none";

// The places at which the host that refuses offers a function.
const REFUSING: &str = "with a::b => all
map a::b => all
and_then a::b => all
from_expr a::b => all
attrs a::b => all
ident a::b => all
optional_ident a::b => all
body a::b => all
fields a::b => all
generics a::b => all
from_ident a::b => all
default a::b => none
from_word a::b => none
from_none a::b => none";

// What it answers there.
const REFUSED: &str = "with a::b u8 |  => - refused
map a::b u8 |  => - refused
and_then a::b u8 |  => - refused
from_expr a::b u8 |  => - refused
attrs a::b u8 |  => - refused
ident a::b u8 |  => - refused
optional_ident a::b u8 |  => - refused
body a::b u8 |  => - refused
fields a::b u8 |  => - refused
generics a::b u8 |  => - refused
from_ident a::b u8 |  => - refused";

#[test]
fn hosts_answer(rt: HostRuntime) -> Tested<()> {
    let alloc = rt.alloc();
    rows(alloc, "offers", OFFERED)?;
    rows(alloc, "answers a text", TEXTS)?;
    rows(alloc, "answers a meta", METAS)?;
    rows(alloc, "answers a name", NAMES)?;
    rows(alloc, "answers attributes", ATTRIBUTES)?;
    rows(alloc, "answers nothing", NOTHING)?;
    rows(alloc, "answers ()", UNIT)?;
    rows(alloc, "takes", TAKEN)?;
    rows(alloc, "reads", TAGS)?;
    rows(alloc, "knows", KNOWN)?;
    rows(alloc, "default", DEFAULTS)?;
    rows(alloc, "has a default", MANY)?;
    rows(alloc, "refusing offers", REFUSING)?;
    rows(alloc, "refusing answers ()", REFUSED)?;
    rows(alloc, "refusing takes", "a::b => String")?;
    rows(alloc, "refusing knows", "u8 => no")?;
    rows(alloc, "refusing has a default", "struct S; | u8 => none")
}
