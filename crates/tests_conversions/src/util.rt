//! What the calls of `util` answer, and what tables rename.

use crate::calls::rows;
use tests_checks::Tested;

// A type, and the one in it.
const OPTIONS: &str = "::std::option::Option<String> => String
Option<T> => T
a::Option<Vec<u8>> => Vec < u8 >
Option::<&'a [u8]> => & 'a [u8]
Option<Option<u8>> => Option < u8 >
a::<b>::Option<c> => c
Option => 0..6 expected an `Option`;
Vec<T> => 0..6 expected an `Option`;
Options<T> => 0..10 expected an `Option`;
r#Option<T> => 0..11 expected an `Option`;
Option<T>::Item => 0..15 expected an `Option`;
Option<A, B> => 0..12 expected an `Option`;
Option<'a> => 0..10 expected an `Option`;
Option<8> => 0..9 expected an `Option`;
Option<T = u8> => 0..14 expected an `Option`;
Option(T) => 0..9 expected an `Option`;
<T as a>::Option<u8> => 0..20 expected an `Option`;
<T>::Option<u8> => 0..15 expected an `Option`;
&Option<T> => 0..10 expected an `Option`;
(Option<T>) => 0..11 expected an `Option`;
! => 0..1 expected an `Option`;";

// An item, and the rule that it names.
const RULES: &str = r#"a = "kebab" => Named(0)
a = "snake" => Named(1)
a = r"snake" => Named(1)
a = "Kebab" => 4..11 Unknown value: `Kebab`;
a = "" => 4..6 Unknown value: ``;
a = kebab => 4..9 Unexpected type `path`;
a = 7 => 4..5 Unexpected type `int`;
a = 'k' => 4..7 Unexpected type `char`;
a("kebab") => 0..10 Unexpected meta-item format `list`;
a => 0..1 Unexpected meta-item format `word`;"#;

// A meta, and its value as it stands.
const KEPT: &str = r#"a = "b + c" => "b + c"
a = b + c => b + c
a => 0..1 Unexpected meta-item format `path`;
a(b) => 0..4 Unexpected meta-item format `list`;
a = 7 => 7
a = "b +" => "b +"
ignore = "World" => "World"
ignore = "World" + 5 => "World" + 5"#;

// A meta, and its value where a string is parsed.
const PARSED: &str = r#"a = "b + c" => b + c
a = b + c => b + c
a => 0..1 Unexpected meta-item format `path`;
a(b) => 0..4 Unexpected meta-item format `list`;
a = 7 => 4..5 Unexpected type `int`;
a = "b +" => 4..9 Unknown value: `b +`;
ignore = "world" => world"#;

// An attribute, and the list that it is.
const ATTRIBUTES: &str = "#[a(b, c = d)] struct S; => a (b , c = d)
#[a] struct S; => a ()
#[::a::b] struct S; => :: a :: b ()
#[::a::b = c] struct S; => 2..12 Name-value arguments are not supported. Use #[::a::b(...)];
#[bar(baz = 4)] struct S; => bar (baz = 4)
#[bar] struct S; => bar ()
#[bar = 4] struct S; => 2..9 Name-value arguments are not supported. Use #[bar(...)];";

// Two lists, and what they have in common: in the order and number of the first.
const COMMON: &str = "a(Debug, Clone, Eq) | a(Clone, Eq, Clone) => Clone;Eq;
a(Clone, Eq, Clone) | a(Debug, Eq, Clone) => Clone;Eq;Clone;
a(b, ::b, b::c) | a(::b, b::d) => b;
a(Debug) | a() => 
a() | a(Debug) => ";

const CALLABLES: &str = "a::b => a :: b
|a| b => | a | b
a + b => a + b
a b => expected an expression";

// A new text for an identifier, and the identifier that it is.
const RENAMED: &str = "var_my => var_my
r#type => r#type
my => my
_ => _
règle => règle
9 => NotAnIdentifier
a b => NotAnIdentifier
r#self => NotAnIdentifier
r# => NotAnIdentifier";

// An identifier as a text, and whether it is another, stands before it, or behind.
const NAMES: &str = "a | a => a is a, a at CallSite
a | b => a before b, a at CallSite
b | a => b behind a, b at CallSite
a | r#a => a before r#a, a at CallSite
r#a | r#a => r#a is r#a, a at CallSite, raw
t | t => t is t, t at CallSite";

// A table, behind the bar a rule, a kind and an identifier, and behind the arrow the name, or why the text is no
// table. `;` stands for a line feed, `~` for a carriage return and `^` for a tab.
const TABLES: &str = " | kebab field first_name => first_name
 | kebab rule - => None
; | kebab field first_name => first_name
snake_case variant Fast | snake_case variant Fast => BadTable, BadTable { line: 1 }
snake_case variant Fast fast | snake_case variant Fast => fast
snake_case variant Fast fast; | snake_case variant Fast => fast
;;kebab field a b;;kebab field c d;; | kebab field c => d
;;kebab field a b;;kebab field c; | kebab field a => BadTable, BadTable { line: 5 }
kebab field a;kebab field a | kebab field a => BadTable, BadTable { line: 1 }
kebab field a b ; | kebab field a => BadTable, BadTable { line: 1 }
 kebab field a b | kebab field a => BadTable, BadTable { line: 1 }
kebab field  a b | kebab field a => BadTable, BadTable { line: 1 }
kebab  a b | kebab field a => BadTable, BadTable { line: 1 }
   ; | kebab field a => BadTable, BadTable { line: 1 }
kebab field a b;^ | kebab field a => BadTable, BadTable { line: 2 }
kebab^field a b | kebab field a => BadTable, BadTable { line: 1 }
kebab field a^z b | kebab field a^z => b
kebab field a | kebab field a => BadTable, BadTable { line: 1 }
kebab field a b c | kebab field a => BadTable, BadTable { line: 1 }
kebab Field a b | kebab field a => BadTable, BadTable { line: 1 }
kebab fields a b | kebab field a => BadTable, BadTable { line: 1 }
kebab field a b;kebab field a c | kebab field a => b
kebab field a b;kebab variant a c;other field a d | kebab variant a => c
kebab field a b;kebab variant a c;other field a d | other field a => d
kebab field a b;kebab field c d | kebab variant a => a
kebab field a b | other field a => a
kebab field a b | kebab field b => b
kebab field a b | kebab field A => A
kebab field a a;kebab field a b | kebab field a => a
kebab field ab c;kebab field a bc | kebab field a => bc
field variant field variant | field variant field => variant
règle field naïve été;règle variant Ünï ünï | règle field naïve => été
règle field naïve été;règle variant Ünï ünï | règle variant Ünï => ünï
règle field naïve été | regle field naïve => naïve
kebab field a b~;kebab field c d | kebab field a => b~
kebab field a b~;kebab field c d | kebab field c => d
kebab field a b~;~; | kebab field a => BadTable, BadTable { line: 2 }
one field a b;one field c d;two field a e;one field f g | two rule - => Some(Named(2))
one field a b;one field c d;two field a e;one field f g | one rule - => Some(Named(0))
one field a b;one field c d;two field a e;one field f g | One rule - => None
one field a b;one field c d;two field a e;one field f g | one field f => g
one field a b;one field c d;two field a e;one field f g | #2 field a => e
one field a b;one field c d;two field a e;one field f g | #2 field c => c
one field a b;one field c d;two field a e;one field f g | #3 field c => d
one field a b;one field c d;two field a e;one field f g | #4 field a => a";

#[test]
fn calls_of_util(rt: HostRuntime) -> Tested<()> {
    let alloc = rt.alloc();
    rows(alloc, "in an option", OPTIONS)?;
    rows(alloc, "rule", RULES)?;
    rows(alloc, "kept", KEPT)?;
    rows(alloc, "parsed", PARSED)?;
    rows(alloc, "attribute", ATTRIBUTES)?;
    rows(alloc, "common", COMMON)?;
    rows(alloc, "callable", CALLABLES)?;
    rows(alloc, "new name", RENAMED)?;
    rows(alloc, "names", NAMES)?;
    rows(alloc, "table", TABLES)
}
