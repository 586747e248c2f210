//! Names, paths, expressions, parameters, visibilities, `where` clauses, lists and metas.

use crate::asked::rows;
use crate::shown::Printed;
use error_core::{Expr, Path};
use node_core::{
    Comma, ExprArray, ExprPath, ExprRange, FnArg, Ident, Meta, Punctuated, TypeParam, Visibility,
    WhereClause, WherePredicate,
};
use tests_checks::Tested;

// What no piece of syntax is.
const NONE: &str = "a => 0..1 Unexpected meta-item format `word`;
a(b) => 0..4 Unexpected meta-item format `list`;
a = 'b' => 4..7 Unexpected type `char`;
a = true => 4..8 Unexpected type `bool`;
a = 1 => 4..5 Unexpected type `int`;
1 => 0..1 Unexpected type `int`;";

// What keeps the stored fault of a bad value.
const BAD: &str = "a = b c => 4..5 expected an expression;";

const IDENT: &str = r##"a = b => b
a = r#type => r#type
a = "b" => b
a = "r#type" => r#type
a = " b /* c */ " => b
"b" => b
a = "type" => 4..10 Unknown value: `type`;
a = "b c" => 4..9 Unknown value: `b c`;
a = "" => 4..6 Unknown value: ``;
a = "(" => 4..7 Unknown value: `(`;
a = r#"""# => 4..10 Unknown value: `"`;
a = b::c => 4..8 Unexpected type `path`;
a = ::b => 4..7 Unexpected type `path`;
a = b::<c> => 4..10 Unexpected type `path`;
a = b + c => 4..9 Unexpected type `binary`;
from_string b c => - Unknown value: `b c`;
from_groups a => a"##;

const PATH: &str = r#"a = b => b
a = ::b::c => :: b :: c
a = b::<c>::d => b < c > :: d
a = <b as c>::d => c :: d
a = "b::c" => b :: c
a = "Fn(b) -> c" => Fn (b) -> c
"b" => b
a = "b::" => 4..9 Unknown value: `b::`;
a = "b c" => 4..9 Unknown value: `b c`;
a = [b] => 4..7 Unexpected type `array`;
from_string b c => - Unknown value: `b c`;
from_groups a::b => a :: b
// test_path_without_quotes
ignore = std::mem::replace => std :: mem :: replace
ignore = x => x
ignore = example::<Test> => example < Test >"#;

const EXPR: &str = r#"a = b + c * d => b + c * d
a = 1 => 1
a = -1 => - 1
a = 'b' => 'b'
a = "b + c" => b + c
a = "\"b\"" => "b"
a = { b; c } => {b ; c}
"b + c" => b + c
a = "b +" => 4..9 Unknown value: `b +`;
a = "" => 4..6 Unknown value: ``;
1 => 0..1 Unexpected type `int`;
'b' => 0..3 Unexpected type `char`;
true => 0..4 Unexpected type `bool`;
a => 0..1 Unexpected meta-item format `word`;
a(b) => 0..4 Unexpected meta-item format `list`;
from_string b c => - Unknown value: `b c`;
from_groups a + b => a + b
from_groups "a + b" => a + b
// test_expr
ignore = "x + y" => x + y
ignore = "an_object.method_call()" => an_object . method_call ()
ignore = "{ a_statement(); in_a_block }" => {a_statement () ; in_a_block}
// test_expr_without_quotes
ignore = x + y => x + y
ignore = an_object.method_call() => an_object . method_call ()
ignore = { a_statement(); in_a_block } => {a_statement () ; in_a_block}"#;

const ARRAY: &str = r#"a = [b, 1] => [b , 1]
a = "[0x1, 0x2]" => [0x1 , 0x2]
"[]" => []
a = "b" => 4..7 Unknown value: `b`;
a = "[b; 2]" => 4..12 Unknown value: `[b; 2]`;
a = [b; 2] => 4..10 Unexpected type `repeat`;
a = (b) => 4..7 Unexpected type `paren`;
from_string [] => - Unexpected type `string`;
from_groups [a] => [a]
// test_expr_array
ignore = "[0x1, 0x2]" => [0x1 , 0x2]
ignore = "[\"Hello World\", \"Test Array\"]" => ["Hello World" , "Test Array"]"#;

const EXPR_PATH: &str = r#"a = b::c => b :: c
a = <b as c>::d => < b as c > :: d
a = "b::<c>" => b :: < c >
"b" => b
a = "[b]" => 4..9 Unknown value: `[b]`;
a = b() => 4..7 Unexpected type `call`;
// test_expr_path
ignore = "std::mem::replace" => std :: mem :: replace
ignore = "x" => x
ignore = "example::<Test>" => example :: < Test >
// test_expr_path_without_quotes
ignore = std::mem::replace => std :: mem :: replace
ignore = x => x
ignore = example::<Test> => example :: < Test >"#;

const RANGE: &str = r#"a = 0..5 => 0 .. 5
a = ..(b + c) => .. (b + c)
a = "..=5" => ..= 5
a = "5" => 4..7 Unknown value: `5`;
a = 5 => 4..5 Unexpected type `int`;
a = b + c => 4..9 Unexpected type `binary`;
// expr_range_without_quotes
ignore = 0..5 => 0 .. 5
ignore = 0..=5 => 0 ..= 5
ignore = ..5 => .. 5
ignore = ..(x + y) => .. (x + y)"#;

const TYPE_PARAM: &str = r##"a = b => b
a = "b: c + 'd = e" => b : c + 'd = e
a = "#[b] c" => # [b] c
a = b: c => b : c
"b" => b
a = "b, c" => 4..10 Unknown value: `b, c`;
a = b::c => 4..8 expected a type parameter;
a = b c => 4..7 expected a type parameter;
a = => call expected a type parameter;"##;

const VISIBILITY: &str = r#"a = "pub" => pub
a = pub(in b::c) => pub (in b :: c)
a = pub => pub
a = "" => 
a = => 
a = crate => 4..9 expected a visibility;
a = b => 4..5 expected a visibility;
a = "b" => 4..7 Unknown value: `b`;
from_string b c => - Unknown value: `b c`;
// test_vis
ignore = pub(in crate::module) => pub (in crate :: module)
ignore = pub => pub"#;

const WHERE: &str = r#"a = where b: c<'d> => where b : c < 'd >
a = "where b: c, d: 'e" => where b : c , d : 'e
a = "b: c" => 4..10 Unknown value: `b: c`;
a = b => 4..5 expected a where clause;
a = where b => 4..11 expected a where clause;
// test_where_clause
ignore = where T: Deserialize<'de> => where T : Deserialize < 'de >
ignore = "where T: Deserialize<'de>, D: 'static" => where T : Deserialize < 'de > , D : 'static"#;

const PREDICATES: &str = r#"a = "b: c, d: 'e" => [b : c, d : 'e]
a = "" => []
"b: c" => [b : c]
a = "where b: c" => 4..16 Unknown value: `where where b: c`;
a = "b" => 4..7 Unknown value: `where b`;
a = b => 4..5 Unexpected type `path`;"#;

const META: &str = r#"a => a
a(b, c = d) => a (b , c = d)
a = b + c => a = b + c
"b" => 0..3 Unexpected type `string`;
a = b c => 4..5 expected an expression;
from_word => - Unexpected meta-item format `word`;
// meta_succeeds
hello(world, today) => hello (world , today)"#;

const EXPRS: &str = r#"a = "b, c + d," => b , c + d
a = "" => 
"b" => b
a = ",b" => 4..8 Unknown value: `,b`;
a = [b] => 4..7 Unexpected type `array`;
from_string b => - Unexpected type `string`;
// test_punctuated
ignore = "a, b, c" => a , b , c"#;

const FN_ARGS: &str = r#"a = "b: c, &(mut d, _): e" => b : c , & (mut d , _) : e
a = "b" => 4..7 Unknown value: `b`;
// test_punctuated
ignore = "a: u8, b: Type" => a : u8 , b : Type"#;

const IDENTS: &str = r#"a = "b, c," => b , c
a = "b::c" => 4..10 Unknown value: `b::c`;"#;

const PATHS: &str = r#"a = "b::c, d" => b :: c , d
a = "1" => 4..7 Unknown value: `1`;"#;

#[test]
fn pieces_of_syntax(rt: HostRuntime) -> Tested<()> {
    let alloc = rt.alloc();
    rows::<Ident, Printed>(alloc, &[IDENT, NONE, BAD])?;
    rows::<Path, Printed>(alloc, &[PATH, NONE, BAD])?;
    rows::<Expr, Printed>(alloc, &[EXPR, BAD])?;
    rows::<ExprArray, Printed>(alloc, &[ARRAY, NONE, BAD])?;
    rows::<ExprPath, Printed>(alloc, &[EXPR_PATH, NONE, BAD])?;
    rows::<ExprRange, Printed>(alloc, &[RANGE, NONE, BAD])?;
    rows::<TypeParam, Printed>(alloc, &[TYPE_PARAM, NONE])?;
    rows::<Visibility, Printed>(alloc, &[VISIBILITY, NONE])?;
    rows::<WhereClause, Printed>(alloc, &[WHERE, NONE])?;
    rows::<Vec<WherePredicate>, Vec<Printed>>(alloc, &[PREDICATES, NONE, BAD])?;
    rows::<Meta, Printed>(alloc, &[META])?;
    rows::<Punctuated<Expr, Comma>, Printed>(alloc, &[EXPRS, NONE, BAD])?;
    rows::<Punctuated<Ident, Comma>, Printed>(alloc, &[IDENTS])?;
    rows::<Punctuated<Path, Comma>, Printed>(alloc, &[PATHS])?;
    rows::<Punctuated<FnArg, Comma>, Printed>(alloc, &[FN_ARGS])?;
    Ok(())
}
