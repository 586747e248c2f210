//! Types around a type that is read, types of `util` and of options, and a type that has no cell.

use crate::asked::rows;
use crate::shown::{Debugged, Own, Printed};
use error_core::{Error, Result as Answer};
use meta_core::{Boxed, Call, FromMeta, Meta, PathList};
use options_types::{DefaultExpression, ForwardAttrsFilter, Ignored, SpannedValue, WithOriginal};
use std::alloc::Global;
use tests_checks::Tested;
use util_core::{Callable, Flag, IdentString, Override, PreservedStrExpr};

const OPTION: &str = "a => Some(true)
a = false => Some(false)
a = 1 => 4..5 Unexpected type `int`;
a(b) => 0..4 Unexpected meta-item format `list`;
true => 0..4 Unexpected type `bool`;
a = b c => 4..5 expected an expression;
from_none => None";

const BOXED: &str = r#"a => true
a = "no" => 4..8 Unknown value: `no`;
true => 0..4 Unexpected type `bool`;
from_none => nothing"#;

const RESULT: &str = "a => Ok true
a = 1 => Err Unexpected type `int`
a(b) => Err Unexpected meta-item format `list`
true => 0..4 Unexpected type `bool`;
a = b c => 4..5 expected an expression;";

const RESULT_META: &str = "a => Ok true
a = 1 => Err a = 1
a(b) => Err a (b)
true => 0..4 Unexpected type `bool`;";

const UNIT_RESULT: &str = "from_list => Ok ()
// darling_result_succeeds
ignore => Ok ()
ignore(world) => Err Unknown field: `world`";

const LIST_REFUSED: &str = "from_list => - Unexpected meta-item format `list`;";

const FLAG: &str = "a => present
a() => 0..3 Unexpected meta-item format `list`;
a(b) => 2..3 Unknown field: `b`;
a = true => 4..8 Unexpected type `bool`;
true => 0..4 Unexpected type `bool`;";

const OVERRIDE: &str = r#"a => Inherit
a = 7 => Explicit(7)
a = "7" => Explicit(7)
a = 300 => 4..7 number too large to fit in target type;
a(b) => 0..4 Unexpected meta-item format `list`;
7 => Explicit(7)"#;

const PRESERVED: &str = r#"a = "b + c" => "b + c"
a = b + c => b + c
a = 7 => 7
"b" => 0..3 Unexpected type `string`;
a => 0..1 Unexpected meta-item format `word`;
// preserved_str_expr_from_meta
from_kind test = "Hello, world!" => "Hello, world!""#;

const CALLABLE: &str = r#"a = b::c => b :: c
a = |b| b + c => | b | b + c
a = "b::c" => b :: c
a = "b c" => 4..9 must be a path if it's a string: expected a path;
a = 7 => 4..5 Unexpected type `lit`;
a = b() => 4..7 Unexpected type `call`;
"b" => 0..3 Unexpected type `string`;
a => 0..1 Unexpected meta-item format `word`;"#;

// An item that is asked by itself stands as a whole; one that is asked by its kind stands where its value does.
const SPANNED: &str = "from_kind a => true @ 0..1
from_kind a = false => false @ 4..9
from_kind true => true @ 0..4
a => true @ 0..1
a = false => false @ 0..9
true => true @ 0..4
from_expr true => true @ 0..4
from_kind a() => 0..3 Unexpected meta-item format `list`;
a = 1 => 4..5 Unexpected type `int`;
a = b c => 4..5 expected an expression;
from_word => - Unexpected meta-item format `word`;
from_bool true => - Unexpected type `bool`;
from_none => nothing";

const SPANNED_LIST: &str = "from_kind a(b, c::d) => b;c::d; @ 2..9
from_kind a() =>  @ nowhere
a(b, c::d) => b;c::d; @ 0..10
from_kind a(b = 1) => 2..7 Unexpected type `non-word`;";

const WITH_ORIGINAL: &str = r#"from_kind a => true of a
from_kind a = false => false of a = false
a = "true" => true of a = "true"
from_kind a = 1 => 4..5 Unexpected type `int`;
true => 0..4 Unexpected type `bool`;
from_word => - Unexpected meta-item format `word`;
from_none => nothing"#;

const IGNORED: &str = "from_kind a => ignored
from_kind a = 1 => ignored
a(=> 7 8) => ignored
true => 0..4 Unexpected type `bool`;
a = b c => 4..5 expected an expression;
from_word => - Unexpected meta-item format `word`;
from_list => - Unexpected meta-item format `list`;
from_none => nothing";

const DEFAULT: &str = r#"from_kind a => Trait @ 0..1
a => Trait @ 0..1
from_kind a = b::c => b :: c
from_kind a = |b| c => | b | c
from_kind a = "b::c" => b :: c
from_kind a = "b c" => 4..9 must be a path if it's a string: expected a path;
from_kind a = 7 => 4..5 Unexpected type `lit`;
from_kind a(b) => 0..4 Unexpected meta-item format `list`;
from_kind "b" => 0..3 Unexpected type `string`;
from_expr b::c => b :: c
from_expr b + c => 0..5 Unexpected type `binary`;
from_word => - Unexpected meta-item format `word`;
from_none => nothing"#;

const FORWARD: &str = "from_kind a => All
from_kind a(b, c::d) => b;c::d;
from_kind a() => none
from_kind a(b = 1) => 2..7 Unexpected type `non-word`;
from_kind a = b => 4..5 Unexpected type `path`;
from_word => All
from_list => none
from_none => nothing";

/// A type with the defaults alone, none of whose values are shown.
#[derive(Debug, Drop)]
struct Unread;

impl FromMeta for Unread {
    ghost use Rattle.meta_core.specs.Cells.{no_cells};

    ghost Seen = { Unit {0} };

    ghost seen = { λ it. tt };

    ghost cells = { no_cells };

    fn cell(_alloc: Global, _call: Call<'_>) -> Answer<Option<Unread>> {
        Ok(None)
    }
}

// What stands alone has no place.
const DEFAULTS: &str = r#"a => 0..1 Unexpected meta-item format `word`;
a(b) => 0..4 Unexpected meta-item format `list`;
a(=) => 2..3 expected a meta list;
a(b = #[c]) => 6..7 unexpected attribute inside of attribute;
a = "b" => 4..7 Unexpected type `string`;
a = 'b' => 4..7 Unexpected type `char`;
a = true => 4..8 Unexpected type `bool`;
a = b"b" => 4..8 Unexpected type `byte string`;
a = b'b' => 4..8 Unexpected type `byte`;
a = -1 => 4..6 Unexpected type `int`;
a = 1.5 => 4..7 Unexpected type `float`;
a = b::c => 4..8 Unexpected type `path`;
a = [b] => 4..7 Unexpected type `array`;
a = [b; 2] => 4..10 Unexpected type `repeat`;
a = (b, c) => 4..10 Unexpected type `tuple`;
a = (b) => 4..7 Unexpected type `paren`;
a = *b => 4..6 Unexpected type `unary`;
a = &b => 4..6 Unexpected type `reference`;
a = b + c => 4..9 Unexpected type `binary`;
a = b(c) => 4..8 Unexpected type `call`;
a = b.c() => 4..9 Unexpected type `method_call`;
a = b.c => 4..7 Unexpected type `field`;
a = b[c] => 4..8 Unexpected type `index`;
a = b? => 4..6 Unexpected type `try`;
a = b..c => 4..8 Unexpected type `range`;
a = |b| c => 4..9 Unexpected type `closure`;
a = {b} => 4..7 Unexpected type `block`;
a = _ => 4..5 Unexpected type `infer`;
a = pub(b) => 4..7 expected an expression;
a = => 2..3 expected an expression;
"b" => 0..3 Unexpected type `string`;
1 => 0..1 Unexpected type `int`;
from_none => nothing
from_word => - Unexpected meta-item format `word`;
from_list => - Unexpected meta-item format `list`;
from_string b => - Unexpected type `string`;
from_char b => - Unexpected type `char`;
from_bool true => - Unexpected type `bool`;"#;

const IDENT_STRING: &str = r#"from_kind a = b => b
from_kind a = "r#type" => r#type
from_kind a = "b c" => 4..9 Unknown value: `b c`;
from_kind a = b::c => 4..8 Unexpected type `path`;
from_kind a = 7 => 4..5 Unexpected type `int`;
from_kind a(b) => 0..4 Unexpected meta-item format `list`;
from_kind a => 0..1 Unexpected meta-item format `word`;
from_string b => - Unexpected type `string`;"#;

#[test]
fn wrappers_and_results(rt: HostRuntime) -> Tested<()> {
    let alloc = rt.alloc();
    rows::<Option<bool>, Debugged>(alloc, &[OPTION])?;
    rows::<Option<()>, Debugged>(alloc, &[LIST_REFUSED])?;
    rows::<Option<Option<Boxed<u8>>>, Debugged>(
        alloc,
        &["a = 7 => Some(Some(Boxed { place: 7 }))"],
    )?;
    rows::<Boxed<bool>, Boxed<Debugged>>(alloc, &[BOXED])?;
    rows::<Boxed<()>, Boxed<Debugged>>(alloc, &["from_list => ()"])?;
    rows::<Boxed<Option<bool>>, Boxed<Debugged>>(alloc, &["from_none => None"])?;
    rows::<Result<bool, Error>, Result<Debugged, Own>>(alloc, &[RESULT])?;
    rows::<Result<bool, Meta>, Result<Debugged, Printed>>(alloc, &[RESULT_META])?;
    rows::<Result<(), Error>, Result<Debugged, Own>>(alloc, &[UNIT_RESULT])?;
    rows::<Result<(), Meta>, Result<Debugged, Printed>>(alloc, &[LIST_REFUSED])?;
    rows::<Result<Option<bool>, Error>, Result<Debugged, Own>>(alloc, &["from_none => Ok None"])?;
    rows::<Result<Option<bool>, Meta>, Result<Debugged, Printed>>(
        alloc,
        &["from_none => nothing"],
    )?;
    Ok(())
}

#[test]
fn types_of_util_and_options(rt: HostRuntime) -> Tested<()> {
    let alloc = rt.alloc();
    rows::<Flag, Own>(alloc, &[FLAG])?;
    rows::<Override<u8>, Debugged>(alloc, &[OVERRIDE])?;
    rows::<Override<bool>, Debugged>(alloc, &["a => Inherit\na = false => Explicit(false)"])?;
    rows::<Override<()>, Debugged>(alloc, &["a => Inherit\na() => Explicit(())"])?;
    rows::<PreservedStrExpr, Printed>(alloc, &[PRESERVED])?;
    rows::<Callable, Printed>(alloc, &[CALLABLE])?;
    rows::<IdentString, Printed>(alloc, &[IDENT_STRING])?;
    rows::<SpannedValue<bool>, SpannedValue<Debugged>>(alloc, &[SPANNED])?;
    rows::<SpannedValue<PathList>, SpannedValue<Own>>(alloc, &[SPANNED_LIST])?;
    rows::<WithOriginal<bool, Meta>, WithOriginal<Debugged, Printed>>(alloc, &[WITH_ORIGINAL])?;
    rows::<Ignored, Own>(alloc, &[IGNORED])?;
    rows::<DefaultExpression, Own>(alloc, &[DEFAULT])?;
    rows::<ForwardAttrsFilter, Own>(alloc, &[FORWARD])?;
    rows::<Unread, Debugged>(alloc, &[DEFAULTS])
}
