//! What a host answers, as a run asks it.

use crate::ask::printed;
use crate::fits::unfit;
use crate::sources::{item_of, items_of, type_of};
use codegen_program::Decls;
use error_fault::fault_line;
use machine_host::{Arg, Host, HostItem, Place, Said, Use};
use machine_value::Value;
use meta_nested::NestedMeta;
use node_core::{Ident, Items, Text};
use run_text::value_text;
use std::alloc::Global;
use std::test::Fail;
use syn_core::{parse_expr, parse_path};
use tests_checks::{Tested, given, kind_of, tokens};
use tok_core::{Span, TryClone};
use util_core::Callable;

/// The answer to a row of this kind.
pub fn answer_of<H: Host>(alloc: Global, host: &H, kind: &str, argument: &str) -> Tested<Text> {
    match kind {
        "offers" => offered(alloc, host, argument),
        "takes" => taken(alloc, host, argument),
        "knows" => known(alloc, host, argument),
        "reads" => read(alloc, host, argument),
        "has a default" => default(alloc, host, argument, false),
        "default" => default(alloc, host, argument, true),
        "fit" | "fit by hand" | "fit of any derive" | "first in the text" => {
            unfit(alloc, host, kind, argument)
        }
        _ => answered(alloc, host, kind, argument),
    }
}

// The types at which functions are asked for. `Shadow` is a declaration.
const TYPES: &str =
    "String, std::string::String, ::std::string::String, u8, u16, u32, u64, u128, usize, i8, i16, i32, i64, i128, isize, NonZeroU8, bool, char, PathBuf, Text, Option<String>, Option<u8>, string::String, r#String, Shadow";

/// The types at which a function is offered: a row `USE CALLABLE => TYPES`, or `all`, or `none`.
fn offered<H: Host>(alloc: Global, host: &H, front: &str) -> Tested<Text> {
    let mut text = Text::new(alloc);
    for ty in TYPES.split(", ") {
        if offers(alloc, host, front, ty)? {
            if !text.is_empty() {
                text.push_str(", ")?;
            }
            text.push_str(ty)?;
        }
    }
    if text.is(TYPES) {
        return Ok(Text::from_str(alloc, "all")?);
    }
    if text.is_empty() {
        text.push_str("none")?;
    }
    Ok(text)
}

fn offers<H: Host>(alloc: Global, host: &H, front: &str, ty: &str) -> Tested<bool> {
    let (at, call) = front.split_once(' ').unwrap_or((front, ""));
    let decls = Decls::new(alloc, items_of(alloc, "struct Shadow {}")?)?;
    let place = place(alloc, at, ty)?;
    let call = callable(alloc, call)?;
    Ok(host.offers(&decls, Some(&call), &place))
}

fn place(alloc: Global, at: &str, ty: &str) -> Tested<Place> {
    let at = use_of(at)?;
    let ty = type_of(alloc, 0, ty)?;
    Ok(Place { at, ty })
}

fn callable(alloc: Global, text: &str) -> Tested<Callable> {
    let call = given(parse_expr(alloc, &tokens(alloc, 0, text)?), text)?;
    Ok(Callable { call })
}

fn use_of(word: &str) -> Tested<Use> {
    match word {
        "with" => Ok(Use::With),
        "map" => Ok(Use::Map),
        "and_then" => Ok(Use::AndThen),
        "default" => Ok(Use::Default),
        "from_word" => Ok(Use::FromWord),
        "from_none" => Ok(Use::FromNone),
        "from_expr" => Ok(Use::FromExpr),
        "attrs" => Ok(Use::Attrs),
        "ident" => Ok(Use::Ident),
        "optional_ident" => Ok(Use::OptionalIdent),
        "body" => Ok(Use::Body),
        "fields" => Ok(Use::Fields),
        "generics" => Ok(Use::Generics),
        "from_ident" => Ok(Use::FromIdent),
        _ => Err(Fail::new(format_args!("{word} is no place"))),
    }
}

/// What a function answers: a row `USE CALLABLE TYPE | ARGUMENT => ANSWER`.
fn answered<H: Host>(alloc: Global, host: &H, kind: &str, argument: &str) -> Tested<Text> {
    let (front, text) = kind_of(argument)?;
    match kind {
        "answers nothing" => ask(alloc, host, front, Arg::Nothing),
        "answers ()" => ask(alloc, host, front, Arg::Value(&Value::Unit)),
        "answers a text" => {
            let value = Value::Text(Text::from_str(alloc, text)?);
            ask(alloc, host, front, Arg::Value(&value))
        }
        "answers a name" => match Ident::new(alloc, text, Span::CallSite) {
            Ok(ident) => ask(alloc, host, front, Arg::Ident(&ident)),
            Err(_) => no_kind_of(text),
        },
        "answers a meta" => {
            let items = metas(alloc, text)?;
            match items.first() {
                Some(NestedMeta::Meta(meta)) => ask(alloc, host, front, Arg::Meta(meta)),
                _ => no_kind_of(text),
            }
        }
        "answers attributes" => {
            let item = item_of(alloc, 0, text)?;
            ask(alloc, host, front, Arg::Attrs(item.attrs.as_slice()))
        }
        _ => no_kind_of(kind),
    }
}

fn no_kind_of(text: &str) -> Tested<Text> {
    Err(Fail::new(format_args!("{text} is of no kind")))
}

fn ask<H: Host>(alloc: Global, host: &H, front: &str, arg: Arg<'_>) -> Tested<Text> {
    let (at, rest) = front.split_once(' ').unwrap_or((front, ""));
    let (call, ty) = rest.split_once(' ').unwrap_or((rest, ""));
    let place = place(alloc, at, ty)?;
    let call = callable(alloc, call)?;
    let decls = Decls::new(alloc, Items::new(alloc))?;
    let said = host.answer(alloc, &decls, Some(&call), &place, arg)?;
    shown(alloc, said)
}

/// The value, `absent`, or the lines of the faults: of a copy of what is said.
fn shown(alloc: Global, said: Said) -> Tested<Text> {
    match said.try_clone(alloc)?.into_result() {
        Ok(Some(value)) => Ok(value_text(alloc, &value)?),
        Ok(None) => Ok(Text::from_str(alloc, "absent")?),
        Err((fault, more)) => {
            let mut text = fault_line(alloc, &fault)?;
            for other in more.as_slice() {
                text.push_str("; ")?;
                text.push_str(fault_line(alloc, other)?.as_str())?;
            }
            Ok(text)
        }
    }
}

fn metas(alloc: Global, text: &str) -> Tested<Items<NestedMeta>> {
    given(
        NestedMeta::parse_meta_list(alloc, &tokens(alloc, 0, text)?),
        text,
    )
}

/// The type that a function takes: a row `PATH => TYPE`, or `none`.
fn taken<H: Host>(alloc: Global, host: &H, text: &str) -> Tested<Text> {
    let path = given(parse_path(alloc, &tokens(alloc, 0, text)?), text)?;
    match host.takes(&path) {
        Some(ty) => printed(alloc, ty),
        None => Ok(Text::from_str(alloc, "none")?),
    }
}

/// Whether a type is the host's own: a row `TYPE => yes`, or `no`. Such a type has no value where no item is.
fn known<H: Host>(alloc: Global, host: &H, text: &str) -> Tested<Text> {
    let ty = type_of(alloc, 0, text)?;
    if !host.knows(&ty) {
        return Ok(Text::from_str(alloc, "no")?);
    }
    match host.none_of(alloc, &ty)? {
        Some(value) => Ok(value_text(alloc, &value)?),
        None => Ok(Text::from_str(alloc, "yes")?),
    }
}

/// What a `Tag` is read from: a meta, a bad value, or items: a row `ITEMS => ANSWER`.
fn read<H: Host>(alloc: Global, host: &H, text: &str) -> Tested<Text> {
    let ty = type_of(alloc, 0, "Tag")?;
    let items = metas(alloc, text)?;
    let item = match items.as_slice() {
        [NestedMeta::Meta(meta)] => HostItem::Meta(meta),
        [NestedMeta::NameValueInvalidExpr(bad)] => HostItem::Bad(bad),
        items => HostItem::Items(items),
    };
    let said = host.convert(alloc, &ty, item)?;
    shown(alloc, said)
}

// The declarations that defaults are asked of. `Shadow` is a type of the table elsewhere.
const DECLS: &str = "struct Empty {}
struct Limits { min: u8, max: Option<Later> }
struct All { a: bool, b: char, c: String, d: Vec<Later>, e: Flag, f: Override<Later>, g: BTreeMap<String, Later>, h: (), i: PathList }
struct Nested { one: Limits, two: Box<Limits>, three: SpannedValue<Empty> }
struct TagHeld { tag: Tag }
struct Refused { it: Ident }
struct AlsoRefused { one: Empty, two: Refused }
struct Kept { it: Result<u8> }
struct Early { it: Later }
struct Itself { it: Itself }
struct Later { it: u8 }
struct Pair(u8, u8);
struct Nothing;
enum Mode { Fast }
union Both { a: u8 }
struct r#Raw { r#type: u8 }";

/// The default of a type: a row `TYPE => VALUE`, or `none`; other declarations may stand before it, `DECLS | TYPE`.
fn default<H: Host>(alloc: Global, host: &H, argument: &str, is_made: bool) -> Tested<Text> {
    let (decls, ty) = argument.split_once(" | ").unwrap_or((DECLS, argument));
    let decls = Decls::new(alloc, items_of(alloc, decls)?)?;
    let ty = type_of(alloc, 0, ty)?;
    if !host.has_default(&decls, &ty) {
        return Ok(Text::from_str(alloc, "none")?);
    }
    if !is_made {
        return Ok(Text::from_str(alloc, "some")?);
    }
    let made = host.default_of(alloc, &decls, &ty)?;
    Ok(value_text(alloc, &made)?)
}
