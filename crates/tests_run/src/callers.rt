//! The proved callers of `uses`, each on short texts: a row TEXT => ANSWER, with ` / ` for each line feed.

ghost use Rattle.std.specs.Prelude.{◌≤◌, length};

use crate::ends::{lines_of, must_end};
use darling_run::fault_line;
use error_core::{Fail as Refusal, Text};
use print_core::ToTokens;
use std::alloc::Global;
use std::test::Fail;
use syn_core::{Data, DeriveInput, Fields, Ident, Items, parse_path};
use tests_checks::{Tested, given, row_of, tokens};
use tok_core::{MAX_LEN, TryClone, to_text};
use uses::{
    Lint, doc_of, fields_of, item_of, lint_of, lint_of_attributes, named_fields, nested_items_of,
    printed_as, type_of, verbosity_of,
};

fn refused(text: &str) -> Tested<Text> {
    Err(Fail::new(format_args!("{text} is refused")))
}

fn told(alloc: Global, kind: &str, text: &str) -> Tested<Text> {
    if text.len() > MAX_LEN {
        return refused(text);
    }
    if kind == "fields" {
        return match fields_of(alloc, text) {
            Ok(names) => names_text(alloc, &names),
            Err(_) => Ok(Text::from_str(alloc, "refused")?),
        };
    }
    if kind == "type" {
        return match type_of(alloc, text) {
            Ok(ty) => Ok(to_text(alloc, &ty.to_token_stream(alloc)?)?),
            Err(_) => Ok(Text::from_str(alloc, "refused")?),
        };
    }
    if kind == "level" {
        return level(alloc, text);
    }
    if kind == "lint" {
        return lint(alloc, text);
    }
    match item_of(alloc, text) {
        Ok(item) => of_item(alloc, kind, &item),
        Err(_) => refused(text),
    }
}

fn names_text(alloc: Global, names: &Items<Ident>) -> Tested<Text> {
    let mut text = Text::new(alloc);
    for name in names.as_slice() {
        name.push_to(&mut text)?;
        text.push(';')?;
    }
    Ok(text)
}

fn of_item(alloc: Global, kind: &str, item: &DeriveInput) -> Tested<Text> {
    match kind {
        "documentation" => Ok(doc_of(alloc, item.attrs.as_slice())?),
        "under another path" => renamed(alloc, item),
        "lint of attributes" => lint_told(alloc, lint_of_attributes(alloc, item.attrs.as_slice())),
        _ => named(alloc, item),
    }
}

/// The first attribute under the path `new`.
fn renamed(alloc: Global, item: &DeriveInput) -> Tested<Text> {
    let name = tokens(alloc, 0, "new")?;
    let path = given(parse_path(alloc, &name), "new")?;
    let Some(attribute) = item.attrs.first() else {
        return refused("an item without attributes");
    };
    let tokens = printed_as(alloc, attribute.try_clone(alloc)?, path)?;
    Ok(to_text(alloc, &tokens)?)
}

/// How many fields of a struct in parentheses have no name.
fn named(alloc: Global, item: &DeriveInput) -> Tested<Text> {
    let Data::Struct(body) = &item.body else {
        return refused("what is no struct");
    };
    let Fields::Unnamed(fields) = &body.fields else {
        return refused("a struct with names");
    };
    let fields = Items::from_slice(alloc, fields.unnamed.as_slice())?;
    match named_fields(alloc, fields) {
        Ok(_) => refused("a field without a name"),
        Err(refusal) => counted(alloc, refusal),
    }
}

fn counted(alloc: Global, refusal: Refusal) -> Tested<Text> {
    match refusal.into_error() {
        Some(error) => Ok(Text::from_str(
            alloc,
            format!(in alloc; "{} faults", error.len())?.as_str(),
        )?),
        None => refused("a call without memory"),
    }
}

/// The level that the one item of a list asks for, or the number of its faults.
fn level(alloc: Global, text: &str) -> Tested<Text>
    requires { length text.now ≤ MAX_LEN }
{
    let Ok(items) = nested_items_of(alloc, text) else {
        return refused(text);
    };
    let [item] = items.as_slice() else {
        return refused(text);
    };
    match verbosity_of(alloc, item) {
        Ok(verbosity) => Ok(Text::from_str(
            alloc,
            format!(in alloc; "{}", verbosity.level)?.as_str(),
        )?),
        Err(refusal) => counted(alloc, refusal),
    }
}

/// The lint that the items of a list are, or its faults, a line each.
fn lint(alloc: Global, text: &str) -> Tested<Text>
    requires { length text.now ≤ MAX_LEN }
{
    let Ok(items) = nested_items_of(alloc, text) else {
        return refused(text);
    };
    lint_told(alloc, lint_of(alloc, items.as_slice()))
}

fn lint_told(alloc: Global, answer: Result<Lint, Refusal>) -> Tested<Text> {
    match answer {
        Ok(lint) => lint_text(alloc, &lint),
        Err(refusal) => fault_lines(alloc, refusal),
    }
}

fn lint_text(alloc: Global, lint: &Lint) -> Tested<Text> {
    let mut text = Text::from_str(alloc, lint.name.as_str())?;
    for name in lint.allowed.as_slice() {
        text.push(',')?;
        text.push_str(name.as_str())?;
    }
    text.push(';')?;
    text.push_str(lint.level.to_string(alloc)?.as_str())?;
    Ok(text)
}

fn fault_lines(alloc: Global, refusal: Refusal) -> Tested<Text> {
    let Some(error) = refusal.into_error() else {
        return refused("a call without memory");
    };
    let mut text = Text::new(alloc);
    for fault in error.into_faults(alloc)?.as_slice() {
        if !text.is_empty() {
            text.push('\n')?;
        }
        text.push_str(fault_line(alloc, fault)?.as_str())?;
    }
    Ok(text)
}

/// Each row's items, behind as many spaces as `#[lint(` is long, have these faults; and the tool says the same of the same items.
fn lint_faults(alloc: Global, table: &str) -> Tested<()> {
    for row in table.lines() {
        let (items, faults) = row_of(row);
        let spaced = format!(in alloc; "       {items}")?;
        has_faults(alloc, "lint", spaced.as_str(), faults)?;
        let item = format!(in alloc; "#[lint({items})] struct S;")?;
        tool_tells(alloc, item.as_str(), faults)?;
    }
    Ok(())
}

/// The attributes of each row's item have these faults, and the tool says the same of the item.
fn attribute_faults(alloc: Global, table: &str) -> Tested<()> {
    for row in table.lines() {
        let (item, faults) = row_of(row);
        has_faults(alloc, "lint of attributes", item, faults)?;
        tool_tells(alloc, item, faults)?;
    }
    Ok(())
}

fn has_faults(alloc: Global, kind: &str, text: &str, faults: &str) -> Tested<()> {
    let told = told(alloc, kind, text)?;
    if told.is(lines_of(alloc, faults)?.as_str()) {
        return Ok(());
    }
    Err(Fail::new(format_args!("{kind}, {text}: {}", told.as_str())))
}

fn tool_tells(alloc: Global, item: &str, faults: &str) -> Tested<()> {
    let text = format!(in alloc; "{LINT}{item}\n")?;
    must_end(alloc, text.as_str(), 0, report_of(alloc, faults)?.as_str())
}

/// What the tool writes of an item with these faults.
fn report_of(alloc: Global, faults: &str) -> Tested<String> {
    let count = faults.split(" / ").count();
    let mut report = format!(in alloc; "err S {count}\n")?;
    for fault in faults.split(" / ") {
        report.push_str("  ")?;
        report.push_str(fault)?;
        report.push('\n')?;
    }
    Ok(report)
}

fn rows(alloc: Global, kind: &str, table: &str) -> Tested<()> {
    for row in table.lines() {
        let (argument, wanted) = row_of(row);
        let told = told(alloc, kind, lines_of(alloc, argument)?.as_str())?;
        if !told.is(lines_of(alloc, wanted)?.as_str()) {
            return Err(Fail::new(format_args!("{kind}, {row}: {}", told.as_str())));
        }
    }
    Ok(())
}

const FIELDS: &str = "struct S { a: u8, r#type: Vec<T> } => a;r#type;
struct S { => refused
fn f() {} => refused";

// The level that an item asks for.
const LEVELS: &str = r#"verbose => 1
verbose = 3 => 3
verbose = "quiet" => 0
verbose = "loud" => 1 faults
verbose = 300 => 1 faults
verbose(3) => 1 faults"#;

// What a lint is read from: a name that has to stand there, names in order, and a level with a default.
const LINTS: &str = r#"name = "n" => n;3
allow = "b", level = 9, name = "n", allow = "a" => n,b,a;9
name = "n", level = "7", => n;7"#;

// Duplicates, unknown names with alternatives, missing fields, literals and bad values, all in one pass.
const LINT_FAULTS: &str =
    r#"nam = "n", allow = 1, "x", allow = "b", allow = 2, level = 300, level = 4 => 7..16 Unknown field: `nam`. Available values: `allow`, `level`, `name` / 26..27 Unexpected type `int` at allow[0] / 29..32 Unexpected meta-item format `literal` / 55..56 Unexpected type `int` at allow[1] / 66..69 number too large to fit in target type at level / 71..80 Duplicate field `level` / - Missing field `name`
name = 5, name = "n" => 14..15 Unexpected type `int` at name / 17..27 Duplicate field `name`
level = , level, allow => 13..14 expected an expression at level / 17..22 Duplicate field `level` / 24..29 Unexpected meta-item format `word` at allow[0] / - Missing field `name`"#;

// The attributes of a lint are read as one list, whatever stands between them.
const LINT_ATTRIBUTES: &str =
    r#"#[lint(name = "n")] #[other(name = 1)] #[lint(allow = "a", level = 7)] struct S; => n,a;7
#[lint] #[lint(allow = "b")] #[lint(name = "n", allow = "a")] struct S; => n,b,a;3"#;

// What is wrong with an attribute stands in its place among the faults of the items.
const ATTRIBUTE_FAULTS: &str =
    r#"#[lint(name = 5)] #[lint = "x"] #[other(y)] #[lint(nam = "n", allow = "b")] #[lint(a b)] #[lint(name = "n", 3)] struct S; => 14..15 Unexpected type `int` at name / 20..30 Name-value arguments are not supported. Use #[lint(...)] / 51..60 Unknown field: `nam`. Available values: `allow`, `level`, `name` / 83..86 expected a meta list / 96..106 Duplicate field `name` / 108..109 Unexpected meta-item format `literal`
#[lint = 1] #[lint(level = 300)] struct S; => 2..10 Name-value arguments are not supported. Use #[lint(...)] / 27..30 number too large to fit in target type at level / - Missing field `name`
#[other(name = "n")] struct S; => - Missing field `name`"#;

// The same receiver as a declaration.
const LINT: &str = r#"#[derive(FromDeriveInput)]
#[darling(attributes(lint))]
struct Lint {
    name: String,
    #[darling(multiple, rename = "allow")] allowed: Vec<String>,
    #[darling(default)] level: u8,
}
%%
"#;

#[test]
fn callers(rt: HostRuntime) -> Tested<()> {
    let alloc = rt.alloc();
    rows(alloc, "fields", FIELDS)?;
    rows(
        alloc,
        "documentation",
        r#"/// One. / #[my(doc)] #[doc = "Two"] struct S; =>  One. / Two / "#,
    )?;
    rows(
        alloc,
        "under another path",
        "#[old(a = 1)] struct S; => # [new (a = 1)]",
    )?;
    rows(alloc, "without names", "struct S(u8, Vec<T>); => 2 faults")?;
    rows(alloc, "type", "&'a [Vec<T>; 8] => & 'a [Vec < T > ; 8]")?;
    rows(alloc, "level", LEVELS)?;
    rows(alloc, "lint", LINTS)?;
    lint_faults(alloc, LINT_FAULTS)?;
    rows(alloc, "lint of attributes", LINT_ATTRIBUTES)?;
    attribute_faults(alloc, ATTRIBUTE_FAULTS)
}
