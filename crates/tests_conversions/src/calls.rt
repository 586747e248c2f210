//! The calls of `util`, a kind of row each.

use crate::asked::{faults, item_of, must_be, told};
use crate::shown::{Debugged, Own, Printed};
use error_core::{Fail as Refusal, Text};
use meta_core::{FromMeta, Ident, NestedMeta, PathList, Span, TryClone};
use node_expr::Type;
use print_core::ToTokens;
use std::alloc::Global;
use std::test::Fail;
use syn_core::{ParseFail, Spanned, parse_derive_input, parse_type};
use tests_checks::{Tested, given, hash, kind_of, row_of, tokens};
use tok_core::{MAX_LEN, to_text};
use util_core::extract_option::{from_mut, from_owned, from_ref};
use util_core::parse_expr::{parse_str_literal, preserve_str_literal};
use util_core::{IdentString, parse_attribute_to_meta_list, parse_callable};
use util_table::{RenameRule, RenameTable, TableFail};

/// Asks each row of a table of one kind.
pub fn rows(alloc: Global, kind: &str, table: &str) -> Tested<()> {
    for row in table.lines() {
        let (argument, wanted) = row_of(row);
        must_be(&answer(alloc, kind, argument)?, row, wanted)?;
    }
    Ok(())
}

fn answer(alloc: Global, kind: &str, argument: &str) -> Tested<Text> {
    match kind {
        "in an option" => in_option(alloc, argument),
        "kept" => value(alloc, argument, true),
        "parsed" => value(alloc, argument, false),
        "attribute" => list_of(alloc, argument),
        "common" => common(alloc, argument),
        "callable" => callable(alloc, argument),
        "new name" => renamed(alloc, argument),
        "names" => compared(alloc, argument),
        "rule" => ruled(alloc, argument),
        _ => by_table(alloc, argument),
    }
}

/// The text of a node.
fn printed<T: ToTokens>(alloc: Global, it: &T) -> Tested<Text> {
    Ok(to_text(alloc, &it.to_token_stream(alloc)?)?)
}

/// The node, or each fault.
fn printed_or<T: ToTokens>(alloc: Global, answer: Result<&T, Refusal>) -> Tested<Text> {
    match answer {
        Ok(node) => printed(alloc, node),
        Err(refusal) => faults(alloc, refusal),
    }
}

fn type_of(alloc: Global, text: &str) -> Tested<Type> {
    let tokens = tokens(alloc, 0, text)?;
    given(parse_type(alloc, &tokens), text)
}

fn place_in(alloc: Global, ty: &mut Type) -> Tested<Text> {
    match from_mut(alloc, ty) {
        Ok(place) => printed(alloc, place),
        Err(refusal) => faults(alloc, refusal),
    }
}

/// The type in an `Option`: lent, in its place and owned.
fn in_option(alloc: Global, text: &str) -> Tested<Text> {
    let mut ty = type_of(alloc, text)?;
    let answer = printed_or(alloc, from_ref(alloc, &ty))?;
    let kept = ty.try_clone(alloc)?;
    must_be(&place_in(alloc, &mut ty)?, text, answer.as_str())?;
    if ty != kept || ty.spanned() != kept.spanned() {
        return Err(Fail::new(format_args!("{text} is changed")));
    }
    must_be(
        &told::<Type, Printed>(alloc, from_owned(alloc, ty))?,
        text,
        answer.as_str(),
    )?;
    Ok(answer)
}

/// The value of a meta, as it stands, or where a string is parsed.
fn value(alloc: Global, text: &str, is_kept: bool) -> Tested<Text> {
    let item = item_of(alloc, text)?;
    let NestedMeta::Meta(meta) = &item else {
        return Err(Fail::new(format_args!("{text} is no meta")));
    };
    if is_kept {
        return told::<_, Printed>(alloc, preserve_str_literal(alloc, meta));
    }
    told::<_, Printed>(alloc, parse_str_literal(alloc, meta))
}

/// The list that the one attribute of an item is.
fn list_of(alloc: Global, text: &str) -> Tested<Text> {
    let tokens = tokens(alloc, 0, text)?;
    let item = given(parse_derive_input(alloc, &tokens), text)?;
    match item.attrs.as_slice() {
        [attr] => told::<_, Printed>(alloc, parse_attribute_to_meta_list(alloc, attr)),
        _ => Err(Fail::new(format_args!("{text} has one attribute"))),
    }
}

fn paths_of(alloc: Global, text: &str) -> Tested<PathList> {
    match PathList::from_nested_meta(alloc, &item_of(alloc, text)?) {
        Ok(list) => Ok(list),
        Err(_) => Err(Fail::new(format_args!("{text} is refused"))),
    }
}

/// What two lists have in common, in the order and number of the first.
fn common(alloc: Global, lists: &str) -> Tested<Text> {
    let (left, right) = kind_of(lists)?;
    let left = paths_of(alloc, left)?;
    let right = paths_of(alloc, right)?;
    let mut paths = Vec::new(alloc);
    for path in left.intersection(&right) {
        paths.push(path.try_clone(alloc)?)?;
    }
    told::<PathList, Own>(alloc, Ok(PathList::new(paths)))
}

/// The callable that the tokens are, or the parser's fault.
fn callable(alloc: Global, text: &str) -> Tested<Text> {
    let tokens = tokens(alloc, 0, text)?;
    match parse_callable(alloc, &tokens) {
        Ok(it) => printed(alloc, it.as_ref()),
        Err(ParseFail::Syn(error)) => Ok(Text::from_str(alloc, error.first.1.as_str())?),
        Err(ParseFail::NoMemory) => Err(Fail::new(format_args!("no memory is left"))),
    }
}

fn name(alloc: Global, text: &str) -> Tested<IdentString> {
    match Ident::new(alloc, text, Span::CallSite) {
        Ok(ident) => Ok(IdentString::new(alloc, ident)?),
        Err(_) => Err(Fail::new(format_args!("{text} is no identifier"))),
    }
}

/// The identifier of the new text, or why there is none.
fn renamed(alloc: Global, new: &str) -> Tested<Text> {
    let text = String::from_str(alloc, new)?;
    match name(alloc, "my")?.map(alloc, move |_old| text) {
        Ok(it) => Ok(Text::from_str(alloc, it.into_string().as_str())?),
        Err(error) => Ok(Text::from_str(alloc, format!(in alloc; "{error}")?.as_str())?),
    }
}

/// Two identifiers: the first as a text, and whether a copy of it is the second, stands before it, or behind.
fn compared(alloc: Global, texts: &str) -> Tested<Text> {
    let (left, right) = kind_of(texts)?;
    let other = name(alloc, right)?;
    let it = name(alloc, left)?.try_clone(alloc)?;
    let order = if it == other && it.is(right) && hash(&it) == hash(&other) {
        "is"
    } else if it < other && !it.is(right) {
        "before"
    } else {
        "behind"
    };
    let bare = it.as_ident().text.as_str();
    let told = format!(in alloc; "{it} {order} {right}, {bare} at {:?}", it.span())?;
    let raw = if it.into_ident().raw { ", raw" } else { "" };
    Ok(Text::from_str(alloc, format!(in alloc; "{told}{raw}")?.as_str())?)
}

/// The rule that an item names.
fn ruled(alloc: Global, text: &str) -> Tested<Text> {
    let Ok(table) = parsed(alloc, TABLE)? else {
        return Err(Fail::new(format_args!("the table is refused")));
    };
    let item = item_of(alloc, text)?;
    match &item {
        NestedMeta::Meta(meta) => told::<_, Debugged>(alloc, table.rule(alloc, meta)),
        _ => Err(Fail::new(format_args!("{text} is no meta"))),
    }
}

const TABLE: &str = "kebab field first_name first-name
snake variant Fast fast
kebab variant Fast fast";

pub fn parsed(alloc: Global, text: &str) -> Tested<Result<RenameTable, TableFail>> {
    if text.len() > MAX_LEN {
        return Err(Fail::new(format_args!("the text is too long")));
    }
    Ok(RenameTable::parse(alloc, text))
}

/// What a copy of a table answers: a row `TABLE | RULE KIND IDENTIFIER => NAME`, or why the text is no table. A rule
/// `#1` is that with the number 1, and a rule of kind `rule` is looked up itself.
fn by_table(alloc: Global, row: &str) -> Tested<Text> {
    let row = exchanged(alloc, row)?;
    let (text, question) = kind_of(row.as_str())?;
    match parsed(alloc, text)? {
        Ok(table) => by_copy(alloc, &table.try_clone(alloc)?, question),
        Err(fail) => exchanged(alloc, format!(in alloc; "{fail}, {fail:?}")?.as_str()),
    }
}

fn by_copy(alloc: Global, table: &RenameTable, question: &str) -> Tested<Text> {
    let (rule, rest) = question.split_once(' ').unwrap_or((question, ""));
    let (kind, identifier) = rest.split_once(' ').unwrap_or((rest, ""));
    let number = match rule.strip_prefix('#') {
        Some(number) => RenameRule::Named(number.parse::<u32>().unwrap_or(0)),
        None => table.named(rule),
    };
    match kind {
        "field" => exchanged(alloc, table.field(number, identifier)),
        "variant" => exchanged(alloc, table.variant(number, identifier)),
        _ => exchanged(alloc, format!(in alloc; "{:?}", table.find(rule))?.as_str()),
    }
}

/// The text with the characters that cannot stand in a row for those that stand for them, and the other way round.
fn exchanged(alloc: Global, text: &str) -> Tested<Text> {
    let mut all = Text::new(alloc);
    for c in text.chars() {
        all.push(match c {
            ';' => '\n',
            '\n' => ';',
            '~' => '\r',
            '\r' => '~',
            '^' => '\t',
            '\t' => '^',
            c => c,
        })?;
    }
    Ok(all)
}
