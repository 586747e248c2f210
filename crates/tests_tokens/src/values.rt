//! Texts, lists, boxes, tokens, identifiers and places by themselves: a row is `fact => whether it holds`.

use crate::lex::tokens;
use crate::told::Tested;
use base_core::{Boxed, Items, Mem, Text, TryClone};
use std::alloc::Global;
use std::cmp::Ordering;
use std::collections::HashSet;
use std::fmt::Debug;
use std::hash::Hash;
use std::test::Fail;
use tok_core::{LexError, respan};
use tok_types::{Ident, Span, TokenStream};

pub const ROWS: &str = "a list is its copy => true
a list grows by its copies => true
a text is a longer one => false
a text is before a longer one => true
a box is its copy => true
a box gives its value => true
tokens are those at another place => true
a bare identifier is before a raw one => true
a raw identifier is before a later one => true
places join in one text => true
a place joins none of another text => true
the call site joins no place => true";

pub const HERE: Span = Span::At {
    source: 0,
    start: 3,
    end: 5,
};

fn at(source: u32, start: u32, end: u32) -> Span {
    Span::At { source, start, end }
}

/// The items `a`, `bc` and the empty text.
fn three(alloc: Global) -> Mem<Items<Text>> {
    let mut items = Items::of(alloc, Text::from_str(alloc, "a")?)?;
    let mut second = Text::new(alloc);
    second.push('b')?;
    second.push_str("c")?;
    items.push(second)?;
    items.push(Text::from_string(alloc, String::new(alloc))?)?;
    Ok(items)
}

/// Whether the list, three times itself, has nine items, and is as told once it is cut and turned.
fn grows(alloc: Global, mut items: Items<Text>) -> Mem<bool> {
    items.extend_from_slice(alloc, three(alloc)?.as_slice())?;
    items.append(three(alloc)?)?;
    let grown = items.len() == 9;
    items.truncate(3);
    items.insert(0, Text::from_str(alloc, "d")?)?;
    items.reverse();
    Ok(grown && items.last().is_some_and(|text| text.is("d")))
}

fn ident(alloc: Global, text: &str, raw: bool, span: Span) -> Mem<Ident> {
    let text = Text::from_str(alloc, text)?;
    Ok(Ident { text, raw, span })
}

fn boxed(alloc: Global) -> Mem<Boxed<(Option<char>, u32)>> {
    Boxed::new(alloc, (Some('x'), 5))
}

/// The tokens `(a 'b = "c")`, each at `span`.
fn sample(alloc: Global, span: Span) -> Result<TokenStream, LexError> {
    let mut sample = tokens(alloc, "(a 'b = \"c\")")?;
    respan(&mut sample, span);
    Ok(sample)
}

/// Whether a value equals its copy and the other one, and a set that has it has the other.
fn are_equal<T: TryClone + Eq + Hash + Drop, E: Debug + Drop>(
    alloc: Global,
    one: Result<T, E>,
    other: Result<T, E>,
) -> Tested<bool> {
    let one = one?;
    let copy = one.try_clone(alloc)?;
    let other = other?;
    let equal = copy == one && one == other;
    let mut seen = HashSet::new(alloc);
    seen.insert(one)?;
    Ok(equal && seen.contains(&other))
}

fn is_before<T: Ord + Drop>(one: Mem<T>, other: Mem<T>) -> Tested<bool> {
    let one = one?;
    Ok(one.cmp(&other?) == Ordering::Less)
}

pub fn holds(alloc: Global, fact: &str) -> Tested<bool> {
    match fact {
        "a list is its copy" => are_equal(alloc, three(alloc), three(alloc)),
        "a list grows by its copies" => Ok(grows(alloc, three(alloc)?)?),
        "a text is a longer one" => are_equal(
            alloc,
            Text::from_str(alloc, "a"),
            Text::from_str(alloc, "ab"),
        ),
        "a text is before a longer one" => {
            is_before(Text::from_str(alloc, "a"), Text::from_str(alloc, "ab"))
        }
        "a box is its copy" => are_equal(alloc, boxed(alloc), boxed(alloc)),
        "a box gives its value" => Ok(boxed(alloc)?.into_inner() == (Some('x'), 5)),
        "tokens are those at another place" => {
            are_equal(alloc, sample(alloc, HERE), sample(alloc, Span::CallSite))
        }
        "a bare identifier is before a raw one" => is_before(
            ident(alloc, "a", false, HERE),
            ident(alloc, "a", true, Span::CallSite),
        ),
        "a raw identifier is before a later one" => is_before(
            ident(alloc, "a", true, HERE),
            ident(alloc, "b", false, Span::CallSite),
        ),
        "places join in one text" => Ok(HERE.join(at(0, 8, 9)) == at(0, 3, 9)),
        "a place joins none of another text" => Ok(HERE.join(at(1, 8, 9)) == HERE),
        "the call site joins no place" => Ok(Span::call_site().join(HERE) == Span::CallSite),
        _ => Err(Fail::new(format_args!("{fact} is no fact"))),
    }
}
