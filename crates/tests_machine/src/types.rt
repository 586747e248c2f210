//! Types as rows of the table of conversions.

use crate::ask::printed;
use crate::sources::type_of;
use machine_rows::{Row, element_of, row_of};
use node_core::{
    GenericArgument, Ident, Items, Path, PathArguments, PathSegment, Text, TryClone, Type, TypePath,
};
use std::alloc::Global;
use std::test::Fail;
use tests_checks::{Tested, kind_of};
use tok_core::Span;

/// The row of a type, from the outside inwards. It does not depend on where the type stands, and equals its copy.
pub fn row_text(alloc: Global, decls: &[Ident], text: &str) -> Tested<Text> {
    let row = row_of(alloc, decls, &type_of(alloc, 0, text)?)?;
    let other = row_of(alloc, decls, &type_of(alloc, 1, text)?)?;
    if row.try_clone(alloc)? != row || other != row {
        return Err(Fail::new(format_args!("{text} differs from itself")));
    }
    let mut shown = Text::new(alloc);
    show(alloc, &row, &mut shown)?;
    Ok(shown)
}

fn show(alloc: Global, row: &Row, text: &mut Text) -> Tested<()> {
    show_name(alloc, row, text)?;
    match row {
        Row::Option(inner)
        | Row::Box(inner)
        | Row::Result(inner)
        | Row::ResultMeta(inner)
        | Row::Override(inner)
        | Row::SpannedValue(inner)
        | Row::WithOriginal(inner)
        | Row::HashMap(_, inner)
        | Row::BTreeMap(_, inner)
        | Row::Vec(inner) => show(alloc, inner.get(), text),
        Row::Unit | Row::Leaf(_) | Row::Declared(_) | Row::Host(_) => Ok(()),
    }
}

fn show_name(alloc: Global, row: &Row, text: &mut Text) -> Tested<()> {
    match row {
        Row::Unit => text.push_str("Unit")?,
        Row::Leaf(leaf) => text.push_str(format!(in alloc; "{leaf:?}")?.as_str())?,
        Row::Option(_) => text.push_str("Option ")?,
        Row::Box(_) => text.push_str("Box ")?,
        Row::Result(_) => text.push_str("Result ")?,
        Row::ResultMeta(_) => text.push_str("ResultMeta ")?,
        Row::Override(_) => text.push_str("Override ")?,
        Row::SpannedValue(_) => text.push_str("SpannedValue ")?,
        Row::WithOriginal(_) => text.push_str("WithOriginal ")?,
        Row::HashMap(key, _) => text.push_str(format!(in alloc; "HashMap({key:?}) ")?.as_str())?,
        Row::BTreeMap(key, _) => text.push_str(format!(in alloc; "BTreeMap({key:?}) ")?.as_str())?,
        Row::Vec(_) => text.push_str("Vec ")?,
        Row::Declared(number) => text.push_str(format!(in alloc; "#{number}")?.as_str())?,
        Row::Host(ty) => {
            text.push_str("host ")?;
            text.push_str(printed(alloc, ty)?.as_str())?;
        }
    }
    Ok(())
}

/// The text of a type that is the host's.
pub fn of_host(alloc: Global, text: &str) -> Tested<Text> {
    has_row(alloc, text, "host")?;
    Ok(Text::from_str(alloc, text)?)
}

/// Whether the type has this row, or is the host's.
fn has_row(alloc: Global, text: &str, wanted: &str) -> Tested<()> {
    let found = row_text(alloc, &[], text)?;
    if found.is(wanted) || wanted == "host" && found.as_str().starts_with("host ") {
        return Ok(());
    }
    Err(Fail::new(format_args!("{text} is {}", found.as_str())))
}

/// The row of a type: a row `HOME | TYPE => ROW`. The name stands bare and after its home, with a leading `::` or not,
/// and nowhere else, and with an `x` behind it is of no row.
pub fn row_of_table(alloc: Global, argument: &str) -> Tested<Text> {
    let (home, text) = kind_of(argument)?;
    let told = row_text(alloc, &[], text)?;
    let colons = if home.is_empty() { "" } else { "::" };
    for front in ["", "::"] {
        let bare = format!(in alloc; "{front}{text}")?;
        has_row(alloc, bare.as_str(), told.as_str())?;
        let at_home = format!(in alloc; "{front}{home}{colons}{text}")?;
        has_row(alloc, at_home.as_str(), told.as_str())?;
    }
    let elsewhere = format!(in alloc; "a::{text}")?;
    has_row(alloc, elsewhere.as_str(), "host")?;
    let below = format!(in alloc; "a::{home}{colons}{text}")?;
    has_row(alloc, below.as_str(), "host")?;
    let misspelled = match text.split_once('<') {
        Some((name, arguments)) => format!(in alloc; "{name}x<{arguments}")?,
        None => format!(in alloc; "{text}x")?,
    };
    has_row(alloc, misspelled.as_str(), "host")?;
    Ok(told)
}

fn ident(alloc: Global, text: &str) -> Tested<Ident> {
    match Ident::new(alloc, text, Span::CallSite) {
        Ok(ident) => Ok(ident),
        Err(_) => Err(Fail::new(format_args!("{text} is no identifier"))),
    }
}

/// The names of some declarations.
pub fn beside(alloc: Global) -> Tested<Items<Ident>> {
    names(
        alloc,
        &["Thing", "String", "Option", "r#Ident", "Meta", "Thing"],
    )
}

pub fn names(alloc: Global, texts: &[&str]) -> Tested<Items<Ident>> {
    let mut names = Items::new(alloc);
    for text in texts {
        names.push(ident(alloc, text)?)?;
    }
    Ok(names)
}

/// The row of an `Option` of a type, which no text has around the deepest.
pub fn deeper(alloc: Global, text: &str) -> Tested<Text> {
    let arguments = Items::of(alloc, GenericArgument::Ty(type_of(alloc, 0, text)?))?;
    let segment = PathSegment {
        ident: ident(alloc, "Option")?,
        arguments: PathArguments::AngleBracketed(arguments),
        span: Span::CallSite,
    };
    let path = Path {
        leading_colon: false,
        segments: Items::of(alloc, segment)?,
        span: Span::CallSite,
    };
    let ty = Type::Path(TypePath {
        qself: None,
        path,
        span: Span::CallSite,
    });
    let mut shown = Text::new(alloc);
    show(alloc, &row_of(alloc, &[], &ty)?, &mut shown)?;
    Ok(shown)
}

/// The type of an item of a field of many.
pub fn element(alloc: Global, text: &str) -> Tested<Text> {
    let ty = type_of(alloc, 0, text)?;
    match element_of(&[], &ty) {
        Some(element) => printed(alloc, element),
        None => Ok(Text::from_str(alloc, "none")?),
    }
}
