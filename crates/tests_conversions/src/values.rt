//! Values of `util` and of options that no item is read as, or that are handled by their calls.

use crate::calls::parsed;
use meta_core::{Boxed, FromMetaTag, FromMetaTagAll, Ident, PathList, Span, TryClone};
use node_core::ExprClosure;
use node_expr::Expr;
use options_types::{DefaultExpression, ForwardAttrsFilter, Ignored, SpannedValue, WithOriginal};
use std::alloc::Global;
use std::test::Fail;
use syn_core::{parse_expr, parse_expr_path, parse_path, parse_type};
use tests_checks::{Tested, given, prints, tokens};
use util_core::extract_option::from_mut;
use util_core::{Callable, Flag, Override, PreservedStrExpr};
use util_table::{RenameRule, RenameTable};

#[test]
fn overrides_flags_and_tags(rt: HostRuntime) -> Tested<()> {
    let alloc = rt.alloc();
    let mut given = Override::from(Some(7u8));
    assert!(rt; given.as_ref().is_explicit());
    if let Override::Explicit(value) = given.as_mut() {
        *value = 8;
    }
    assert_eq!(rt; format!(in alloc; "{given}")?.as_str(), "Explicit `8`");
    assert_eq!(rt; given.try_clone(alloc)?.unwrap_or(9), 8);
    assert_eq!(rt; given.unwrap_or_default(), 8);
    assert_eq!(rt;
        format!(in alloc; "{}", Override::<u8>::default())?.as_str(),
        "Inherit"
    );
    assert_eq!(rt; Override::<u8>::Inherit.unwrap_or_else(|| 9), 9);
    assert_eq!(rt; Override::<u8>::Inherit.explicit(), None);
    assert!(rt; !Flag::default().is_present() && Flag::present().is_present());
    assert!(rt; bool::from(Flag::from(true)) && !bool::from(Flag::from(false)));
    let asked = FromMetaTag::<Option<bool>>::new().from_none(alloc)?;
    let unasked = FromMetaTag::<bool>::new().from_none(alloc)?;
    match (
        asked,
        unasked,
        FromMetaTagAll::<Option<bool>>::new().from_none(),
    ) {
        (Some(None), None, None) => Ok(()),
        _ => Err(Fail::new(format_args!("a tag asks another type"))),
    }
}

fn name(alloc: Global, text: &str, span: Span) -> Tested<Ident> {
    match Ident::new(alloc, text, span) {
        Ok(ident) => Ok(ident),
        Err(_) => Err(Fail::new(format_args!("{text} is no identifier"))),
    }
}

const PLACE: Span = Span::At {
    source: 0,
    start: 3,
    end: 5,
};

#[test]
fn values_with_places(rt: HostRuntime) -> Tested<()> {
    let alloc = rt.alloc();
    let mut given = SpannedValue::new(7u8, PLACE);
    *given = 8;
    assert_eq!(rt; *given, 8);
    assert_eq!(rt; *given.as_ref(), 8);
    assert_eq!(rt; given.span(), PLACE);
    let doubled = given.map_ref(|it| *it as u16 * 2);
    assert_eq!(rt; doubled.span(), PLACE);
    assert_eq!(rt; doubled.into_inner(), 16);
    assert_eq!(rt; given.try_clone(alloc)?.into_inner(), 8);
    let copied = given;
    assert_eq!(rt; copied.into_inner(), given.into_inner());
    let none = SpannedValue::<u8>::default();
    assert_eq!(rt; none.span(), Span::CallSite);
    assert_eq!(rt; none.into_inner(), 0);
    let named = SpannedValue::from(name(alloc, "my", PLACE)?);
    assert_eq!(rt; named.span(), PLACE);
    prints(alloc, &named, "my")
}

#[test]
fn copies_and_originals(rt: HostRuntime) -> Tested<()> {
    let alloc = rt.alloc();
    let kept = WithOriginal::new(7u8, name(alloc, "my", PLACE)?);
    assert!(rt; kept == kept.try_clone(alloc)?);
    assert!(rt; kept != WithOriginal::new(8u8, name(alloc, "my", PLACE)?));
    assert!(rt; kept == WithOriginal::new(7u8, name(alloc, "my", Span::CallSite)?));
    assert!(rt; Ignored::default() == Ignored.try_clone(alloc)?);
    let all = ForwardAttrsFilter::All;
    assert!(rt; all == all.try_clone(alloc)?);
    let none = ForwardAttrsFilter::Only(PathList::new(Vec::new(alloc)));
    assert!(rt; none.is_empty() && none != all);
    let word = DefaultExpression::Trait { span: PLACE };
    assert!(rt; matches!(&word.try_clone(alloc)?, DefaultExpression::Trait { .. }));
    let inherited = DefaultExpression::Inherit;
    assert!(rt; matches!(&inherited.try_clone(alloc)?, DefaultExpression::Inherit));
    Ok(())
}

#[test]
fn callables_of_nodes(rt: HostRuntime) -> Tested<()> {
    let alloc = rt.alloc();
    let path = tokens(alloc, 0, "a::b")?;
    let of_path = Callable::from_path(alloc, given(parse_path(alloc, &path), "a::b")?)?;
    let of_expr = Callable::from(given(parse_expr_path(alloc, &path), "a::b")?);
    assert!(rt; of_path == of_expr.try_clone(alloc)?);
    let body = Boxed::new(alloc, of_path.into_expr())?;
    let closure = Callable::from(ExprClosure {
        tokens: tokens(alloc, 0, "|a|")?,
        body,
        span: Span::CallSite,
    });
    prints(alloc, &closure, "| a | a :: b")
}

#[test]
fn expressions_and_types_are_kept(rt: HostRuntime) -> Tested<()> {
    let alloc = rt.alloc();
    let text = tokens(alloc, 0, "\"a\"")?;
    let kept = PreservedStrExpr::from(given(parse_expr(alloc, &text), "a string")?);
    assert!(rt; kept == kept.try_clone(alloc)?);
    prints(alloc, &kept, "\"a\"")?;
    prints(alloc, &Expr::from(kept), "\"a\"")?;
    let text = tokens(alloc, 0, "a::Option<Vec<u8>>")?;
    let mut ty = given(parse_type(alloc, &text), "a type")?;
    let text = tokens(alloc, 0, "[T]")?;
    let other = given(parse_type(alloc, &text), "a type")?;
    if let Ok(place) = from_mut(alloc, &mut ty) {
        *place = other;
    }
    prints(alloc, &ty, "a :: Option < [T] >")
}

#[test]
fn an_empty_table_keeps_names(rt: HostRuntime) {
    let table = RenameTable::empty(rt.alloc());
    assert_eq!(rt; table.named("kebab"), RenameRule::Keep);
    assert_eq!(rt; table.field(RenameRule::Named(0), "a"), "a");
    assert_eq!(rt; table.variant(RenameRule::Keep, "A"), "A");
}

const ROWS: u32 = 100_000;

/// Whether the table has the name of each row.
fn has_all(alloc: Global, table: &RenameTable) -> Tested<()> {
    for at in 0..ROWS {
        let rule = format!(in alloc; "rule{}", at % 100)?;
        let old = format!(in alloc; "old{at}")?;
        let new = format!(in alloc; "new{at}")?;
        if table.field(table.named(rule.as_str()), old.as_str()) != new.as_str() {
            return Err(Fail::new(format_args!("{old} is not {new}")));
        }
    }
    Ok(())
}

/// Each rule has a hundredth of the rows.
#[test]
fn a_large_table_is_read_and_asked(rt: HostRuntime) -> Tested<()> {
    let alloc = rt.alloc();
    let mut text = String::new(alloc);
    for at in 0..ROWS {
        let row = format!(in alloc; "rule{} field old{at} new{at}\n", at % 100)?;
        text.push_str(row.as_str())?;
    }
    match parsed(alloc, text.as_str())? {
        Ok(table) => has_all(alloc, &table),
        Err(fail) => Err(Fail::new(format_args!("{fail}"))),
    }
}
