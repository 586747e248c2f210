//! The run as a library calls it: the report of two texts, and what its program makes of one more item.

use darling_run::{RenameTable, Report, StdHost, report_text, run_source, value_text};
use machine_core::{Element, Outcome, try_execute};
use std::alloc::Global;
use std::test::Fail;
use tests_checks::{Tested, row_of};
use tok_core::{MAX_LEN, Text};
use uses::item_of;

const DECLARATIONS: &str =
    "#[derive(FromDeriveInput)] #[darling(attributes(my))] struct Lint { name: String, #[darling(default)] level: u8 }";

// An item, and its value.
const ITEMS: &str = r#"#[my(name = "a", level = 2)] struct S; => Lint {name: "a", level: 2}
#[my(name = "b")] struct S; => Lint {name: "b", level: 0}"#;

/// The report of the items.
fn report_of(alloc: Global, items: &str) -> Tested<Report> {
    if items.len() > MAX_LEN {
        return Err(Fail::new(format_args!("the items are too long")));
    }
    let host = StdHost::new(alloc)?;
    let table = RenameTable::empty(alloc);
    match run_source(alloc, DECLARATIONS, items, &table, &host) {
        Ok(report) => Ok(report),
        Err(_) => Err(Fail::new(format_args!("{items} is refused"))),
    }
}

/// The value that the report's program makes of the item.
fn value_by(alloc: Global, report: &Report, item: &str) -> Tested<Text> {
    if item.len() > MAX_LEN {
        return Err(Fail::new(format_args!("the item is too long")));
    }
    let Ok(item) = item_of(alloc, item) else {
        return Err(Fail::new(format_args!("{item} is no item")));
    };
    let host = StdHost::new(alloc)?;
    let element = Element::Input(&item);
    let outcome = try_execute(alloc, &report.program, report.receiver, element, &host)?;
    match outcome.as_ref().and_then(Outcome::value) {
        Some(value) => Ok(value_text(alloc, value)?),
        None => Err(Fail::new(format_args!("there is no value"))),
    }
}

/// Each item has its value in a report, and the program of the first report gives it too.
#[test]
fn a_program_is_kept(rt: HostRuntime) -> Tested<()> {
    let alloc = rt.alloc();
    let first = report_of(alloc, row_of(ITEMS.lines().next().unwrap_or("")).0)?;
    for row in ITEMS.lines() {
        let (item, value) = row_of(row);
        let report = report_of(alloc, item)?;
        let line = format!(in alloc; "ok S {value}\n")?;
        assert!(rt; report_text(alloc, &report)?.is(line.as_str()));
        assert!(rt; value_by(alloc, &first, item)?.is(value));
    }
    Ok(())
}
