//! A host of one's own: what its function gives, and the declarations that can be run with it.

use std::alloc::Global;
use std::test::Fail;
use syn_core::parse_items;
use tests_checks::{Tested, given, row_of, tokens};
use tok_core::{MAX_LEN, Text};
use uses_run::{VersionHost, accepts, written};

const DECLARATIONS: &str =
    "#[derive(FromDeriveInput)] #[darling(attributes(my))] struct Opts { #[darling(default = version)] since: String }";

// An item, and what is written of it.
const ITEMS: &str = r#"struct S; => ok S Opts {since: "1.2"}
#[my(since = "1.0")] struct S; => ok S Opts {since: "1.0"}"#;

// A declaration, and whether it can be run: its function is at its place and its type, at another type, another function, and
// a form that no run reads yet.
const ACCEPTED: &str =
    r#"#[derive(FromDeriveInput)] #[darling(attributes(my))] struct A { #[darling(default = version)] a: String } => true
#[derive(FromDeriveInput)] #[darling(attributes(my))] struct A { #[darling(default = version)] a: u8 } => false
#[derive(FromDeriveInput)] #[darling(attributes(my))] struct A { #[darling(with = version)] a: String } => false
#[derive(FromDeriveInput)] #[darling(attributes(my))] struct A { #[darling(default = text::star)] a: String } => true
#[derive(FromDeriveInput)] struct A(String); => false"#;

fn line_of(alloc: Global, item: &str, host: &VersionHost) -> Tested<Text> {
    if item.len() > MAX_LEN {
        return Err(Fail::new(format_args!("the item is too long")));
    }
    match written(alloc, DECLARATIONS, item, host) {
        Ok(text) => Ok(text),
        Err(_) => Err(Fail::new(format_args!("{item} is refused"))),
    }
}

#[test]
fn a_host_of_ones_own(rt: HostRuntime) -> Tested<()> {
    let alloc = rt.alloc();
    let host = VersionHost::new(alloc, "1.2")?;
    for row in ITEMS.lines() {
        let (item, wanted) = row_of(row);
        let line = format!(in alloc; "{wanted}\n")?;
        assert!(rt; line_of(alloc, item, &host)?.is(line.as_str()));
    }
    for row in ACCEPTED.lines() {
        let (text, wanted) = row_of(row);
        let decls = given(parse_items(alloc, &tokens(alloc, 0, text)?), text)?;
        let is_accepted = accepts(alloc, decls.as_slice(), &host).is_ok();
        assert!(rt; is_accepted == (wanted == "true"));
    }
    Ok(())
}
