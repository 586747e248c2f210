//! Trees of 256 levels are read and deeper ones refused. A row is `kind | levels | form => answer`: what stands in a
//! form behind its first mark `@`, and behind its third, stands there for each level. What stands around the
//! middle is a level each, or two, and the middle is one.

use crate::told::told;
use std::alloc::Global;
use std::test::Fail;
use tests_checks::{Tested, kind_of, row_of};
use tok_core::Text;

const ROWS: &str = "type | 255 | @& @A@@ => as it stands
type | 256 | @& @A@@ => refused
type | 255 | @* const @A@@ => as it stands
type | 256 | @* const @A@@ => refused
type | 255 | @fn () -> @A@@ => as it stands
type | 256 | @fn () -> @A@@ => refused
type | 255 | @A < @A@ >@ => as it stands
type | 256 | @A < @A@ >@ => refused
type | 127 | @A < B : A < @A@ > >@ => as it stands
type | 128 | @A < B : A < @A@ > >@ => refused
expr | 255 | @- @a@@ => as it stands
expr | 256 | @- @a@@ => refused
expr | 255 | @! @a@@ => as it stands
expr | 256 | @! @a@@ => refused
expr | 255 | @& mut @a@@ => as it stands
expr | 256 | @& mut @a@@ => refused
expr | 255 | @|| @a@@ => as it stands
expr | 256 | @|| @a@@ => refused
expr | 255 | @@a@?@ => read
expr | 256 | @@a@?@ => refused
expr | 255 | @@a@.b@ => read
expr | 256 | @@a@.b@ => refused
expr | 255 | @@a@.b()@ => read
expr | 256 | @@a@.b()@ => refused
expr | 255 | @@a@[0]@ => read
expr | 256 | @@a@[0]@ => refused
expr | 255 | @@a@ + a@ => as it stands
expr | 256 | @@a@ + a@ => refused
item | 300 | # [a = @- @a@@] struct S ; => as it stands
meta | 255 | a = @- @b@@, c => value
meta | 256 | a = @- @b@@, c => bad";

const MANY: &str = "expr | 100000 | @- @a@@ => refused
expr | 100000 | @! @a@@ => refused
expr | 100000 | @& mut @a@@ => refused
expr | 100000 | @|| @a@@ => refused
expr | 100000 | @@a@?@ => refused
expr | 100000 | @@a@.b@ => refused
expr | 100000 | @@a@.b()@ => refused
expr | 100000 | @@a@[0]@ => refused
expr | 100000 | @@a@ + a@ => refused
expr | 1000000 | @&@a@@ => refused
type | 1000000 | @&@a@@ => refused";

/// The form with so many levels.
fn nested(alloc: Global, levels: usize, form: &str) -> Tested<Text> {
    let mut text = Text::new(alloc);
    for (at, part) in form.split('@').enumerate() {
        let times = if at == 1 || at == 3 { levels } else { 1 };
        for _level in 0..times {
            text.push_str(part)?;
        }
    }
    Ok(text)
}

/// How the text is read: the kind of its first meta, or whether its printing is the text.
fn answer(alloc: Global, kind: &str, text: &str) -> Tested<Text> {
    let told = told(alloc, kind, text)?;
    let answer = match told.as_str() {
        told if told.starts_with("refused") => "refused",
        told if kind == "meta" => if told.starts_with("value") {
            "value"
        } else {
            "bad"
        },
        told if told == text => "as it stands",
        _ => "read",
    };
    Ok(Text::from_str(alloc, answer)?)
}

/// Each row is answered so.
fn hold(alloc: Global, rows: &str) -> Tested<()> {
    for row in rows.lines() {
        holds(alloc, row)?;
    }
    Ok(())
}

fn holds(alloc: Global, row: &str) -> Tested<()> {
    let (kind, rest) = kind_of(row)?;
    let (levels, rest) = kind_of(rest)?;
    let (form, expected) = row_of(rest);
    let text = nested(alloc, levels.parse::<usize>().unwrap_or(0), form)?;
    let found = answer(alloc, kind, text.as_str())?;
    if found.is(expected) {
        return Ok(());
    }
    Err(Fail::new(format_args!("{row} is {}", found.as_str())))
}

#[test]
fn trees_of_256_levels_are_read_and_deeper_ones_refused(rt: HostRuntime) -> Tested<()> {
    hold(rt.alloc(), ROWS)
}

#[test]
fn a_chain_of_a_million_marks_is_refused(rt: HostRuntime) -> Tested<()> {
    hold(rt.alloc(), MANY)
}
