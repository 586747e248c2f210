//! Statements as short texts: the kind, with the slot or the name that it has.

use base_index::Tally;
use codegen_program::{Arm, Program, Rest, Stmt};
use node_core::{Mem, Text};
use std::alloc::Global;
use std::test::Fail;
use tests_checks::Tested;

/// The statements of the one function of the last unit. The unit has the usual path to `darling`.
pub fn of_last(alloc: Global, program: &Program) -> Tested<Text> {
    Ok(shown_stmts(alloc, last_stmts(program)?)?)
}

fn last_stmts(program: &Program) -> Tested<&[Stmt]> {
    let Some(unit) = program.units.last() else {
        return Err(Fail::new(format_args!("it has no unit")));
    };
    let [func] = unit.funcs.as_slice() else {
        return Err(Fail::new(format_args!("it has other functions")));
    };
    if unit.krate.is_some() {
        return Err(Fail::new(format_args!("it has another path to darling")));
    }
    Ok(func.stmts.as_slice())
}

/// The place of the first arm of the name in the last unit, or `none`, and how often names were compared.
pub fn looked_up(alloc: Global, program: &Program, name: &str) -> Tested<Text> {
    for stmt in last_stmts(program)? {
        if let Stmt::ForItems { arms, .. } = stmt {
            let mut tally = Tally::new();
            let mut text = match arms.find(name, &mut tally) {
                Some(place) => Text::from_str(alloc, format!(in alloc; "{place}")?.as_str())?,
                None => Text::from_str(alloc, "none")?,
            };
            text.push_str(format!(in alloc; ", {} compared", tally.count())?.as_str())?;
            return Ok(text);
        }
    }
    Err(Fail::new(format_args!("it takes no items")))
}

/// The statements, each with `; ` behind it.
fn shown_stmts(alloc: Global, stmts: &[Stmt]) -> Mem<Text> {
    let mut text = Text::new(alloc);
    for stmt in stmts {
        match stmt {
            Stmt::ForAttributes { names, items, .. } => {
                text.push_str("at ")?;
                push_names(names.as_slice(), &mut text)?;
                for item in items.as_slice() {
                    push_stmt(alloc, item, &mut text)?;
                }
            }
            other => push_stmt(alloc, other, &mut text)?,
        }
        text.push_str("; ")?;
    }
    Ok(text)
}

fn push_stmt(alloc: Global, stmt: &Stmt, text: &mut Text) -> Mem<()> {
    match stmt {
        Stmt::DeclareErrors => text.push_str("errors"),
        Stmt::DeclareOne { slot, .. } => push_number(alloc, "one ", *slot, text),
        Stmt::DeclareMany { slot, .. } => push_number(alloc, "many ", *slot, text),
        Stmt::DeclareBuffer => text.push_str("buffer"),
        Stmt::ForAttributes { .. } => text.push_str("attributes"),
        Stmt::ForItems { arms, rest } => {
            for arm in arms.as_slice() {
                push_arm(alloc, arm, text)?;
            }
            push_rest(rest, text)
        }
        Stmt::ReadFlatten { slot, names } => {
            push_number(alloc, "flatten ", *slot, text)?;
            text.push_str(" ")?;
            push_names(names.as_slice(), text)
        }
        Stmt::CheckMissing { slot, name, .. } => {
            push_number(alloc, "check ", *slot, text)?;
            text.push_str(" ")?;
            text.push_str(name.as_str())
        }
        Stmt::CheckErrors { .. } => text.push_str("finish"),
        Stmt::SetDefault { .. } => text.push_str("default"),
        Stmt::Build {
            forwarded,
            inits,
            ..
        } => {
            text.push_str("build")?;
            for part in forwarded.as_slice() {
                text.push_str(" ")?;
                text.push_str(part.member.text.as_str())?;
            }
            for init in inits.as_slice() {
                text.push_str(" ")?;
                text.push_str(init.member.as_str())?;
                push_number(alloc, "=", init.slot, text)?;
            }
            Ok(())
        }
        Stmt::Transform { .. } => text.push_str("transform"),
        Stmt::CheckShape { .. } => text.push_str("shape"),
        Stmt::ReadBody { .. } => text.push_str("body"),
        _ => text.push_str("none that a unit has yet"),
    }
}

fn push_arm(alloc: Global, arm: &Arm, text: &mut Text) -> Mem<()> {
    text.push_str(arm.name.as_str())?;
    let arrow = if arm.many { "=>>" } else { "=>" };
    push_number(alloc, arrow, arm.slot, text)?;
    text.push_str(" ")
}

fn push_rest(rest: &Rest, text: &mut Text) -> Mem<()> {
    match rest {
        Rest::Buffer => text.push_str("else keep"),
        Rest::Ignore => text.push_str("else nothing"),
        Rest::Unknown(names) => {
            text.push_str("else unknown ")?;
            push_names(names.as_slice(), text)
        }
    }
}

/// The names, each with a blank behind it.
fn push_names(names: &[Text], text: &mut Text) -> Mem<()> {
    for name in names {
        text.push_str(name.as_str())?;
        text.push_str(" ")?;
    }
    Ok(())
}

fn push_number(alloc: Global, before: &str, number: u32, text: &mut Text) -> Mem<()> {
    let digits = format!(in alloc; "{before}{number}")?;
    text.push_str(digits.as_str())
}
