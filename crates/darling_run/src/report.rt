//! The lines of a report.

ghost use Rattle.std.specs.Prelude.{◌≡◌, ◌++◌, flat_map, IfOk, OnOk};
ghost use Rattle.tok_types.specs.Ident.{ident_text};
ghost use Rattle.darling_run.specs.Report.{fault_row, ok_line, err_line, outcome_text, report_text};

use base_core::{Mem, Text};
use error_fault::{Fault, push_fault_line};
use machine_value::Value;
use run_source::{Outcome, Report};
use run_text::push_value;
use std::alloc::Global;
use tok_types::Ident;

/// The lines of a report, one or more for each subject; of outcomes and subjects without the other there are none.
pub fn report_text(alloc: Global, report: &Report) -> Mem<Text>
    ensures { IfOk result (λ text. text ≡ report_text report.now.subjects report.now.outcomes) }
{
    let mut text = Text::new(alloc);
    let outcomes = report.outcomes.as_slice().iter();
    for (subject, outcome) in report.subjects.as_slice().iter().zip(outcomes) {
        push_outcome(alloc, &mut text, &subject.ident, outcome)?;
    }
    Ok(text)
}

fn push_outcome(alloc: Global, out: &mut Text, name: &Ident, outcome: &Outcome) -> Mem<()>
    ensures { OnOk result (out.new ≡ out.old ++ outcome_text (ident_text name.now) outcome.now) }
{
    match outcome.value() {
        Some(value) => push_ok_line(alloc, out, name, value),
        None => {
            push_err_line(alloc, out, name, outcome.faults().len())?;
            push_fault_rows(alloc, out, outcome.faults())
        }
    }
}

fn push_ok_line(alloc: Global, out: &mut Text, name: &Ident, value: &Value) -> Mem<()>
    ensures { OnOk result (out.new ≡ out.old ++ ok_line (ident_text name.now) value.now) }
{
    out.push_str("ok ")?;
    name.push_to(out)?;
    out.push_str(" ")?;
    push_value(alloc, out, value)?;
    out.push_str("\n")
}

fn push_err_line(alloc: Global, out: &mut Text, name: &Ident, count: usize) -> Mem<()>
    ensures { OnOk result (out.new ≡ out.old ++ err_line (ident_text name.now) count) }
{
    out.push_str("err ")?;
    name.push_to(out)?;
    out.push_str(" ")?;
    let digits = count.to_string(alloc)?;
    out.push_str(digits.as_str())?;
    out.push_str("\n")
}

fn push_fault_rows(alloc: Global, out: &mut Text, faults: &[Fault]) -> Mem<()>
    ensures { OnOk result (out.new ≡ out.old ++ flat_map fault_row faults.now) }
{
    for fault in faults {
        push_fault_row(alloc, out, fault)?;
    }
    Ok(())
}

fn push_fault_row(alloc: Global, out: &mut Text, fault: &Fault) -> Mem<()>
    ensures { OnOk result (out.new ≡ out.old ++ fault_row fault.now) }
{
    out.push_str("  ")?;
    push_fault_line(alloc, out, fault)?;
    out.push_str("\n")
}
