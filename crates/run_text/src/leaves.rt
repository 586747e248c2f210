//! The texts of values that hold no values, and of the names of those that are held.

ghost use Rattle.std.specs.Prelude.{◌≡◌, ◌++◌, codes, OnOk};
ghost use Rattle.std.specs.List.{join_by};
ghost use Rattle.tok_types.specs.Ascii.{double_quote};
ghost use Rattle.tok_core.specs.Printing.{stream_text};
ghost use Rattle.error_fault.specs.FaultText.{fault_line};
ghost use Rattle.run_text.specs.ValueText.{backquote, quoted, bool_text, int_text, faults_text, host_text};

use crate::quoted::push_quoted;
use base_core::{Mem, Text};
use error_fault::{Fault, push_fault_line};
use std::alloc::Global;
use tok_core::to_text;
use tok_types::TokenStream;

/// `true` or `false`
pub(crate) fn push_bool(out: &mut Text, it: bool) -> Mem<()>
    ensures { OnOk result (out.new ≡ out.old ++ bool_text it) }
{
    if it {
        out.push_str("true")
    } else {
        out.push_str("false")
    }
}

/// `-5`
pub(crate) fn push_int(alloc: Global, out: &mut Text, negative: bool, digits: u128) -> Mem<()>
    ensures { OnOk result (out.new ≡ out.old ++ int_text negative digits) }
{
    if negative {
        out.push_str("-")?;
    }
    let digits = digits.to_string(alloc)?;
    out.push_str(digits.as_str())
}

/// The text of the tokens between backquotes.
pub(crate) fn push_tokens(alloc: Global, out: &mut Text, tokens: &TokenStream) -> Mem<()>
    ensures { OnOk result (out.new ≡ out.old ++ quoted backquote (stream_text tokens.now)) }
{
    let text = to_text(alloc, tokens)?;
    push_quoted(out, '`', text.as_str())
}

/// `faults[F; F]`, where each `F` is the line of a fault.
pub(crate) fn push_faults(alloc: Global, out: &mut Text, faults: &[Fault]) -> Mem<()>
    ensures { OnOk result (out.new ≡ out.old ++ faults_text faults.now) }
{
    out.push_str("faults[")?;
    push_fault_lines(alloc, out, faults)?;
    out.push_str("]")
}

pub fn push_fault_lines(alloc: Global, out: &mut Text, faults: &[Fault]) -> Mem<()>
    ensures { OnOk result (out.new ≡ out.old ++ join_by fault_line (codes "; ") faults.now) }
{
    let [first, others @ ..] = faults else {
        return Ok(());
    };
    push_fault_line(alloc, out, first)?;
    for fault in others {
        out.push_str("; ")?;
        push_fault_line(alloc, out, fault)?;
    }
    Ok(())
}

/// `host(Ty, "text")`
pub(crate) fn push_host(out: &mut Text, ty: &Text, text: &Text) -> Mem<()>
    ensures { OnOk result (out.new ≡ out.old ++ host_text ty.now text.now) }
{
    out.push_str("host(")?;
    out.push_str(ty.as_str())?;
    out.push_str(", ")?;
    push_quoted(out, '"', text.as_str())?;
    out.push_str(")")
}

/// `"key": `
pub(crate) fn push_key(out: &mut Text, key: &Text) -> Mem<()>
    ensures { OnOk result (out.new ≡ out.old ++ (quoted double_quote key.now ++ codes ": ")) }
{
    push_quoted(out, '"', key.as_str())?;
    out.push_str(": ")
}

/// `name: `
pub(crate) fn push_label(out: &mut Text, name: &Text) -> Mem<()>
    ensures { OnOk result (out.new ≡ out.old ++ (name.now ++ codes ": ")) }
{
    out.push_str(name.as_str())?;
    out.push_str(": ")
}
