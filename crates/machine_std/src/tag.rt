//! The type `Tag` of the program's host.

ghost use Rattle.std.specs.Prelude.{◌≡◌, IfOk};
ghost use Rattle.base_core.specs.declared.text.Text.{Text as TextSeen};
ghost use Rattle.error_core.specs.Answers.{Answers};
ghost use Rattle.error_core.specs.ErrorView.{first_leaf, more_leaves};
ghost use Rattle.error_fault.specs.Outcome.{Outcome};
ghost use Rattle.machine_host.specs.Seen.{seen_item};
ghost use Rattle.machine_std.specs.StdSays as spec;

use base_core::{Mem, Text};
use error_core::{Error, Result};
use machine_host::{FromMeta, HostItem, Said};
use machine_rows::is_named;
use machine_value::Value;
use node_expr::Type;
use std::alloc::{AllocError, Global};

/// Whether the type is `Tag`.
pub fn is_tag(ty: &Type) -> bool
    ensures { result ≡ spec.is_tag ty.now }
{
    is_named(ty, "Tag")
}

/// What `Tag` reads of an item: the text that `String` reads.
pub fn read_tag(alloc: Global, item: HostItem<'_>) -> Mem<Said>
    ensures { IfOk result (λ said. said ≡ spec.tag_said (spec.tag_outcome (seen_item item.entry))) }
{
    match item {
        HostItem::Meta(meta) => tag_said(alloc, Text::from_meta(alloc, meta)),
        HostItem::Items(items) => tag_said(alloc, Text::from_list(alloc, items)),
        HostItem::Bad(value) => tag_said(alloc, Text::from_invalid_expr(alloc, value)),
    }
}

fn tag_said(alloc: Global, read: Result<Text>) -> Mem<Said>
    ensures { (outcome : Outcome TextSeen) → Answers (λ it. it) read outcome → IfOk result (λ said. said ≡ spec.tag_said outcome) }
{
    match read {
        Ok(text) => tag_value(alloc, text),
        Err(fail) => match fail.into_error() {
            Some(error) => faults_said(alloc, error),
            None => Err(AllocError),
        },
    }
}

fn tag_value(alloc: Global, text: Text) -> Mem<Said>
    ensures { IfOk result (λ said. said ≡ spec.tag_value text) }
{
    let ty = Text::from_str(alloc, "Tag")?;
    Ok(Said::Given(Value::Host { ty, text }))
}

fn faults_said(alloc: Global, error: Error) -> Mem<Said>
    ensures { IfOk result (λ said. said ≡ Said.Faults (first_leaf error) (more_leaves error)) }
{
    let mut faults = error.into_faults(alloc)?;
    let first = faults.remove(0);
    Ok(Said::Faults(first, faults))
}
