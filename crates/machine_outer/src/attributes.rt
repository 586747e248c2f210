//! Attributes that are kept.

ghost use Rattle.std.specs.Prelude.{◌≡◌, IfOk};
ghost use Rattle.std.specs.Option.{option_copied};
ghost use Rattle.error_core.specs.Answers.{Answers};
ghost use Rattle.machine_read.specs.Scopes.{setting_in};
ghost use Rattle.machine_steps.specs.Attributes as spec;

use crate::syntax::{list_value, unread};
use base_core::Mem;
use codegen_program::{Callable, Forward};
use error_core::Result;
use machine_read::{Arg, Host, Setting, Use};
use machine_value::Value;
use meta_entries::is_named;
use node_core::Attribute;
use node_expr::{Path, Type};
use std::alloc::Global;

/// Whether attributes of the path are kept.
pub fn passes(alloc: Global, forward: &Forward, path: &Path) -> Mem<bool>
    ensures { IfOk result (λ it. it ≡ spec.passes forward.now path.now) }
{
    match forward {
        Forward::Nothing => Ok(false),
        Forward::All => Ok(true),
        Forward::Only(names) => is_named(alloc, names.as_slice(), path),
    }
}

/// What a callable makes of the attributes that are kept, for a field of the type. Without one they stand as they are.
pub fn attrs_outcome<H: Host>(
    alloc: Global,
    setting: &Setting<'_, H>,
    with: Option<&Callable>,
    ty: Option<&Type>,
    kept: &[Attribute],
) -> Result<Value>
    ensures { Answers (λ it. it) result
        (spec.attrs_outcome (setting_in H.says setting.now) (option_copied with.entry) (option_copied ty.entry) kept.now) }
{
    let Some(callable) = with else {
        return Ok(list_value(alloc, kept)?);
    };
    match ty {
        Some(ty) => setting.ask(alloc, callable, Use::Attrs, ty, Arg::Attrs(kept)),
        None => unread(alloc),
    }
}
