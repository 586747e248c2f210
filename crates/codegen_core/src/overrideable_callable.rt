//! What converts an item.

ghost use Rattle.std.specs.Prelude.{◌≡◌, IfOk};
ghost use Rattle.codegen_core.specs.Defaults as spec;

use base_core::{Mem, TryClone};
use codegen_program::Callable;
use std::alloc::Global;
use tok_types::Span;

/// What converts an item: a callable that the options name, or the field's type.
pub enum OverrideableCallable<'a> {
    Custom(&'a Callable),
    /// The type, which stands here.
    Default(Span),
}

impl<'a> OverrideableCallable<'a> {
    /// The callable that the options name.
    pub(crate) fn to_custom(&self, alloc: Global) -> Mem<Option<Callable>>
        ensures { IfOk result (λ it. it ≡ spec.custom self.now) }
    {
        match self {
            OverrideableCallable::Custom(callable) => Ok(Some(callable.try_clone(alloc)?)),
            OverrideableCallable::Default(_) => Ok(None),
        }
    }
}

impl<'a> Drop for OverrideableCallable<'a> {
    fn drop(self) {
        match self {
            OverrideableCallable::Custom(_) => {}
            OverrideableCallable::Default(_) => {}
        }
    }
}
