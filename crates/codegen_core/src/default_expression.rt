//! What stands where no item gives a value.

ghost use Rattle.std.specs.Prelude.{◌≡◌, IfOk};
ghost use Rattle.codegen_core.specs.Defaults as spec;

use base_core::{Mem, TryClone};
use codegen_program::{Callable, DefaultSource, Fallback};
use std::alloc::Global;
use tok_types::{Ident, Span};

/// The value of a field, or of a whole receiver, where no item gives one.
pub enum DefaultExpression<'a> {
    /// This member of the receiver's default. It stands at fields alone.
    Inherit(&'a Ident),
    /// `default = path::to::function`, `default = || value()`
    Explicit(&'a Callable),
    /// The default of the type.
    Trait { span: Span },
}

impl<'a> DefaultExpression<'a> {
    /// What a field falls back to.
    pub(crate) fn to_fallback(&self, alloc: Global) -> Mem<Fallback>
        ensures { IfOk result (λ it. it ≡ spec.fallback self.now) }
    {
        match self {
            DefaultExpression::Inherit(ident) => Ok(Fallback::Inherit(ident.try_clone(alloc)?)),
            DefaultExpression::Explicit(callable) => {
                Ok(Fallback::Explicit(callable.try_clone(alloc)?))
            }
            DefaultExpression::Trait { span: _ } => Ok(Fallback::Trait),
        }
    }

    /// What a receiver's default comes from; no receiver inherits.
    pub(crate) fn to_source(&self, alloc: Global) -> Mem<Option<DefaultSource>>
        ensures { IfOk result (λ it. it ≡ spec.source self.now) }
    {
        match self {
            DefaultExpression::Inherit(_) => Ok(None),
            DefaultExpression::Explicit(callable) => {
                Ok(Some(DefaultSource::Explicit(callable.try_clone(alloc)?)))
            }
            DefaultExpression::Trait { span: _ } => Ok(Some(DefaultSource::Trait)),
        }
    }
}

impl<'a> Drop for DefaultExpression<'a> {
    fn drop(self) {
        match self {
            DefaultExpression::Inherit(_) => {}
            DefaultExpression::Explicit(_) => {}
            DefaultExpression::Trait { span: _ } => {}
        }
    }
}
