//! Why a program can't be run.

ghost use Rattle.std.specs.Prelude.{◌≡◌};

use codegen_core::Form;
use std::alloc::{AllocError, AllocFailed};
use tok_types::Span;

/// Why a program can't be run with a host, and the first place that stands against it.
#[derive(Debug, Drop, PartialEq, Eq, thiserror::Error)]
pub enum Unfit {
    /// Two declarations, or two fields or variants of one body, have one name, or a declaration derives a trait twice. The
    /// later of the two stands here.
    #[error("duplicate name")]
    DuplicateName { span: Span },
    #[error("unsupported form")]
    Unsupported { form: Form, span: Span },
    /// A type doesn't fit its place.
    #[error("unknown type")]
    UnknownType { span: Span },
    /// The host doesn't offer a function where it would be asked.
    #[error("unknown callable")]
    UnknownCallable { span: Span },
    /// The last declaration doesn't derive `FromDeriveInput`, or there is none.
    #[error("no receiver")]
    NoReceiver,
    #[error("no memory")]
    NoMemory,
}

impl From<AllocError> for Unfit {
    ghost use Rattle.machine_forms.specs.declared.unfit.Unfit.TheVariants.{NoMemory};

    ghost from_gives = { λ _ unfit. unfit ≡ NoMemory };

    fn from(_error: AllocError) -> Unfit {
        Unfit::NoMemory
    }
}

impl<T: Drop> From<AllocFailed<T>> for Unfit {
    ghost use Rattle.machine_forms.specs.declared.unfit.Unfit.TheVariants.{NoMemory};

    ghost from_gives = { λ _ unfit. unfit ≡ NoMemory };

    fn from(_error: AllocFailed<T>) -> Unfit {
        Unfit::NoMemory
    }
}
