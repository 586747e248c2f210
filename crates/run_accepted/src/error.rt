//! Why texts can't be run.

ghost use Rattle.std.specs.Prelude.{◌≡◌};
ghost use Rattle.run_accepted.specs.Accepted as spec;

use crate::{CompileFail, Rejected};
use base_core::{Mem, TryClone};
use machine_forms::{Form, Unfit};
use std::alloc::{AllocError, AllocFailed, Global};
use tok_types::Span;

/// Why texts can't be run. Where several of these would fit, the first of this list that does is named, at its first place
/// in the text.
#[derive(Debug, Drop)]
pub enum RunError {
    /// More than 128 delimiters are open at byte `at` of the part, counted from 1.
    TooDeep { part: u32, at: u32 },
    /// The part is no list of items from its byte `at` on.
    Syntax { part: u32, at: u32 },
    /// A form that no run reads yet.
    Unbuilt { span: Span },
    /// Two declarations, or two fields or variants of one body, have one name, or a declaration names a derive twice. The
    /// later of the two stands here.
    DuplicateName { span: Span },
    /// The options of a declaration have faults under a derive.
    Rejected(Rejected),
    /// A form that no run supports.
    Unsupported { form: Form, span: Span },
    /// A type doesn't fit its place.
    UnknownType { span: Span },
    /// The host doesn't offer a function where it would be asked.
    UnknownCallable { span: Span },
    /// The last declaration doesn't derive `FromDeriveInput`, or there is none.
    NoReceiver,
    NoMemory,
}

impl TryClone for RunError {
    fn try_clone(&self, alloc: Global) -> Mem<RunError> {
        match self {
            RunError::TooDeep { part, at } => Ok(RunError::TooDeep {
                part: *part,
                at: *at,
            }),
            RunError::Syntax { part, at } => Ok(RunError::Syntax {
                part: *part,
                at: *at,
            }),
            RunError::Unbuilt { span } => Ok(RunError::Unbuilt { span: *span }),
            RunError::DuplicateName { span } => Ok(RunError::DuplicateName { span: *span }),
            RunError::Rejected(it) => Ok(RunError::Rejected(it.try_clone(alloc)?)),
            RunError::Unsupported { form, span } => Ok(RunError::Unsupported {
                form: *form,
                span: *span,
            }),
            RunError::UnknownType { span } => Ok(RunError::UnknownType { span: *span }),
            RunError::UnknownCallable { span } => Ok(RunError::UnknownCallable { span: *span }),
            RunError::NoReceiver => Ok(RunError::NoReceiver),
            RunError::NoMemory => Ok(RunError::NoMemory),
        }
    }
}

impl From<Unfit> for RunError {
    ghost from_gives = { λ unfit error. error ≡ spec.error_of unfit };

    fn from(unfit: Unfit) -> RunError {
        match unfit {
            Unfit::DuplicateName { span } => RunError::DuplicateName { span },
            Unfit::Unsupported { form, span } => RunError::Unsupported { form, span },
            Unfit::UnknownType { span } => RunError::UnknownType { span },
            Unfit::UnknownCallable { span } => RunError::UnknownCallable { span },
            Unfit::NoReceiver => RunError::NoReceiver,
            Unfit::NoMemory => RunError::NoMemory,
        }
    }
}

impl From<CompileFail> for RunError {
    ghost from_gives = { λ fail error. error ≡ spec.compile_error fail };

    fn from(fail: CompileFail) -> RunError {
        match fail {
            CompileFail::Rejected(it) => RunError::Rejected(it),
            CompileFail::NoMemory => RunError::NoMemory,
        }
    }
}

impl From<AllocError> for RunError {
    ghost use Rattle.run_accepted.specs.declared.error.RunError.TheVariants.{NoMemory};

    ghost from_gives = { λ _ error. error ≡ NoMemory };

    fn from(_error: AllocError) -> RunError {
        RunError::NoMemory
    }
}

impl<T: Drop> From<AllocFailed<T>> for RunError {
    ghost use Rattle.run_accepted.specs.declared.error.RunError.TheVariants.{NoMemory};

    ghost from_gives = { λ _ error. error ≡ NoMemory };

    fn from(_error: AllocFailed<T>) -> RunError {
        RunError::NoMemory
    }
}
