//! How a run ended.

ghost use Rattle.std.specs.Prelude.{◌≡◌};
ghost use Rattle.darling_run.specs.Status as spec;

use base_core::{Mem, TryClone};
use run_source::{Form, Rejected, RunError};
use std::alloc::{AllocError, Global};
use tok_types::Span;

/// How a run ended. Where several refusals would fit, the first of this list that does is named.
#[derive(Debug, Drop)]
pub enum Status {
    /// The report was written.
    Done,
    /// The words are none of the commands.
    Usage,
    /// The source failed.
    ReadFault,
    /// The source gave more than 16,777,216 bytes.
    TooLong,
    /// The bytes are not UTF-8; `at` is the length of their longest prefix that is.
    NotText { at: u32 },
    /// No line is `%%`, or more than two are.
    NoParts,
    /// The line of the third part, counted from 1, is no row of a table.
    BadTable { line: u32 },
    /// More than 128 delimiters are open at byte `at` of the part, counted from 1.
    TooDeep { part: u32, at: u32 },
    /// The part is no list of items from its byte `at` on.
    Syntax { part: u32, at: u32 },
    /// A form of declarations that no run reads yet.
    Unbuilt { span: Span },
    /// Two declarations, or two fields or variants of one body, have one name, or a declaration names a derive twice. The
    /// later of the two stands here.
    DuplicateName { span: Span },
    /// The options of a declaration have faults under a derive.
    Rejected(Rejected),
    /// A form of declarations that no run supports.
    Unsupported { form: Form, span: Span },
    /// A type doesn't fit its place.
    UnknownType { span: Span },
    /// The host doesn't offer a function where it would be asked.
    UnknownCallable { span: Span },
    /// The last declaration doesn't derive `FromDeriveInput`, or there is none.
    NoReceiver,
    /// The sink failed.
    WriteFault,
    /// Memory ran out before anything was written.
    NoMemory,
}

impl From<AllocError> for Status {
    ghost use Rattle.darling_run.specs.declared.status.Status.TheVariants.{NoMemory};

    ghost from_gives = { λ _ status. status ≡ NoMemory };

    fn from(_error: AllocError) -> Status {
        Status::NoMemory
    }
}

impl From<RunError> for Status {
    ghost from_gives = { λ error status. status ≡ spec.status_of error };

    fn from(error: RunError) -> Status {
        match error {
            RunError::TooDeep { part, at } => Status::TooDeep { part, at },
            RunError::Syntax { part, at } => Status::Syntax { part, at },
            RunError::Unbuilt { span } => Status::Unbuilt { span },
            RunError::DuplicateName { span } => Status::DuplicateName { span },
            RunError::Rejected(it) => Status::Rejected(it),
            RunError::Unsupported { form, span } => Status::Unsupported { form, span },
            RunError::UnknownType { span } => Status::UnknownType { span },
            RunError::UnknownCallable { span } => Status::UnknownCallable { span },
            RunError::NoReceiver => Status::NoReceiver,
            RunError::NoMemory => Status::NoMemory,
        }
    }
}

impl Status {
    /// The number that the program ends with.
    pub fn exit_code(&self) -> u8
        ensures { result ≡ spec.exit_code self.now }
    {
        match self {
            Status::Done => 0,
            Status::Usage => 2,
            Status::TooLong
            | Status::NotText { .. }
            | Status::NoParts
            | Status::BadTable { .. }
            | Status::TooDeep { .. }
            | Status::Syntax { .. }
            | Status::Unbuilt { .. }
            | Status::DuplicateName { .. }
            | Status::Rejected(_)
            | Status::Unsupported { .. }
            | Status::UnknownType { .. }
            | Status::UnknownCallable { .. }
            | Status::NoReceiver => 3,
            Status::ReadFault => 4,
            Status::WriteFault => 5,
            Status::NoMemory => 6,
        }
    }
}

impl TryClone for Status {
    fn try_clone(&self, alloc: Global) -> Mem<Status> {
        match self {
            Status::Done => Ok(Status::Done),
            Status::Usage => Ok(Status::Usage),
            Status::ReadFault => Ok(Status::ReadFault),
            Status::TooLong => Ok(Status::TooLong),
            Status::NotText { at } => Ok(Status::NotText { at: *at }),
            Status::NoParts => Ok(Status::NoParts),
            Status::BadTable { line } => Ok(Status::BadTable { line: *line }),
            Status::TooDeep { part, at } => Ok(Status::TooDeep {
                part: *part,
                at: *at,
            }),
            Status::Syntax { part, at } => Ok(Status::Syntax {
                part: *part,
                at: *at,
            }),
            Status::Unbuilt { span } => Ok(Status::Unbuilt { span: *span }),
            Status::DuplicateName { span } => Ok(Status::DuplicateName { span: *span }),
            Status::Rejected(it) => Ok(Status::Rejected(it.try_clone(alloc)?)),
            Status::Unsupported { form, span } => Ok(Status::Unsupported {
                form: *form,
                span: *span,
            }),
            Status::UnknownType { span } => Ok(Status::UnknownType { span: *span }),
            Status::UnknownCallable { span } => Ok(Status::UnknownCallable { span: *span }),
            Status::NoReceiver => Ok(Status::NoReceiver),
            Status::WriteFault => Ok(Status::WriteFault),
            Status::NoMemory => Ok(Status::NoMemory),
        }
    }
}
