//! What statements make of parts of the element. No unit asks for a shape yet or has a field for the body: they are want of memory.

ghost use Rattle.std.specs.Option.{option_copied};
ghost use Rattle.machine_run.specs.Steps.{ChecksShape, ReadsBody};

use base_core::Mem;
use codegen_program::{Callable, ShapeSpec};
use machine_state::Progress;
use std::alloc::AllocError;
use tok_types::Ident;

/// Looks at the shape of the element.
pub(crate) fn check_shape(shapes: &ShapeSpec, progress: Progress) -> Mem<Progress>
    ensures { ChecksShape shapes.now progress result }
{
    match shapes {
        ShapeSpec::Any => Ok(progress),
        _ => Err(AllocError),
    }
}

/// Reads the body into the field.
pub(crate) fn read_body(
    ident: Option<&Ident>,
    _with: Option<&Callable>,
    progress: Progress,
) -> Mem<Progress>
    ensures { ReadsBody (option_copied ident.entry) (option_copied _with.entry) progress result }
{
    match ident {
        None => Ok(progress),
        Some(_) => Err(AllocError),
    }
}
