//! Collecting all faults of an input in one pass.

ghost use Rattle.std.specs.Prelude.{◌≡◌, ◌++◌, IfOk, OnOk, flat_map};
ghost use Rattle.error_core.specs.Answers.{Answers};
ghost use Rattle.error_core.specs.Outcome.{Value, settle};
ghost use Rattle.error_core.specs.ErrorView.{held};
ghost use Rattle.uses.specs.Faults as spec;

use error_core::{Accumulator, Error, Fail, Result};
use std::alloc::Global;
use syn_core::{Field, Items, Mem, Span};

/// The fields, where each has a name; else a fault for each that has none, at its place.
pub fn named_fields(alloc: Global, fields: Items<Field>) -> Result<Items<Field>>
    ensures { Answers (λ value. value) result (settle (held (flat_map spec.error_in fields)) (Value fields)) }
{
    let mut errors = Error::accumulator(alloc);
    match collect(alloc, fields.as_slice(), &mut errors) {
        Ok(()) => errors.finish_with(fields),
        Err(_) => {
            let _errors = errors.into_inner();
            Err(Fail::NoMemory)
        }
    }
}

/// Puts an error for each field without a name behind the others.
fn collect(alloc: Global, fields: &[Field], errors: &mut Accumulator) -> Mem<()>
    ensures { OnOk result (errors.new ≡ errors.old ++ flat_map spec.error_in fields.now) }
{
    for field in fields {
        check(alloc, field, errors)?;
    }
    Ok(())
}

/// Puts the error of the field behind the others, where it has no name.
fn check(alloc: Global, field: &Field, errors: &mut Accumulator) -> Mem<()>
    ensures { OnOk result (errors.new ≡ errors.old ++ spec.error_in field.now) }
{
    if field.ident.is_some() {
        return Ok(());
    }
    let error = unnamed(alloc, field.span)?;
    errors.push(alloc, error)?;
    Ok(())
}

fn unnamed(alloc: Global, span: Span) -> Mem<Error>
    ensures { IfOk result (λ error. error ≡ spec.unnamed span) }
{
    Ok(Error::custom(alloc, "a field needs a name")?.with_span_at(span))
}
