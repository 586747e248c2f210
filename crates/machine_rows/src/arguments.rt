//! The arguments behind a name.

ghost use Rattle.std.specs.Prelude.{◌≡◌};
ghost use Rattle.machine_rows.specs.Arguments as spec;

use node_expr::{GenericArgument, PathArguments, PathSegment, Type};

/// The arguments behind a name: none, one type, two types, or others.
#[derive(Clone, Copy)]
pub enum Arguments<T> {
    Bare,
    One(T),
    Two(T, T),
    Other,
}

/// The arguments behind the last of the segments.
pub fn last_arguments(segments: &[PathSegment]) -> Arguments<&Type>
    ensures { spec.seen result ≡ spec.last_arguments segments.now }
{
    match segments.last() {
        Some(last) => arguments_in(&last.arguments),
        None => Arguments::Other,
    }
}

fn arguments_in(arguments: &PathArguments) -> Arguments<&Type>
    ensures { spec.seen result ≡ spec.arguments_in arguments.now }
{
    match arguments {
        PathArguments::None => Arguments::Bare,
        PathArguments::AngleBracketed(items) => between(items.as_slice()),
        _ => Arguments::Other,
    }
}

/// The types between angles.
fn between(items: &[GenericArgument]) -> Arguments<&Type>
    ensures { spec.seen result ≡ spec.between items.now }
{
    match items {
        [GenericArgument::Ty(only)] => Arguments::One(only),
        [GenericArgument::Ty(first), GenericArgument::Ty(second)] => Arguments::Two(first, second),
        _ => Arguments::Other,
    }
}
