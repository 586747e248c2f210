//! The type in `Option<T>`, of which a type knows the name alone: `use Vec as Option` is not seen through.

ghost use Rattle.std.specs.Prelude.{◌≡◌, IfOk, option_map, option_and_then};
ghost use Rattle.std.specs.Option.{option_copied};
ghost use Rattle.error_core.specs.Answers.{Answers};
ghost use Rattle.error_core.specs.ErrorView.{One};
ghost use Rattle.node_expr.specs.declared.path.PathArguments.{out-PathArguments};
ghost use Rattle.util_core.specs.ExtractOption as spec;

use base_core::{Items, Mem};
use error_core::{Error, Fail, Result};
use node_expr::{GenericArgument, Path, PathArguments, Type, TypeNever, TypePath};
use node_span::Spanned;
use std::alloc::Global;
use std::mem;
use tok_types::{Ident, Span};

/// The `T` of `Option<T>`, also of `std::option::Option<T>` and of any other path that ends so. Of another type
/// ``expected an `Option` ``, where it stands.
pub fn from_owned(alloc: Global, mut ty: Type) -> Result<Type>
    ensures { Answers (λ it. it) result (spec.extracted ty) }
{
    let span = ty.spanned();
    match take_argument(&mut ty) {
        Some(argument) => Ok(argument),
        None => Err(Fail::Faults(no_option(alloc, span)?)),
    }
}

/// The same of a reference: the `T` in its place.
pub fn from_ref(alloc: Global, ty: &Type) -> Result<&Type>
    ensures { Answers (λ it. it.now) result (spec.extracted ty.now) }
{
    match option_argument(ty) {
        Some(argument) => Ok(argument),
        None => Err(Fail::Faults(no_option(alloc, ty.spanned())?)),
    }
}

/// The same of a place: the `T` in its place, to write there. Of what stands around it no clause speaks. Where the type is no
/// `Option`, it is only looked at.
pub fn from_mut(alloc: Global, ty: &mut Type) -> Result<&mut Type>
    ensures { Answers (λ it. it.now) result (spec.extracted ty.old) }
{
    if option_argument(ty).is_none() {
        return Err(Fail::Faults(no_option(alloc, ty.spanned())?));
    }
    match argument_place(ty) {
        Some(argument) => Ok(argument),
        None => unreachable!(),
    }
}

fn no_option(alloc: Global, span: Span) -> Mem<Error>
    ensures { IfOk result (λ error. error ≡ One (spec.no_option span)) }
{
    Ok(Error::custom(alloc, "expected an `Option`")?.with_span_at(span))
}

fn option_argument(ty: &Type) -> Option<&Type>
    ensures { option_copied result ≡ spec.option_argument ty.now }
{
    let Type::Path(
        TypePath {
            qself: None,
            path,
            ..
        },
    ) = ty
    else {
        return None;
    };
    let segment = path.segments.last()?;
    if !is_option(&segment.ident) {
        return None;
    }
    only_type(&segment.arguments)
}

/// Takes the argument out, and leaves a type that is of no use.
fn take_argument(ty: &mut Type) -> Option<Type>
    ensures { result ≡ spec.option_argument ty.old }
{
    let Type::Path(
        TypePath {
            qself: None,
            path,
            ..
        },
    ) = ty
    else {
        return None;
    };
    let mut segment = path.segments.pop()?;
    if !is_option(&segment.ident) {
        return None;
    }
    take_only_type(&mut segment.arguments)
}

/// The place of the argument.
fn argument_place(ty: &mut Type) -> Option<&mut Type>
    ensures { option_map (λ it. it.now) result ≡ spec.option_argument ty.old }
{
    let Type::Path(ty) = ty else {
        return None;
    };
    if ty.qself.is_some() {
        return None;
    }
    place_in_path(&mut ty.path)
}

fn place_in_path(path: &mut Path) -> Option<&mut Type>
    ensures { option_map (λ it. it.now) result ≡ option_and_then spec.argument_of (spec.last_segment path.old) }
{
    let last = path.segments.len().saturating_sub(1);
    let segment = path.segments.get_mut(last)?;
    if !is_option(&segment.ident) {
        return None;
    }
    place_in_arguments(&mut segment.arguments)
}

/// The place of the type, where it stands alone in angle brackets.
fn place_in_arguments(arguments: &mut PathArguments) -> Option<&mut Type>
    ensures { option_map (λ it. it.now) result ≡ spec.only_type (out-PathArguments arguments.old) }
{
    match arguments {
        PathArguments::AngleBracketed(arguments) => place_of_one(arguments),
        _ => None,
    }
}

fn place_of_one(arguments: &mut Items<GenericArgument>) -> Option<&mut Type>
    ensures { option_map (λ it. it.now) result ≡ spec.one_type arguments.old }
{
    if arguments.len() != 1 {
        return None;
    }
    match arguments.get_mut(0)? {
        GenericArgument::Ty(ty) => Some(ty),
        _ => None,
    }
}

/// Whether the identifier is written `Option`.
fn is_option(ident: &Ident) -> bool
    ensures { result ≡ spec.is_option ident.now }
{
    !ident.raw && ident.text.is("Option")
}

/// The type, where it stands alone in angle brackets.
fn only_type(arguments: &PathArguments) -> Option<&Type>
    ensures { option_copied result ≡ spec.only_type (out-PathArguments arguments.now) }
{
    let PathArguments::AngleBracketed(arguments) = arguments else {
        return None;
    };
    match arguments.as_slice() {
        [GenericArgument::Ty(ty)] => Some(ty),
        _ => None,
    }
}

/// Takes that type out.
fn take_only_type(arguments: &mut PathArguments) -> Option<Type>
    ensures { result ≡ spec.only_type (out-PathArguments arguments.old) }
{
    let PathArguments::AngleBracketed(arguments) = arguments else {
        return None;
    };
    if arguments.len() != 1 {
        return None;
    }
    match &mut arguments.pop()? {
        GenericArgument::Ty(ty) => Some(mem::replace(ty, no_type())),
        _ => None,
    }
}

/// What stands where a type was taken out.
fn no_type() -> Type {
    Type::Never(TypeNever {
        span: Span::CallSite,
    })
}
