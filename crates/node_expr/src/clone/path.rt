//! Clones of paths and their arguments.

ghost use Rattle.std.specs.Prelude.{◌≡◌, IfOk};

use crate::clone::generics::clone_bounds;
use crate::clone::ty::{clone_boxed_type, clone_types};
use crate::path::{GenericArgument, Path, PathArguments, PathSegment, QSelf};
use base_core::{Items, Mem, TryClone};
use std::alloc::Global;

impl TryClone for Path {
    #[cycle(clone)]
    fn try_clone(&self, alloc: Global) -> Mem<Path> {
        Ok(Path {
            leading_colon: self.leading_colon,
            segments: clone_segments(alloc, &self.segments)?,
            span: self.span,
        })
    }
}

impl TryClone for PathSegment {
    #[cycle(clone)]
    fn try_clone(&self, alloc: Global) -> Mem<PathSegment> {
        Ok(PathSegment {
            ident: self.ident.try_clone(alloc)?,
            arguments: self.arguments.try_clone(alloc)?,
            span: self.span,
        })
    }
}

impl TryClone for PathArguments {
    #[cycle(clone)]
    fn try_clone(&self, alloc: Global) -> Mem<PathArguments> {
        match self {
            PathArguments::None => Ok(PathArguments::None),
            PathArguments::AngleBracketed(arguments) => {
                let arguments = clone_generic_arguments(alloc, arguments)?;
                Ok(PathArguments::AngleBracketed(arguments))
            }
            PathArguments::Parenthesized {
                inputs,
                output,
                span,
            } => Ok(PathArguments::Parenthesized {
                inputs: clone_types(alloc, inputs)?,
                output: output.try_clone(alloc)?,
                span: *span,
            }),
        }
    }
}

impl TryClone for GenericArgument {
    #[cycle(clone)]
    fn try_clone(&self, alloc: Global) -> Mem<GenericArgument> {
        match self {
            GenericArgument::Lifetime(it) => Ok(GenericArgument::Lifetime(it.try_clone(alloc)?)),
            GenericArgument::Ty(ty) => Ok(GenericArgument::Ty(ty.try_clone(alloc)?)),
            GenericArgument::Const(expr) => Ok(GenericArgument::Const(expr.try_clone(alloc)?)),
            GenericArgument::AssocType { ident, ty, span } => Ok(GenericArgument::AssocType {
                ident: ident.try_clone(alloc)?,
                ty: ty.try_clone(alloc)?,
                span: *span,
            }),
            GenericArgument::AssocConst { ident, value, span } => Ok(GenericArgument::AssocConst {
                ident: ident.try_clone(alloc)?,
                value: value.try_clone(alloc)?,
                span: *span,
            }),
            GenericArgument::Constraint {
                ident,
                bounds,
                span,
            } => Ok(GenericArgument::Constraint {
                ident: ident.try_clone(alloc)?,
                bounds: clone_bounds(alloc, bounds)?,
                span: *span,
            }),
        }
    }
}

impl TryClone for QSelf {
    #[cycle(clone)]
    fn try_clone(&self, alloc: Global) -> Mem<QSelf> {
        Ok(QSelf {
            ty: clone_boxed_type(alloc, &self.ty)?,
            position: self.position,
            span: self.span,
        })
    }
}

#[cycle(clone)]
pub(super) fn clone_qself(alloc: Global, qself: &Option<QSelf>) -> Mem<Option<QSelf>>
    ensures { IfOk result (λ copy. copy ≡ qself.now) }
{
    match qself {
        Some(qself) => Ok(Some(qself.try_clone(alloc)?)),
        None => Ok(None),
    }
}

#[cycle(clone)]
pub(super) fn clone_generic_arguments(
    alloc: Global,
    arguments: &Items<GenericArgument>,
) -> Mem<Items<GenericArgument>>
    ensures { IfOk result (λ copies. copies ≡ arguments.now) }
{
    let mut copies = Items::new(alloc);
    for argument in arguments.as_slice() {
        let copy = argument.try_clone(alloc)?;
        copies.push(copy)?;
    }
    Ok(copies)
}

#[cycle(clone)]
fn clone_segments(alloc: Global, segments: &Items<PathSegment>) -> Mem<Items<PathSegment>>
    ensures { IfOk result (λ copies. copies ≡ segments.now) }
{
    let mut copies = Items::new(alloc);
    for segment in segments.as_slice() {
        let copy = segment.try_clone(alloc)?;
        copies.push(copy)?;
    }
    Ok(copies)
}
