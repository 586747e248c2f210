//! Clones of types.

ghost use Rattle.std.specs.Prelude.{◌≡◌, IfOk};

use crate::clone::generics::clone_bounds;
use crate::clone::path::clone_qself;
use crate::ty::{
    FnArg, NamedArg, ReturnType, Type, TypeArray, TypeFnPtr, TypeGroup, TypeImplTrait, TypeInfer,
    TypeNever, TypeParen, TypePath, TypePtr, TypeReference, TypeSlice, TypeTraitObject, TypeTuple,
};
use base_core::{Boxed, Items, Mem, TryClone};
use std::alloc::Global;

impl TryClone for Type {
    #[cycle(clone)]
    fn try_clone(&self, alloc: Global) -> Mem<Type> {
        match self {
            Type::Path(ty) => Ok(Type::Path(ty.try_clone(alloc)?)),
            Type::Reference(ty) => Ok(Type::Reference(ty.try_clone(alloc)?)),
            Type::Ptr(ty) => Ok(Type::Ptr(ty.try_clone(alloc)?)),
            Type::Slice(ty) => Ok(Type::Slice(ty.try_clone(alloc)?)),
            Type::Array(ty) => Ok(Type::Array(ty.try_clone(alloc)?)),
            Type::Tuple(ty) => Ok(Type::Tuple(ty.try_clone(alloc)?)),
            Type::Paren(ty) => Ok(Type::Paren(ty.try_clone(alloc)?)),
            Type::Group(ty) => Ok(Type::Group(ty.try_clone(alloc)?)),
            Type::FnPtr(ty) => Ok(Type::FnPtr(ty.try_clone(alloc)?)),
            Type::TraitObject(ty) => Ok(Type::TraitObject(ty.try_clone(alloc)?)),
            Type::ImplTrait(ty) => Ok(Type::ImplTrait(ty.try_clone(alloc)?)),
            Type::Never(ty) => Ok(Type::Never(ty.try_clone(alloc)?)),
            Type::Infer(ty) => Ok(Type::Infer(ty.try_clone(alloc)?)),
        }
    }
}

impl TryClone for TypePath {
    #[cycle(clone)]
    fn try_clone(&self, alloc: Global) -> Mem<TypePath> {
        Ok(TypePath {
            qself: clone_qself(alloc, &self.qself)?,
            path: self.path.try_clone(alloc)?,
            span: self.span,
        })
    }
}

impl TryClone for TypeReference {
    #[cycle(clone)]
    fn try_clone(&self, alloc: Global) -> Mem<TypeReference> {
        Ok(TypeReference {
            lifetime: self.lifetime.try_clone(alloc)?,
            mutable: self.mutable,
            elem: clone_boxed_type(alloc, &self.elem)?,
            span: self.span,
        })
    }
}

impl TryClone for TypePtr {
    #[cycle(clone)]
    fn try_clone(&self, alloc: Global) -> Mem<TypePtr> {
        Ok(TypePtr {
            mutable: self.mutable,
            elem: clone_boxed_type(alloc, &self.elem)?,
            span: self.span,
        })
    }
}

impl TryClone for TypeSlice {
    #[cycle(clone)]
    fn try_clone(&self, alloc: Global) -> Mem<TypeSlice> {
        Ok(TypeSlice {
            elem: clone_boxed_type(alloc, &self.elem)?,
            span: self.span,
        })
    }
}

impl TryClone for TypeArray {
    #[cycle(clone)]
    fn try_clone(&self, alloc: Global) -> Mem<TypeArray> {
        Ok(TypeArray {
            elem: clone_boxed_type(alloc, &self.elem)?,
            len: self.len.try_clone(alloc)?,
            span: self.span,
        })
    }
}

impl TryClone for TypeTuple {
    #[cycle(clone)]
    fn try_clone(&self, alloc: Global) -> Mem<TypeTuple> {
        Ok(TypeTuple {
            elems: clone_types(alloc, &self.elems)?,
            span: self.span,
        })
    }
}

impl TryClone for TypeParen {
    #[cycle(clone)]
    fn try_clone(&self, alloc: Global) -> Mem<TypeParen> {
        Ok(TypeParen {
            elem: clone_boxed_type(alloc, &self.elem)?,
            span: self.span,
        })
    }
}

impl TryClone for TypeGroup {
    #[cycle(clone)]
    fn try_clone(&self, alloc: Global) -> Mem<TypeGroup> {
        Ok(TypeGroup {
            elem: clone_boxed_type(alloc, &self.elem)?,
            span: self.span,
        })
    }
}

impl TryClone for TypeFnPtr {
    #[cycle(clone)]
    fn try_clone(&self, alloc: Global) -> Mem<TypeFnPtr> {
        Ok(TypeFnPtr {
            lifetimes: self.lifetimes.try_clone(alloc)?,
            inputs: clone_named_args(alloc, &self.inputs)?,
            output: self.output.try_clone(alloc)?,
            span: self.span,
        })
    }
}

impl TryClone for TypeTraitObject {
    #[cycle(clone)]
    fn try_clone(&self, alloc: Global) -> Mem<TypeTraitObject> {
        Ok(TypeTraitObject {
            bounds: clone_bounds(alloc, &self.bounds)?,
            span: self.span,
        })
    }
}

impl TryClone for TypeImplTrait {
    #[cycle(clone)]
    fn try_clone(&self, alloc: Global) -> Mem<TypeImplTrait> {
        Ok(TypeImplTrait {
            bounds: clone_bounds(alloc, &self.bounds)?,
            span: self.span,
        })
    }
}

impl TryClone for TypeNever {
    fn try_clone(&self, _alloc: Global) -> Mem<TypeNever> {
        Ok(TypeNever { span: self.span })
    }
}

impl TryClone for TypeInfer {
    fn try_clone(&self, _alloc: Global) -> Mem<TypeInfer> {
        Ok(TypeInfer { span: self.span })
    }
}

impl TryClone for ReturnType {
    #[cycle(clone)]
    fn try_clone(&self, alloc: Global) -> Mem<ReturnType> {
        match self {
            ReturnType::Default => Ok(ReturnType::Default),
            ReturnType::Ty(ty) => Ok(ReturnType::Ty(clone_boxed_type(alloc, ty)?)),
        }
    }
}

impl TryClone for NamedArg {
    #[cycle(clone)]
    fn try_clone(&self, alloc: Global) -> Mem<NamedArg> {
        Ok(NamedArg {
            name: self.name.try_clone(alloc)?,
            ty: self.ty.try_clone(alloc)?,
            span: self.span,
        })
    }
}

impl TryClone for FnArg {
    fn try_clone(&self, alloc: Global) -> Mem<FnArg> {
        Ok(FnArg {
            pat: self.pat.try_clone(alloc)?,
            ty: self.ty.try_clone(alloc)?,
            span: self.span,
        })
    }
}

#[cycle(clone)]
pub(super) fn clone_boxed_type(alloc: Global, ty: &Boxed<Type>) -> Mem<Boxed<Type>>
    ensures { IfOk result (λ copy. copy ≡ ty.now) }
{
    let copy = ty.get().try_clone(alloc)?;
    Boxed::new(alloc, copy)
}

#[cycle(clone)]
pub(super) fn clone_types(alloc: Global, types: &Items<Type>) -> Mem<Items<Type>>
    ensures { IfOk result (λ copies. copies ≡ types.now) }
{
    let mut copies = Items::new(alloc);
    for ty in types.as_slice() {
        let copy = ty.try_clone(alloc)?;
        copies.push(copy)?;
    }
    Ok(copies)
}

#[cycle(clone)]
fn clone_named_args(alloc: Global, args: &Items<NamedArg>) -> Mem<Items<NamedArg>>
    ensures { IfOk result (λ copies. copies ≡ args.now) }
{
    let mut copies = Items::new(alloc);
    for arg in args.as_slice() {
        let copy = arg.try_clone(alloc)?;
        copies.push(copy)?;
    }
    Ok(copies)
}
