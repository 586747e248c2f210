//! Types of one kind, which the parser of types reads.

ghost use Rattle.std.specs.Prelude.{codes};
ghost use Rattle.meta_reads.specs.Kinds as kinds;

use crate::from_tokens::FromTokens;
use base_core::TryClone;
use node_expr::{
    Type, TypeArray, TypeFnPtr, TypeGroup, TypeImplTrait, TypeInfer, TypeNever, TypeParen,
    TypePath, TypePtr, TypeReference, TypeSlice, TypeTraitObject, TypeTuple,
};
use node_span::Spanned;
use std::alloc::Global;
use syn_core::{Parse, ParseFail, parse_type};
use tok_types::TokenStream;

/// A node that is one kind of type.
pub trait OfType: Sized {
    ghost use Rattle.std.specs.Prelude.{◌≡◌, Option};
    ghost use Rattle.std.specs.Option.{option_copied};
    ghost use Rattle.node_expr.specs.Layers.{TypeLayer};
    ghost use Rattle.node_expr.specs.declared.ty.«Type».{out-Type};

    ghost kind: { TypeLayer → Option Self };

    /// The type of this kind that the type is.
    fn of_type(ty: &Type) -> Option<&Self>
        ensures { option_copied result ≡ kind (out-Type ty.now) };
}

/// A type of another kind has the fault of tokens that are no type. The node is copied, since only the module
/// of [`Type`] can take one apart.
impl<T: OfType + TryClone + Drop> FromTokens for T {
    ghost tree = { kinds.type_of_kind T.kind };

    ghost expected = { codes "expected a type" };

    fn from_tokens(alloc: Global, tokens: &TokenStream) -> Parse<T> {
        let ty = parse_type(alloc, tokens)?;
        match T::of_type(&ty) {
            Some(it) => Ok(it.try_clone(alloc)?),
            None => Err(ParseFail::at(alloc, tokens.spanned(), "expected a type")),
        }
    }
}

impl OfType for TypeArray {
    ghost kind = { kinds.array_type_in };

    fn of_type(ty: &Type) -> Option<&TypeArray> {
        match ty {
            Type::Array(it) => Some(it),
            _ => None,
        }
    }
}

impl OfType for TypeFnPtr {
    ghost kind = { kinds.fn_ptr_type_in };

    fn of_type(ty: &Type) -> Option<&TypeFnPtr> {
        match ty {
            Type::FnPtr(it) => Some(it),
            _ => None,
        }
    }
}

impl OfType for TypeGroup {
    ghost kind = { kinds.group_type_in };

    fn of_type(ty: &Type) -> Option<&TypeGroup> {
        match ty {
            Type::Group(it) => Some(it),
            _ => None,
        }
    }
}

impl OfType for TypeImplTrait {
    ghost kind = { kinds.impl_trait_type_in };

    fn of_type(ty: &Type) -> Option<&TypeImplTrait> {
        match ty {
            Type::ImplTrait(it) => Some(it),
            _ => None,
        }
    }
}

impl OfType for TypeInfer {
    ghost kind = { kinds.infer_type_in };

    fn of_type(ty: &Type) -> Option<&TypeInfer> {
        match ty {
            Type::Infer(it) => Some(it),
            _ => None,
        }
    }
}

impl OfType for TypeNever {
    ghost kind = { kinds.never_type_in };

    fn of_type(ty: &Type) -> Option<&TypeNever> {
        match ty {
            Type::Never(it) => Some(it),
            _ => None,
        }
    }
}

impl OfType for TypeParen {
    ghost kind = { kinds.paren_type_in };

    fn of_type(ty: &Type) -> Option<&TypeParen> {
        match ty {
            Type::Paren(it) => Some(it),
            _ => None,
        }
    }
}

impl OfType for TypePath {
    ghost kind = { kinds.path_type_in };

    fn of_type(ty: &Type) -> Option<&TypePath> {
        match ty {
            Type::Path(it) => Some(it),
            _ => None,
        }
    }
}

impl OfType for TypePtr {
    ghost kind = { kinds.ptr_type_in };

    fn of_type(ty: &Type) -> Option<&TypePtr> {
        match ty {
            Type::Ptr(it) => Some(it),
            _ => None,
        }
    }
}

impl OfType for TypeReference {
    ghost kind = { kinds.reference_type_in };

    fn of_type(ty: &Type) -> Option<&TypeReference> {
        match ty {
            Type::Reference(it) => Some(it),
            _ => None,
        }
    }
}

impl OfType for TypeSlice {
    ghost kind = { kinds.slice_type_in };

    fn of_type(ty: &Type) -> Option<&TypeSlice> {
        match ty {
            Type::Slice(it) => Some(it),
            _ => None,
        }
    }
}

impl OfType for TypeTraitObject {
    ghost kind = { kinds.trait_object_type_in };

    fn of_type(ty: &Type) -> Option<&TypeTraitObject> {
        match ty {
            Type::TraitObject(it) => Some(it),
            _ => None,
        }
    }
}

impl OfType for TypeTuple {
    ghost kind = { kinds.tuple_type_in };

    fn of_type(ty: &Type) -> Option<&TypeTuple> {
        match ty {
            Type::Tuple(it) => Some(it),
            _ => None,
        }
    }
}
