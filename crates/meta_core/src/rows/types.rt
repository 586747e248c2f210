//! Types, of any kind and of one.

use crate::from_meta::FromMeta;
use error_core::Result;
use meta_nested::Call;
use meta_reads::{read_syntax, read_type_path};
use node_expr::{
    Type, TypeArray, TypeFnPtr, TypeGroup, TypeImplTrait, TypeInfer, TypeNever, TypeParen,
    TypePath, TypePtr, TypeReference, TypeSlice, TypeTraitObject, TypeTuple,
};
use std::alloc::Global;

impl FromMeta for TypePath {
    ghost use Rattle.node_expr.specs.declared.ty.TypePath.{TypePath};
    ghost use Rattle.meta_reads.specs.Exprs.{type_path_cells};

    ghost Seen = { TypePath };

    ghost seen = { λ it. it };

    ghost cells = { type_path_cells };

    fn cell(alloc: Global, call: Call<'_>) -> Result<Option<TypePath>> {
        read_type_path(alloc, call)
    }
}

impl FromMeta for Type {
    ghost use Rattle.node_expr.specs.declared.ty.«Type».{«Type» as Type'};
    ghost use Rattle.meta_core.specs.Rows.{type_cells};

    ghost Seen = { Type' };

    ghost seen = { λ it. it };

    ghost cells = { type_cells };

    fn cell(alloc: Global, call: Call<'_>) -> Result<Option<Type>> {
        read_syntax(alloc, call)
    }
}

impl FromMeta for TypeArray {
    ghost use Rattle.node_expr.specs.declared.ty.TypeArray.{TypeArray};
    ghost use Rattle.meta_core.specs.Rows.{array_type_cells};

    ghost Seen = { TypeArray };

    ghost seen = { λ it. it };

    ghost cells = { array_type_cells };

    fn cell(alloc: Global, call: Call<'_>) -> Result<Option<TypeArray>> {
        read_syntax(alloc, call)
    }
}

impl FromMeta for TypeFnPtr {
    ghost use Rattle.node_expr.specs.declared.ty.«Type».{«Type» as Type'};
    ghost use Rattle.node_expr.specs.declared.ty.TypeFnPtr.{TypeFnPtr};
    ghost use Rattle.meta_core.specs.Rows.{fn_ptr_type_cells};

    ghost Seen = { TypeFnPtr Type' };

    ghost seen = { λ it. it };

    ghost cells = { fn_ptr_type_cells };

    fn cell(alloc: Global, call: Call<'_>) -> Result<Option<TypeFnPtr>> {
        read_syntax(alloc, call)
    }
}

impl FromMeta for TypeGroup {
    ghost use Rattle.node_expr.specs.declared.ty.«Type».{«Type» as Type'};
    ghost use Rattle.node_expr.specs.declared.ty.TypeGroup.{TypeGroup};
    ghost use Rattle.meta_core.specs.Rows.{group_type_cells};

    ghost Seen = { TypeGroup Type' };

    ghost seen = { λ it. it };

    ghost cells = { group_type_cells };

    fn cell(alloc: Global, call: Call<'_>) -> Result<Option<TypeGroup>> {
        read_syntax(alloc, call)
    }
}

impl FromMeta for TypeImplTrait {
    ghost use Rattle.node_expr.specs.declared.generics.TypeParamBound.{TypeParamBound};
    ghost use Rattle.node_expr.specs.declared.ty.TypeImplTrait.{TypeImplTrait};
    ghost use Rattle.meta_core.specs.Rows.{impl_trait_type_cells};

    ghost Seen = { TypeImplTrait TypeParamBound };

    ghost seen = { λ it. it };

    ghost cells = { impl_trait_type_cells };

    fn cell(alloc: Global, call: Call<'_>) -> Result<Option<TypeImplTrait>> {
        read_syntax(alloc, call)
    }
}

impl FromMeta for TypeInfer {
    ghost use Rattle.node_expr.specs.declared.ty.TypeInfer.{TypeInfer};
    ghost use Rattle.meta_core.specs.Rows.{infer_type_cells};

    ghost Seen = { TypeInfer };

    ghost seen = { λ it. it };

    ghost cells = { infer_type_cells };

    fn cell(alloc: Global, call: Call<'_>) -> Result<Option<TypeInfer>> {
        read_syntax(alloc, call)
    }
}

impl FromMeta for TypeNever {
    ghost use Rattle.node_expr.specs.declared.ty.TypeNever.{TypeNever};
    ghost use Rattle.meta_core.specs.Rows.{never_type_cells};

    ghost Seen = { TypeNever };

    ghost seen = { λ it. it };

    ghost cells = { never_type_cells };

    fn cell(alloc: Global, call: Call<'_>) -> Result<Option<TypeNever>> {
        read_syntax(alloc, call)
    }
}

impl FromMeta for TypeParen {
    ghost use Rattle.node_expr.specs.declared.ty.«Type».{«Type» as Type'};
    ghost use Rattle.node_expr.specs.declared.ty.TypeParen.{TypeParen};
    ghost use Rattle.meta_core.specs.Rows.{paren_type_cells};

    ghost Seen = { TypeParen Type' };

    ghost seen = { λ it. it };

    ghost cells = { paren_type_cells };

    fn cell(alloc: Global, call: Call<'_>) -> Result<Option<TypeParen>> {
        read_syntax(alloc, call)
    }
}

impl FromMeta for TypePtr {
    ghost use Rattle.node_expr.specs.declared.ty.«Type».{«Type» as Type'};
    ghost use Rattle.node_expr.specs.declared.ty.TypePtr.{TypePtr};
    ghost use Rattle.meta_core.specs.Rows.{ptr_type_cells};

    ghost Seen = { TypePtr Type' };

    ghost seen = { λ it. it };

    ghost cells = { ptr_type_cells };

    fn cell(alloc: Global, call: Call<'_>) -> Result<Option<TypePtr>> {
        read_syntax(alloc, call)
    }
}

impl FromMeta for TypeReference {
    ghost use Rattle.node_expr.specs.declared.ty.«Type».{«Type» as Type'};
    ghost use Rattle.node_expr.specs.declared.ty.TypeReference.{TypeReference};
    ghost use Rattle.meta_core.specs.Rows.{reference_type_cells};

    ghost Seen = { TypeReference Type' };

    ghost seen = { λ it. it };

    ghost cells = { reference_type_cells };

    fn cell(alloc: Global, call: Call<'_>) -> Result<Option<TypeReference>> {
        read_syntax(alloc, call)
    }
}

impl FromMeta for TypeSlice {
    ghost use Rattle.node_expr.specs.declared.ty.«Type».{«Type» as Type'};
    ghost use Rattle.node_expr.specs.declared.ty.TypeSlice.{TypeSlice};
    ghost use Rattle.meta_core.specs.Rows.{slice_type_cells};

    ghost Seen = { TypeSlice Type' };

    ghost seen = { λ it. it };

    ghost cells = { slice_type_cells };

    fn cell(alloc: Global, call: Call<'_>) -> Result<Option<TypeSlice>> {
        read_syntax(alloc, call)
    }
}

impl FromMeta for TypeTraitObject {
    ghost use Rattle.node_expr.specs.declared.generics.TypeParamBound.{TypeParamBound};
    ghost use Rattle.node_expr.specs.declared.ty.TypeTraitObject.{TypeTraitObject};
    ghost use Rattle.meta_core.specs.Rows.{trait_object_type_cells};

    ghost Seen = { TypeTraitObject TypeParamBound };

    ghost seen = { λ it. it };

    ghost cells = { trait_object_type_cells };

    fn cell(alloc: Global, call: Call<'_>) -> Result<Option<TypeTraitObject>> {
        read_syntax(alloc, call)
    }
}

impl FromMeta for TypeTuple {
    ghost use Rattle.node_expr.specs.declared.ty.«Type».{«Type» as Type'};
    ghost use Rattle.node_expr.specs.declared.ty.TypeTuple.{TypeTuple};
    ghost use Rattle.meta_core.specs.Rows.{tuple_type_cells};

    ghost Seen = { TypeTuple Type' };

    ghost seen = { λ it. it };

    ghost cells = { tuple_type_cells };

    fn cell(alloc: Global, call: Call<'_>) -> Result<Option<TypeTuple>> {
        read_syntax(alloc, call)
    }
}
