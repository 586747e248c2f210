//! A value with what it was read from.

ghost use Rattle.std.specs.Prelude.{◌≡◌};
ghost use Rattle.options_types.specs.WithOriginal as spec;

use base_core::{Mem, TryClone};
use body_core::{
    FromDeriveInput, FromField, FromGenericParam, FromGenerics, FromTypeParam, FromVariant,
};
use body_usage::{Mentions, Searched};
use error_core::Result;
use node_core::{DeriveInput, Field, GenericParam, Generics, Meta, TypeParam, Variant};
use std::alloc::Global;
use util_core::{ByType, Call, FromMeta, value_and_meta_cell};

/// A value, and the syntax that it was read from.
#[derive(Drop)]
#[derive_where(PartialEq, Eq; T, O)]
pub struct WithOriginal<T, O> {
    pub parsed: T,
    pub original: O,
}

impl<T, O> WithOriginal<T, O> {
    /// The value and what it was read from.
    pub fn new(parsed: T, original: O) -> WithOriginal<T, O>
        ensures { result ≡ spec.with_original original parsed }
    {
        WithOriginal { parsed, original }
    }
}

impl<T: TryClone + Drop, O: TryClone> TryClone for WithOriginal<T, O> {
    fn try_clone(&self, alloc: Global) -> Mem<WithOriginal<T, O>> {
        let parsed = self.parsed.try_clone(alloc)?;
        let original = self.original.try_clone(alloc)?;
        Ok(WithOriginal { parsed, original })
    }
}

/// The names that the value uses; what it was read from is not searched.
impl<T: Searched, O> Searched for WithOriginal<T, O> {
    ghost mentions = { λ it. T.mentions it.parsed };

    fn push_mentions<'n>(&'n self, in_qself: bool, found: &mut Mentions<'n>) -> Mem<()> {
        self.parsed.push_mentions(in_qself, found)
    }
}

/// Every meta that the type inside reads, and the meta.
impl<T: FromMeta> FromMeta for WithOriginal<T, Meta> {
    ghost use Rattle.node_core.specs.declared.attr.Meta.{Meta};
    ghost use Rattle.options_types.specs.WithOriginal.{original_cells, seen_original};
    ghost use Rattle.options_types.specs.declared.with_original.WithOriginal.{WithOriginal};

    ghost Seen = { WithOriginal T.Seen Meta };

    ghost seen = { seen_original T.seen };

    ghost cells = { original_cells T.cells };

    fn cell(alloc: Global, call: Call<'_>) -> Result<Option<WithOriginal<T, Meta>>> {
        match value_and_meta_cell(alloc, &ByType::<T>::new(), call)? {
            Some((parsed, original)) => Ok(Some(WithOriginal { parsed, original })),
            None => Ok(None),
        }
    }
}

impl<T: FromDeriveInput> FromDeriveInput for WithOriginal<T, DeriveInput> {
    ghost use Rattle.node_core.specs.declared.derive.DeriveInput.{DeriveInput};
    ghost use Rattle.options_types.specs.WithOriginal.{original_meaning, seen_original};
    ghost use Rattle.options_types.specs.declared.with_original.WithOriginal.{WithOriginal};

    ghost Seen = { WithOriginal T.Seen DeriveInput };

    ghost seen = { seen_original T.seen };

    ghost meaning = { original_meaning T.meaning };

    fn from_derive_input(
        alloc: Global,
        input: &DeriveInput,
    ) -> Result<WithOriginal<T, DeriveInput>> {
        let original = input.try_clone(alloc)?;
        let parsed = T::from_derive_input(alloc, input)?;
        Ok(WithOriginal { parsed, original })
    }
}

impl<T: FromField> FromField for WithOriginal<T, Field> {
    ghost use Rattle.node_core.specs.declared.data.Field.{Field};
    ghost use Rattle.options_types.specs.WithOriginal.{original_meaning, seen_original};
    ghost use Rattle.options_types.specs.declared.with_original.WithOriginal.{WithOriginal};

    ghost Seen = { WithOriginal T.Seen Field };

    ghost seen = { seen_original T.seen };

    ghost meaning = { original_meaning T.meaning };

    fn from_field(alloc: Global, field: &Field) -> Result<WithOriginal<T, Field>> {
        let original = field.try_clone(alloc)?;
        let parsed = T::from_field(alloc, field)?;
        Ok(WithOriginal { parsed, original })
    }
}

impl<T: FromVariant> FromVariant for WithOriginal<T, Variant> {
    ghost use Rattle.node_core.specs.declared.data.Variant.{Variant};
    ghost use Rattle.options_types.specs.WithOriginal.{original_meaning, seen_original};
    ghost use Rattle.options_types.specs.declared.with_original.WithOriginal.{WithOriginal};

    ghost Seen = { WithOriginal T.Seen Variant };

    ghost seen = { seen_original T.seen };

    ghost meaning = { original_meaning T.meaning };

    fn from_variant(alloc: Global, variant: &Variant) -> Result<WithOriginal<T, Variant>> {
        let original = variant.try_clone(alloc)?;
        let parsed = T::from_variant(alloc, variant)?;
        Ok(WithOriginal { parsed, original })
    }
}

impl<T: FromTypeParam> FromTypeParam for WithOriginal<T, TypeParam> {
    ghost use Rattle.node_core.specs.declared.generics.TypeParam.{TypeParam};
    ghost use Rattle.options_types.specs.WithOriginal.{original_meaning, seen_original};
    ghost use Rattle.options_types.specs.declared.with_original.WithOriginal.{WithOriginal};

    ghost Seen = { WithOriginal T.Seen TypeParam };

    ghost seen = { seen_original T.seen };

    ghost meaning = { original_meaning T.meaning };

    fn from_type_param(
        alloc: Global,
        type_param: &TypeParam,
    ) -> Result<WithOriginal<T, TypeParam>> {
        let original = type_param.try_clone(alloc)?;
        let parsed = T::from_type_param(alloc, type_param)?;
        Ok(WithOriginal { parsed, original })
    }
}

impl<T: FromGenericParam> FromGenericParam for WithOriginal<T, GenericParam> {
    ghost use Rattle.node_core.specs.declared.generics.GenericParam.{GenericParam};
    ghost use Rattle.options_types.specs.WithOriginal.{original_meaning, seen_original};
    ghost use Rattle.options_types.specs.declared.with_original.WithOriginal.{WithOriginal};

    ghost Seen = { WithOriginal T.Seen GenericParam };

    ghost seen = { seen_original T.seen };

    ghost meaning = { original_meaning T.meaning };

    fn from_generic_param(
        alloc: Global,
        param: &GenericParam,
    ) -> Result<WithOriginal<T, GenericParam>> {
        let original = param.try_clone(alloc)?;
        let parsed = T::from_generic_param(alloc, param)?;
        Ok(WithOriginal { parsed, original })
    }
}

impl<T: FromGenerics> FromGenerics for WithOriginal<T, Generics> {
    ghost use Rattle.node_core.specs.declared.generics.Generics.{Generics};
    ghost use Rattle.options_types.specs.WithOriginal.{original_meaning, seen_original};
    ghost use Rattle.options_types.specs.declared.with_original.WithOriginal.{WithOriginal};

    ghost Seen = { WithOriginal T.Seen Generics };

    ghost seen = { seen_original T.seen };

    ghost meaning = { original_meaning T.meaning };

    fn from_generics(alloc: Global, generics: &Generics) -> Result<WithOriginal<T, Generics>> {
        let original = generics.try_clone(alloc)?;
        let parsed = T::from_generics(alloc, generics)?;
        Ok(WithOriginal { parsed, original })
    }
}
