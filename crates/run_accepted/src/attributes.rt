//! Declarations without attributes.

ghost use Rattle.std.specs.Prelude.{◌≡◌, IfOk};
ghost use Rattle.run_accepted.specs.Attributes as spec;

use base_core::{Items, Mem, TryClone};
use node_core::{
    ConstParam, Data, DataEnum, DataStruct, DataUnion, DeriveInput, Field, Fields, FieldsNamed,
    FieldsUnnamed, GenericParam, Generics, LifetimeParam, TypeParam, Variant,
};
use std::alloc::Global;

/// The declaration without the attributes on it, on its parameters, on its fields, on its variants and on their fields.
pub fn without_attributes(alloc: Global, decl: &DeriveInput) -> Mem<DeriveInput>
    ensures { IfOk result (λ it. it ≡ spec.without_attributes decl.now) }
{
    Ok(DeriveInput {
        attrs: Items::new(alloc),
        vis: decl.vis.try_clone(alloc)?,
        ident: decl.ident.try_clone(alloc)?,
        generics: decl.generics.without_attributes(alloc)?,
        body: decl.body.without_attributes(alloc)?,
        span: decl.span,
    })
}

/// A part of a declaration that attributes may stand on or in.
trait WithoutAttributes: Sized + Drop {
    ghost without: { Self → Self };

    /// A copy that has no attributes.
    fn without_attributes(&self, alloc: Global) -> Mem<Self>
        ensures { IfOk result (λ it. it ≡ without self.now) };
}

impl<T: WithoutAttributes> WithoutAttributes for Items<T> {
    ghost use Rattle.std.specs.Prelude.{map};

    ghost without = { map T.without };

    fn without_attributes(&self, alloc: Global) -> Mem<Items<T>> {
        let mut copies = Items::new(alloc);
        for item in self.as_slice() {
            let copy = item.without_attributes(alloc)?;
            copies.push(copy)?;
        }
        Ok(copies)
    }
}

impl WithoutAttributes for Generics {
    ghost use Rattle.run_accepted.specs.Attributes.{generics_without};

    ghost without = { generics_without };

    fn without_attributes(&self, alloc: Global) -> Mem<Generics> {
        Ok(Generics {
            params: self.params.without_attributes(alloc)?,
            where_clause: self.where_clause.try_clone(alloc)?,
            span: self.span,
        })
    }
}

impl WithoutAttributes for GenericParam {
    ghost use Rattle.run_accepted.specs.Attributes.{param_without};

    ghost without = { param_without };

    fn without_attributes(&self, alloc: Global) -> Mem<GenericParam> {
        match self {
            GenericParam::Lifetime(it) => Ok(GenericParam::Lifetime(LifetimeParam {
                attrs: Items::new(alloc),
                lifetime: it.lifetime.try_clone(alloc)?,
                bounds: it.bounds.try_clone(alloc)?,
                span: it.span,
            })),
            GenericParam::Ty(it) => Ok(GenericParam::Ty(TypeParam {
                attrs: Items::new(alloc),
                ident: it.ident.try_clone(alloc)?,
                bounds: it.bounds.try_clone(alloc)?,
                default: it.default.try_clone(alloc)?,
                span: it.span,
            })),
            GenericParam::Const(it) => Ok(GenericParam::Const(ConstParam {
                attrs: Items::new(alloc),
                ident: it.ident.try_clone(alloc)?,
                ty: it.ty.try_clone(alloc)?,
                default: it.default.try_clone(alloc)?,
                span: it.span,
            })),
        }
    }
}

impl WithoutAttributes for Data {
    ghost use Rattle.run_accepted.specs.Attributes.{body_without};

    ghost without = { body_without };

    fn without_attributes(&self, alloc: Global) -> Mem<Data> {
        match self {
            Data::Struct(it) => Ok(Data::Struct(DataStruct {
                fields: it.fields.without_attributes(alloc)?,
                span: it.span,
            })),
            Data::Enum(it) => Ok(Data::Enum(DataEnum {
                variants: it.variants.without_attributes(alloc)?,
                span: it.span,
            })),
            Data::Union(it) => Ok(Data::Union(DataUnion {
                fields: it.fields.without_attributes(alloc)?,
                span: it.span,
            })),
        }
    }
}

impl WithoutAttributes for Variant {
    ghost use Rattle.run_accepted.specs.Attributes.{variant_without};

    ghost without = { variant_without };

    fn without_attributes(&self, alloc: Global) -> Mem<Variant> {
        Ok(Variant {
            attrs: Items::new(alloc),
            ident: self.ident.try_clone(alloc)?,
            fields: self.fields.without_attributes(alloc)?,
            discriminant: self.discriminant.try_clone(alloc)?,
            span: self.span,
        })
    }
}

impl WithoutAttributes for Fields {
    ghost use Rattle.run_accepted.specs.Attributes.{fields_without};

    ghost without = { fields_without };

    fn without_attributes(&self, alloc: Global) -> Mem<Fields> {
        match self {
            Fields::Named(it) => Ok(Fields::Named(it.without_attributes(alloc)?)),
            Fields::Unnamed(it) => Ok(Fields::Unnamed(FieldsUnnamed {
                unnamed: it.unnamed.without_attributes(alloc)?,
                span: it.span,
            })),
            Fields::Unit => Ok(Fields::Unit),
        }
    }
}

impl WithoutAttributes for FieldsNamed {
    ghost use Rattle.run_accepted.specs.Attributes.{named_without};

    ghost without = { named_without };

    fn without_attributes(&self, alloc: Global) -> Mem<FieldsNamed> {
        Ok(FieldsNamed {
            named: self.named.without_attributes(alloc)?,
            span: self.span,
        })
    }
}

impl WithoutAttributes for Field {
    ghost use Rattle.run_accepted.specs.Attributes.{field_without};

    ghost without = { field_without };

    fn without_attributes(&self, alloc: Global) -> Mem<Field> {
        Ok(Field {
            attrs: Items::new(alloc),
            vis: self.vis.try_clone(alloc)?,
            ident: self.ident.try_clone(alloc)?,
            ty: self.ty.try_clone(alloc)?,
            span: self.span,
        })
    }
}
