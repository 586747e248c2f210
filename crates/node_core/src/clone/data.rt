//! Clones of fields, variants and bodies.

use crate::data::{
    Data, DataEnum, DataStruct, DataUnion, Field, Fields, FieldsNamed, FieldsUnnamed, Variant,
    Visibility,
};
use base_core::{Mem, TryClone};
use std::alloc::Global;

impl TryClone for Visibility {
    fn try_clone(&self, alloc: Global) -> Mem<Visibility> {
        match self {
            Visibility::Inherited => Ok(Visibility::Inherited),
            Visibility::Public { span } => Ok(Visibility::Public { span: *span }),
            Visibility::Restricted {
                in_token,
                path,
                span,
            } => Ok(Visibility::Restricted {
                in_token: *in_token,
                path: path.try_clone(alloc)?,
                span: *span,
            }),
        }
    }
}

impl TryClone for Field {
    fn try_clone(&self, alloc: Global) -> Mem<Field> {
        Ok(Field {
            attrs: self.attrs.try_clone(alloc)?,
            vis: self.vis.try_clone(alloc)?,
            ident: self.ident.try_clone(alloc)?,
            ty: self.ty.try_clone(alloc)?,
            span: self.span,
        })
    }
}

impl TryClone for Fields {
    fn try_clone(&self, alloc: Global) -> Mem<Fields> {
        match self {
            Fields::Named(fields) => Ok(Fields::Named(fields.try_clone(alloc)?)),
            Fields::Unnamed(fields) => Ok(Fields::Unnamed(fields.try_clone(alloc)?)),
            Fields::Unit => Ok(Fields::Unit),
        }
    }
}

impl TryClone for FieldsNamed {
    fn try_clone(&self, alloc: Global) -> Mem<FieldsNamed> {
        Ok(FieldsNamed {
            named: self.named.try_clone(alloc)?,
            span: self.span,
        })
    }
}

impl TryClone for FieldsUnnamed {
    fn try_clone(&self, alloc: Global) -> Mem<FieldsUnnamed> {
        Ok(FieldsUnnamed {
            unnamed: self.unnamed.try_clone(alloc)?,
            span: self.span,
        })
    }
}

impl TryClone for Variant {
    fn try_clone(&self, alloc: Global) -> Mem<Variant> {
        Ok(Variant {
            attrs: self.attrs.try_clone(alloc)?,
            ident: self.ident.try_clone(alloc)?,
            fields: self.fields.try_clone(alloc)?,
            discriminant: self.discriminant.try_clone(alloc)?,
            span: self.span,
        })
    }
}

impl TryClone for Data {
    fn try_clone(&self, alloc: Global) -> Mem<Data> {
        match self {
            Data::Struct(data) => Ok(Data::Struct(data.try_clone(alloc)?)),
            Data::Enum(data) => Ok(Data::Enum(data.try_clone(alloc)?)),
            Data::Union(data) => Ok(Data::Union(data.try_clone(alloc)?)),
        }
    }
}

impl TryClone for DataStruct {
    fn try_clone(&self, alloc: Global) -> Mem<DataStruct> {
        Ok(DataStruct {
            fields: self.fields.try_clone(alloc)?,
            span: self.span,
        })
    }
}

impl TryClone for DataEnum {
    fn try_clone(&self, alloc: Global) -> Mem<DataEnum> {
        Ok(DataEnum {
            variants: self.variants.try_clone(alloc)?,
            span: self.span,
        })
    }
}

impl TryClone for DataUnion {
    fn try_clone(&self, alloc: Global) -> Mem<DataUnion> {
        Ok(DataUnion {
            fields: self.fields.try_clone(alloc)?,
            span: self.span,
        })
    }
}
