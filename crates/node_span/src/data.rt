//! The spans of attributes, fields, variants and items.

ghost use Rattle.node_span.specs.Spanned.{body_span, fields_span, meta_span, visibility_span};

use crate::spanned::Spanned;
use node_core::{
    Attribute, Data, DataEnum, DataStruct, DataUnion, DeriveInput, Field, Fields, FieldsNamed,
    FieldsUnnamed, Meta, MetaList, MetaNameValue, Variant, Visibility,
};
use tok_types::Span;

impl Spanned for Attribute {
    ghost span_of = { λ it. it.span };

    fn spanned(&self) -> Span {
        self.span
    }
}

impl Spanned for Meta {
    ghost span_of = { meta_span };

    fn spanned(&self) -> Span {
        match self {
            Meta::Path(it) => it.span,
            Meta::List(it) => it.span,
            Meta::NameValue(it) => it.span,
        }
    }
}

impl Spanned for MetaList {
    ghost span_of = { λ it. it.span };

    fn spanned(&self) -> Span {
        self.span
    }
}

impl Spanned for MetaNameValue {
    ghost span_of = { λ it. it.span };

    fn spanned(&self) -> Span {
        self.span
    }
}

impl Spanned for Visibility {
    ghost span_of = { visibility_span };

    fn spanned(&self) -> Span {
        match self {
            Visibility::Inherited => Span::CallSite,
            Visibility::Public { span } | Visibility::Restricted { span, .. } => *span,
        }
    }
}

impl Spanned for Field {
    ghost span_of = { λ it. it.span };

    fn spanned(&self) -> Span {
        self.span
    }
}

impl Spanned for Fields {
    ghost span_of = { fields_span };

    fn spanned(&self) -> Span {
        match self {
            Fields::Named(it) => it.span,
            Fields::Unnamed(it) => it.span,
            Fields::Unit => Span::CallSite,
        }
    }
}

impl Spanned for FieldsNamed {
    ghost span_of = { λ it. it.span };

    fn spanned(&self) -> Span {
        self.span
    }
}

impl Spanned for FieldsUnnamed {
    ghost span_of = { λ it. it.span };

    fn spanned(&self) -> Span {
        self.span
    }
}

impl Spanned for Variant {
    ghost span_of = { λ it. it.span };

    fn spanned(&self) -> Span {
        self.span
    }
}

impl Spanned for Data {
    ghost span_of = { body_span };

    fn spanned(&self) -> Span {
        match self {
            Data::Struct(it) => it.span,
            Data::Enum(it) => it.span,
            Data::Union(it) => it.span,
        }
    }
}

impl Spanned for DataStruct {
    ghost span_of = { λ it. it.span };

    fn spanned(&self) -> Span {
        self.span
    }
}

impl Spanned for DataEnum {
    ghost span_of = { λ it. it.span };

    fn spanned(&self) -> Span {
        self.span
    }
}

impl Spanned for DataUnion {
    ghost span_of = { λ it. it.span };

    fn spanned(&self) -> Span {
        self.span
    }
}

impl Spanned for DeriveInput {
    ghost span_of = { λ it. it.span };

    fn spanned(&self) -> Span {
        self.span
    }
}
