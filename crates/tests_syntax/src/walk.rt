//! Nodes are taken out of two readings of one text, each by itself, and shown one behind the other.

use crate::node::{are_alike, part, printing, shown};
use node_core::{
    Attribute, Data, DeriveInput, Expr, Fields, GenericParam, Generics, Items, Lit, Mem, Meta,
    Path, PathArguments, Text, TryClone, Type, TypeGroup, TypeParamBound, TypeSlice, make,
};
use node_span::Spanned;
use print_core::ToTokens;
use std::alloc::Global;
use std::hash::Hash;
use tests_checks::Tested;

/// The text, and what was shown of its nodes.
#[derive(Drop)]
pub struct Walk<'a> {
    alloc: Global,
    text: &'a str,
    pub told: Text,
}

impl<'a> Walk<'a> {
    pub fn new(alloc: Global, text: &'a str) -> Walk<'a> {
        let told = Text::new(alloc);
        Walk { alloc, text, told }
    }

    fn push(&mut self, shown: &str) -> Mem<()> {
        if !self.told.is_empty() {
            self.told.push_str(" ~ ")?;
        }
        self.told.push_str(match shown {
            "" => "nothing",
            _ if shown == self.text => "whole",
            _ => shown,
        })
    }

    /// A node by itself, whose printing stands where the node does.
    pub fn part<N: TryClone + PartialEq + Hash + Spanned + ToTokens + Drop>(
        &mut self,
        one: &N,
        other: &N,
    ) -> Tested<()> {
        are_alike(self.alloc, self.text, one, other)?;
        let shown = shown(self.alloc, self.text, one, None)?;
        Ok(self.push(shown.as_str())?)
    }

    /// Each node of a list.
    pub fn each<N: TryClone + PartialEq + Hash + Spanned + ToTokens + Drop>(
        &mut self,
        nodes: &Items<N>,
        others: &Items<N>,
    ) -> Tested<()> {
        for (one, other) in nodes.as_slice().iter().zip(others.as_slice()) {
            self.part(one, other)?;
        }
        Ok(())
    }

    /// An operator, which has no place.
    fn operator<N: PartialEq + ToTokens>(&mut self, one: &N, other: &N) -> Tested<()> {
        let printed = printing(self.alloc, one)?;
        Ok(self.push(if one == other {
            printed.as_str()
        } else {
            "another operator"
        })?)
    }

    pub fn ty(&mut self, one: &Type, other: &Type) -> Tested<()> {
        self.part(one, other)?;
        match (one, other) {
            (Type::Path(one), Type::Path(other)) => self.part(one, other)?,
            (Type::Reference(one), Type::Reference(other)) => self.part(one, other)?,
            (Type::Ptr(one), Type::Ptr(other)) => self.part(one, other)?,
            (Type::Slice(one), Type::Slice(other)) => self.part(one, other)?,
            (Type::Array(one), Type::Array(other)) => self.part(one, other)?,
            (Type::Tuple(one), Type::Tuple(other)) => self.part(one, other)?,
            (Type::Paren(one), Type::Paren(other)) => self.part(one, other)?,
            (Type::FnPtr(one), Type::FnPtr(other)) => self.part(one, other)?,
            (Type::TraitObject(one), Type::TraitObject(other)) => self.part(one, other)?,
            (Type::ImplTrait(one), Type::ImplTrait(other)) => self.part(one, other)?,
            (Type::Never(one), Type::Never(other)) => self.part(one, other)?,
            (Type::Infer(one), Type::Infer(other)) => self.part(one, other)?,
            _ => {}
        }
        self.inside(one, other)
    }

    /// The nodes of a type that are none of its own.
    fn inside(&mut self, one: &Type, other: &Type) -> Tested<()> {
        match (one, other) {
            (Type::Path(one), Type::Path(other)) => match (&one.qself, &other.qself) {
                (Some(one), Some(other)) => {
                    are_alike(self.alloc, self.text, one, other)?;
                    Ok(self.push(part(self.text, one.spanned()))?)
                }
                _ => self.path(&one.path, &other.path),
            },
            (Type::FnPtr(one), Type::FnPtr(other)) => {
                self.each(&one.inputs, &other.inputs)?;
                self.part(&one.output, &other.output)
            }
            (Type::TraitObject(one), Type::TraitObject(other)) => {
                self.each(&one.bounds, &other.bounds)?;
                match (one.bounds.last(), other.bounds.last()) {
                    (Some(TypeParamBound::Trait(one)), Some(TypeParamBound::Trait(other))) => {
                        self.part(one, other)
                    }
                    _ => Ok(()),
                }
            }
            (Type::Slice(one), Type::Slice(other)) => {
                let group = grouped(self.alloc, one)?;
                self.part(&group, &grouped(self.alloc, other)?)
            }
            (Type::Reference(one), Type::Reference(other)) => {
                match (&one.lifetime, &other.lifetime) {
                    (Some(one), Some(other)) => self.part(one, other),
                    _ => Ok(()),
                }
            }
            _ => Ok(()),
        }
    }

    /// The path, its last segment, and what that has.
    fn path(&mut self, one: &Path, other: &Path) -> Tested<()> {
        self.part(one, other)?;
        let (Some(one), Some(other)) = (one.segments.last(), other.segments.last()) else {
            return Ok(());
        };
        self.part(one, other)?;
        self.part(&one.ident, &other.ident)?;
        self.part(&one.arguments, &other.arguments)?;
        match (&one.arguments, &other.arguments) {
            (PathArguments::AngleBracketed(one), PathArguments::AngleBracketed(other)) => {
                self.each(one, other)
            }
            _ => Ok(()),
        }
    }

    fn lit(&mut self, one: &Lit, other: &Lit) -> Tested<()> {
        self.part(one, other)?;
        match (one, other) {
            (Lit::Str(one), Lit::Str(other)) => self.part(one, other),
            (Lit::ByteStr(one), Lit::ByteStr(other)) => self.part(one, other),
            (Lit::Byte(one), Lit::Byte(other)) => self.part(one, other),
            (Lit::Char(one), Lit::Char(other)) => self.part(one, other),
            (Lit::Int(one), Lit::Int(other)) => self.part(one, other),
            (Lit::Float(one), Lit::Float(other)) => self.part(one, other),
            (Lit::Bool(one), Lit::Bool(other)) => self.part(one, other),
            _ => Ok(()),
        }
    }

    pub fn expr(&mut self, one: &Expr, other: &Expr) -> Tested<()> {
        self.part(one, other)?;
        match (one, other) {
            (Expr::Lit(one), Expr::Lit(other)) => self.lit(one, other),
            (Expr::Path(one), Expr::Path(other)) => self.part(one, other),
            (Expr::Array(one), Expr::Array(other)) => self.part(one, other),
            (Expr::Range(one), Expr::Range(other)) => self.part(one, other),
            (Expr::Closure(one), Expr::Closure(other)) => self.part(one, other),
            (Expr::Field { member: one, .. }, Expr::Field { member: other, .. }) => {
                self.part(one, other)
            }
            (Expr::Unary { op: one, .. }, Expr::Unary { op: other, .. }) => {
                self.operator(one, other)
            }
            (Expr::Binary { op: one, .. }, Expr::Binary { op: other, .. }) => {
                self.operator(one, other)
            }
            _ => Ok(()),
        }
    }

    pub fn item(&mut self, one: &DeriveInput, other: &DeriveInput) -> Tested<()> {
        self.part(one, other)?;
        for (one, other) in one.attrs.as_slice().iter().zip(other.attrs.as_slice()) {
            self.attribute(one, other)?;
        }
        self.part(&one.vis, &other.vis)?;
        self.part(&one.ident, &other.ident)?;
        self.generics(&one.generics, &other.generics)?;
        self.body(&one.body, &other.body)
    }

    fn attribute(&mut self, one: &Attribute, other: &Attribute) -> Tested<()> {
        self.part(one, other)?;
        self.part(&one.meta, &other.meta)?;
        match (&one.meta, &other.meta) {
            (Meta::Path(one), Meta::Path(other)) => self.part(one, other),
            (Meta::List(one), Meta::List(other)) => self.part(one, other),
            (Meta::NameValue(one), Meta::NameValue(other)) => self.part(one, other),
            _ => Ok(()),
        }
    }

    fn generics(&mut self, one: &Generics, other: &Generics) -> Tested<()> {
        self.part(one, other)?;
        for (one, other) in one.params.as_slice().iter().zip(other.params.as_slice()) {
            self.part(one, other)?;
            match (one, other) {
                (GenericParam::Lifetime(one), GenericParam::Lifetime(other)) => {
                    self.part(one, other)?;
                }
                (GenericParam::Ty(one), GenericParam::Ty(other)) => self.part(one, other)?,
                (GenericParam::Const(one), GenericParam::Const(other)) => self.part(one, other)?,
                _ => {}
            }
        }
        let (Some(one), Some(other)) = (&one.where_clause, &other.where_clause) else {
            return Ok(());
        };
        self.part(one, other)?;
        self.each(&one.predicates, &other.predicates)
    }

    fn body(&mut self, one: &Data, other: &Data) -> Tested<()> {
        self.part(one, other)?;
        match (one, other) {
            (Data::Struct(one), Data::Struct(other)) => {
                self.part(one, other)?;
                self.fields(&one.fields, &other.fields)
            }
            (Data::Enum(one), Data::Enum(other)) => {
                self.part(one, other)?;
                let variants = one.variants.as_slice().iter();
                for (one, other) in variants.zip(other.variants.as_slice()) {
                    self.part(one, other)?;
                    self.fields(&one.fields, &other.fields)?;
                }
                Ok(())
            }
            (Data::Union(one), Data::Union(other)) => {
                self.part(one, other)?;
                self.part(&one.fields, &other.fields)
            }
            _ => Ok(()),
        }
    }

    fn fields(&mut self, one: &Fields, other: &Fields) -> Tested<()> {
        self.part(one, other)?;
        match (one, other) {
            (Fields::Named(one), Fields::Named(other)) => {
                self.part(one, other)?;
                let fields = one.named.as_slice().iter();
                for (one, other) in fields.zip(other.named.as_slice()) {
                    self.part(one, other)?;
                    self.part(&one.vis, &other.vis)?;
                }
                Ok(())
            }
            (Fields::Unnamed(one), Fields::Unnamed(other)) => self.part(one, other),
            _ => Ok(()),
        }
    }
}

/// The type of a slice, in a group without delimiters, which no text has.
fn grouped(alloc: Global, slice: &TypeSlice) -> Mem<TypeGroup> {
    let elem = slice.elem.get().try_clone(alloc)?;
    make::type_group(alloc, elem, slice.elem.spanned())
}
