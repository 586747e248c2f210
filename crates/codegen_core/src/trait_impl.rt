//! What all derives of a receiver share.

ghost use Rattle.std.specs.Prelude.{◌≡◌, ◌++◌, ◌<◌, ◌^◌, ◌∷◌, ◌↔◌, [], length, IfOk, IsTrue, OnOk};
ghost use Rattle.std.specs.Option.{option_copied};
ghost use Rattle.codegen_core.specs.Compiled as spec;
ghost use Rattle.codegen_core.specs.Variants.{member_name};

use crate::default_expression::DefaultExpression;
use crate::field::{Field, clone_of};
use crate::fields::FieldsGen;
use crate::transparent;
use crate::variant::Variant;
use crate::variants::have_few_slots;
use base_core::{Items, Mem, TryClone};
use body_core::ast::Data;
use codegen_program::{DefaultSource, Derive, Forwarded, Func, PostfixTransform, Stmt, Unit};
use node_core::{Generics, Style};
use node_expr::{Path, PathArguments};
use std::alloc::Global;
use tok_types::Ident;

/// What options leave of a declaration, whatever it derives.
pub struct TraitImpl<'a> {
    pub ident: &'a Ident,
    pub generics: &'a Generics,
    pub body: Data<Variant<'a>, Field<'a>>,
    pub default: Option<DefaultExpression<'a>>,
    pub post_transform: Option<&'a PostfixTransform>,
    pub allow_unknown_fields: bool,
    /// Whether it is read as its one field is.
    pub transparent: bool,
    /// The path to `darling`, where the options name one.
    pub krate: Option<&'a Path>,
}

impl<'a> TraitImpl<'a> {
    /// What is generated for the fields of a struct; an enum has none of its own.
    pub fn fields_gen(&self) -> FieldsGen<'_, 'a>
        ensures fields { result.fields.now ≡ spec.fields_of self.now }
        ensures allow { result.allow_unknown_fields ≡ self.now.allow_unknown_fields }
        ensures first { result.first_slot ≡ 0 }
    {
        FieldsGen {
            fields: self.plain_fields(),
            allow_unknown_fields: self.allow_unknown_fields,
            first_slot: 0,
        }
    }

    /// The fields in order; an enum has none of its own.
    fn plain_fields(&self) -> &[Field<'a>]
        ensures { result.now ≡ spec.fields_of self.now }
    {
        match &self.body {
            Data::Struct(fields) => fields.fields.as_slice(),
            Data::Enum(_) => &[],
        }
    }

    /// Whether a `u32` counts the fields of a struct.
    pub fn has_few_fields(&self) -> bool
        ensures { IsTrue result ↔ (length (spec.fields_of self.now) < 2 ^ 32) }
    {
        u32::try_from(self.plain_fields().len()).is_ok()
    }

    /// Whether a `u32` counts the slots of a unit of `FromMeta`.
    pub fn has_few_slots(&self) -> bool
        ensures { IsTrue result ↔ (spec.slot_count self.now.body < 2 ^ 32) }
    {
        match &self.body {
            Data::Struct(fields) => u32::try_from(fields.fields.len()).is_ok(),
            Data::Enum(variants) => have_few_slots(variants.as_slice()),
        }
    }

    /// Adds what follows once the items are read, up to the end of the function. The parts of the element are members of what
    /// is built, in front of the fields.
    pub fn push_closing(
        &self,
        alloc: Global,
        parts: Items<Forwarded>,
        from_ident: bool,
        stmts: &mut Items<Stmt>,
    ) -> Mem<()>
        requires { length (spec.fields_of self.now) < 2 ^ 32 }
        ensures { OnOk result (stmts.new ≡ stmts.old ++ spec.closing_with parts from_ident self.now) }
    {
        let fields = self.fields_gen();
        fields.push_flattens(alloc, stmts)?;
        fields.push_checks(alloc, stmts)?;
        stmts.push(Stmt::CheckErrors { location: None })?;
        self.push_default(alloc, from_ident, stmts)?;
        self.push_build(alloc, parts, stmts)?;
        self.push_transform(alloc, stmts)
    }

    /// Adds the default of the whole receiver, where it has one.
    fn push_default(&self, alloc: Global, from_ident: bool, stmts: &mut Items<Stmt>) -> Mem<()>
        ensures { OnOk result (stmts.new ≡ stmts.old ++ spec.set_default (spec.default_of from_ident self.now)) }
    {
        match self.to_default(alloc, from_ident)? {
            Some(from) => stmts.push(Stmt::SetDefault { from }),
            None => Ok(()),
        }
    }

    fn to_default(&self, alloc: Global, from_ident: bool) -> Mem<Option<DefaultSource>>
        ensures { IfOk result (λ it. it ≡ spec.default_of from_ident self.now) }
    {
        if from_ident {
            return Ok(Some(DefaultSource::FromIdent));
        }
        match &self.default {
            Some(it) => it.to_source(alloc),
            None => Ok(None),
        }
    }

    /// Adds what builds the receiver from these parts of the element and from its slots.
    pub(crate) fn push_build(
        &self,
        alloc: Global,
        parts: Items<Forwarded>,
        stmts: &mut Items<Stmt>,
    ) -> Mem<()>
        requires { length (spec.fields_of self.now) < 2 ^ 32 }
        ensures { OnOk result (stmts.new ≡ stmts.old ++ spec.build_with parts self.now ∷ []) }
    {
        let name = self.ident.try_clone(alloc)?;
        let inits = self.fields_gen().initializers(alloc)?;
        stmts.push(Stmt::Build {
            name,
            variant: None,
            forwarded: parts,
            inits,
        })
    }

    /// Adds the transform of the whole receiver, where it has one.
    pub fn push_transform(&self, alloc: Global, stmts: &mut Items<Stmt>) -> Mem<()>
        ensures { OnOk result (stmts.new ≡ stmts.old ++ spec.transform (option_copied self.now.post_transform)) }
    {
        match clone_of(alloc, self.post_transform)? {
            Some(post) => stmts.push(Stmt::Transform { post }),
            None => Ok(()),
        }
    }

    /// Reads the receiver as its one field is read.
    pub fn delegate(&self, alloc: Global, style: Style, field: &Field<'_>) -> Mem<Stmt>
        ensures { IfOk result (λ it. it ≡ Stmt.Delegate self.now.ident.now (member_name style field.now) field.now.ty.now) }
    {
        let name = self.ident.try_clone(alloc)?;
        let member = transparent::member_name(alloc, style, field)?;
        let ty = field.ty.try_clone(alloc)?;
        Ok(Stmt::Delegate { name, member, ty })
    }

    /// The unit of these functions.
    pub fn unit_with(
        &self,
        alloc: Global,
        decl: u32,
        derive: Derive,
        parse_impl: bool,
        funcs: Items<Func>,
    ) -> Mem<Unit>
        ensures { IfOk result (λ it. it ≡ spec.unit_with decl derive self.now parse_impl funcs) }
    {
        let ident = self.ident.try_clone(alloc)?;
        let generics = self.generics.try_clone(alloc)?;
        let krate = self.other_krate(alloc)?;
        Ok(Unit {
            decl,
            derive,
            ident,
            generics,
            krate,
            parse_impl,
            funcs,
        })
    }

    /// The path to `darling`, where it is not the usual one.
    fn other_krate(&self, alloc: Global) -> Mem<Option<Path>>
        ensures { IfOk result (λ it. it ≡ spec.other_krate (option_copied self.now.krate)) }
    {
        match self.krate {
            Some(path) if !is_usual(path) => Ok(Some(path.try_clone(alloc)?)),
            _ => Ok(None),
        }
    }
}

/// Whether the path is `::darling`.
fn is_usual(path: &Path) -> bool
    ensures { result ≡ spec.is_usual path.now }
{
    if !path.leading_colon {
        return false;
    }
    let [segment] = path.segments.as_slice() else {
        return false;
    };
    match segment.arguments {
        PathArguments::None => is_darling(&segment.ident),
        _ => false,
    }
}

/// Whether the identifier is written `darling`.
fn is_darling(ident: &Ident) -> bool
    ensures { result ≡ spec.is_darling ident.now }
{
    !ident.raw && ident.text.is("darling")
}

impl<'a> Drop for TraitImpl<'a> {
    fn drop(self) {
        let Self {
            ident: _,
            generics: _,
            body: _body,
            default: _default,
            post_transform: _,
            allow_unknown_fields: _,
            transparent: _,
            krate: _,
        } = self;
    }
}
