//! What a function of a unit makes.

ghost use Rattle.std.specs.Prelude.{◌≡◌, IfOk};
ghost use Rattle.std.specs.Option.{option_copied};
ghost use Rattle.std.specs.Str.{bytes_eq};
ghost use Rattle.machine_read.specs.Building.{built_style};
ghost use Rattle.machine_read.specs.Receivers as spec;
ghost use Rattle.machine_read.specs.Asked.{asked_of};
ghost use Rattle.machine_state.specs.Seen.{receiver_of};
ghost use Rattle.machine_steps.specs.Decls.{member_name};

use base_core::{Mem, Text};
use codegen_program::Derive;
use machine_read::{Asked, Call};
use node_core::{Data, DeriveInput, Field, Style, Variant};
use node_expr::Type;
use std::alloc::Global;
use tok_types::Ident;

/// What a function of a unit makes: a type, by the declaration of its unit's number.
#[derive(Clone, Copy)]
pub struct Receiver<'p> {
    pub ty: &'p Type,
    /// The name of the type.
    pub ident: &'p Ident,
    /// The derive that makes it.
    pub derive: Derive,
    pub decl: Option<&'p DeriveInput>,
}

impl<'p> Receiver<'p> {
    /// The variants of the enum that is made; a struct has none.
    pub fn variants(&self) -> &'p [Variant]
        ensures { result.now ≡ spec.declared_variants (receiver_of self.now).decl }
    {
        match self.decl {
            Some(decl) => variants_of(&decl.body),
            None => &[],
        }
    }

    /// The fields of the struct that is made, in the order of the declaration; an enum has none of its own.
    pub fn declared_fields(&self) -> &'p [Field]
        ensures { result.now ≡ spec.declared_fields (receiver_of self.now) }
    {
        match self.decl {
            Some(decl) => decl.body.fields(),
            None => &[],
        }
    }

    /// The declared type of the field of this name.
    pub fn declared_type(&self, alloc: Global, ident: &Ident) -> Mem<Option<&'p Type>>
        ensures { IfOk result (λ ty. option_copied ty ≡ spec.declared_type (receiver_of self.now) ident.now) }
    {
        let name = ident.to_text(alloc)?;
        type_among(alloc, self.declared_fields(), &name)
    }

    /// How a struct is written that is built: one that a word gives has no members, one that an element gives is written as it
    /// is declared.
    pub fn built_style(&self, asked: Asked<'_>) -> Style
        ensures { result ≡ built_style (receiver_of self.now) (asked_of asked.entry) }
    {
        match asked {
            Asked::Cell(Call::Word) => Style::Unit,
            Asked::Cell(_) => Style::Struct,
            Asked::Element(_) => self.declared_style(),
        }
    }

    /// How the members of the struct are declared.
    fn declared_style(&self) -> Style
        ensures { result ≡ spec.declared_style (receiver_of self.now).decl }
    {
        match self.decl {
            Some(decl) => body_style(&decl.body),
            None => Style::Struct,
        }
    }
}

fn variants_of(body: &Data) -> &[Variant]
    ensures { result.now ≡ spec.variants_of body.now }
{
    match body {
        Data::Enum(it) => it.variants.as_slice(),
        Data::Struct(_) | Data::Union(_) => &[],
    }
}

fn type_among<'a>(alloc: Global, fields: &'a [Field], name: &Text) -> Mem<Option<&'a Type>>
    ensures { IfOk result (λ ty. option_copied ty ≡ spec.type_among fields.now name.now) }
{
    for field in fields {
        if is_member(alloc, field, name)? {
            return Ok(Some(&field.ty));
        }
    }
    Ok(None)
}

/// Whether the field has this name as a member; one by place has none.
fn is_member(alloc: Global, field: &Field, name: &Text) -> Mem<bool>
    ensures { IfOk result (λ it. it ≡ bytes_eq (member_name field.now) name.now) }
{
    match &field.ident {
        Some(ident) => Ok(ident.to_text(alloc)? == *name),
        None => Ok(name.is_empty()),
    }
}

/// How the members of a struct are written.
fn body_style(body: &Data) -> Style
    ensures { result ≡ spec.body_style body.now }
{
    match body {
        Data::Struct(it) => Style::of(&it.fields),
        Data::Enum(_) | Data::Union(_) => Style::Struct,
    }
}
