//! A variant of a receiver, and what it compiles to alone.

ghost use Rattle.std.specs.Prelude.{◌≡◌, ◌++◌, ◌+◌, ◌<◌, ◌^◌, ◌∷◌, [], length, Some, IfOk, OnOk};
ghost use Rattle.std.specs.Option.{option_copied};
ghost use Rattle.codegen_core.specs.Variants as spec;

use crate::field::Field;
use crate::fields::FieldsGen;
use crate::transparent::{extract_transparent, member_name};
use base_core::{Items, Mem, Text, TryClone};
use body_core::ast::Fields;
use body_usage::{Mentions, Searched};
use codegen_program::{Stmt, UnitArm, UnitForm, VariantArm, VariantForm};
use node_core::Style;
use std::alloc::Global;
use tok_types::Ident;

/// A variant of a receiver, as the options leave it.
pub struct Variant<'a> {
    /// The name of its items.
    pub name_in_attr: &'a str,
    pub variant_ident: &'a Ident,
    /// The identifier of the enum.
    pub ty_ident: &'a Ident,
    pub body: Fields<Field<'a>>,
    /// Whether no item is for it.
    pub skip: bool,
    pub allow_unknown_fields: bool,
    /// Whether it is read as its one field is.
    pub transparent: bool,
}

impl<'a> Variant<'a> {
    /// The name of its items.
    pub fn as_name(&self) -> &str
        ensures { result.now ≡ self.now.name_in_attr.now }
    {
        self.name_in_attr
    }

    /// Adds the arm for an item of its name, where it is not skipped.
    pub(crate) fn push_data_arm(
        &self,
        alloc: Global,
        slot: u32,
        arms: &mut Items<VariantArm<Stmt>>,
    ) -> Mem<()>
        requires { slot + length (spec.slotted self.now) < 2 ^ 32 }
        ensures { OnOk result (arms.new ≡ arms.old ++ spec.variant_arm slot self.now) }
    {
        if self.skip {
            return Ok(());
        }
        let form = self.data_form(alloc, slot)?;
        let name = Text::from_str(alloc, self.name_in_attr)?;
        let ident = self.variant_ident.try_clone(alloc)?;
        arms.push(VariantArm { name, ident, form })
    }

    /// How it is read from an item.
    fn data_form(&self, alloc: Global, slot: u32) -> Mem<VariantForm<Stmt>>
        requires { slot + length (spec.slotted_by (spec.proxy_of self.now) self.now.body.fields) < 2 ^ 32 }
        ensures { IfOk result (λ it. it ≡ spec.variant_form slot self.now) }
    {
        match self.proxy() {
            Some(field) => self.transparent_form(alloc, field),
            None => self.own_form(alloc, slot),
        }
    }

    fn transparent_form(&self, alloc: Global, field: &Field<'_>) -> Mem<VariantForm<Stmt>>
        ensures { IfOk result (λ it. it ≡ VariantForm.Transparent (spec.member_name self.now.body.style field.now) field.now.ty.now) }
    {
        let member = member_name(alloc, self.body.style, field)?;
        let ty = field.ty.try_clone(alloc)?;
        Ok(VariantForm::Transparent { member, ty })
    }

    fn own_form(&self, alloc: Global, slot: u32) -> Mem<VariantForm<Stmt>>
        requires { slot + length self.now.body.fields < 2 ^ 32 }
        ensures { IfOk result (λ it. it ≡ spec.own_form self.now.body.style slot self.now) }
    {
        match self.body.style {
            Style::Unit => Ok(VariantForm::Unit),
            Style::Tuple => Ok(VariantForm::Struct(self.stmts(alloc, slot)?)),
            Style::Struct => Ok(VariantForm::Struct(self.stmts(alloc, slot)?)),
        }
    }

    /// The field as which it is read.
    fn proxy(&self) -> Option<&Field<'a>>
        ensures { option_copied result ≡ spec.proxy_of self.now }
    {
        extract_transparent(&self.body, self.transparent)
    }

    /// The statements that read it field by field.
    fn stmts(&self, alloc: Global, slot: u32) -> Mem<Items<Stmt>>
        requires { slot + length self.now.body.fields < 2 ^ 32 }
        ensures { IfOk result (λ it. it ≡ spec.variant_stmts slot self.now) }
    {
        let fields = self.fields_gen(slot);
        let mut stmts = Items::new(alloc);
        stmts.push(Stmt::DeclareErrors)?;
        fields.push_declarations(alloc, &mut stmts)?;
        stmts.push(fields.core_loop(alloc)?)?;
        fields.push_checks(alloc, &mut stmts)?;
        self.push_closing(alloc, slot, &mut stmts)?;
        Ok(stmts)
    }

    /// Adds what follows once its items are read.
    fn push_closing(&self, alloc: Global, slot: u32, stmts: &mut Items<Stmt>) -> Mem<()>
        requires { slot + length self.now.body.fields < 2 ^ 32 }
        ensures { OnOk result (stmts.new
            ≡ stmts.old ++ (Stmt.CheckErrors (Some self.now.name_in_attr.now) ∷ (spec.variant_build slot self.now ∷ []))) }
    {
        let location = Some(Text::from_str(alloc, self.name_in_attr)?);
        stmts.push(Stmt::CheckErrors { location })?;
        let build = self.build(alloc, slot)?;
        stmts.push(build)
    }

    fn build(&self, alloc: Global, slot: u32) -> Mem<Stmt>
        requires { slot + length self.now.body.fields < 2 ^ 32 }
        ensures { IfOk result (λ it. it ≡ spec.variant_build slot self.now) }
    {
        let name = self.ty_ident.try_clone(alloc)?;
        let variant = Some(self.variant_ident.try_clone(alloc)?);
        let inits = self.fields_gen(slot).initializers(alloc)?;
        let forwarded = Items::new(alloc);
        Ok(Stmt::Build {
            name,
            variant,
            forwarded,
            inits,
        })
    }

    fn fields_gen(&self, first_slot: u32) -> FieldsGen<'_, 'a>
        ensures fields { result.fields.now ≡ self.now.body.fields }
        ensures allow { result.allow_unknown_fields ≡ self.now.allow_unknown_fields }
        ensures first { result.first_slot ≡ first_slot }
    {
        FieldsGen {
            fields: self.body.fields.as_slice(),
            allow_unknown_fields: self.allow_unknown_fields,
            first_slot,
        }
    }

    /// The number of its slots.
    pub(crate) fn slots(&self) -> usize
        ensures { result ≡ length (spec.slotted self.now) }
    {
        if self.skip {
            return 0;
        }
        match self.proxy() {
            Some(_) => 0,
            None => self.body.fields.len(),
        }
    }

    /// Adds the arm for a string of its name, where it is not skipped.
    pub(crate) fn push_unit_arm(&self, alloc: Global, arms: &mut Items<UnitArm>) -> Mem<()>
        ensures { OnOk result (arms.new ≡ arms.old ++ spec.unit_arm self.now) }
    {
        if self.skip {
            return Ok(());
        }
        let form = self.unit_form(alloc)?;
        let name = Text::from_str(alloc, self.name_in_attr)?;
        let ident = self.variant_ident.try_clone(alloc)?;
        arms.push(UnitArm { name, ident, form })
    }

    /// What it is where its name stands alone.
    fn unit_form(&self, alloc: Global) -> Mem<UnitForm>
        ensures { IfOk result (λ it. it ≡ spec.unit_form self.now) }
    {
        match self.proxy() {
            Some(field) => {
                let member = member_name(alloc, self.body.style, field)?;
                let ty = field.ty.try_clone(alloc)?;
                Ok(UnitForm::Transparent { member, ty })
            }
            None => Ok(own_unit_form(self.body.style)),
        }
    }
}

fn own_unit_form(style: Style) -> UnitForm
    ensures { result ≡ spec.own_unit_form style }
{
    match style {
        Style::Unit => UnitForm::Unit,
        Style::Tuple => UnitForm::Other,
        Style::Struct => UnitForm::Other,
    }
}

/// The names that the types of its fields use.
impl<'a> Searched for Variant<'a> {
    ghost use Rattle.body_usage.specs.Ast.{members_mention};
    ghost use Rattle.body_usage.specs.Nodes.{type_mentions};

    ghost mentions = { λ it. members_mention (λ field. type_mentions field.ty.now) it.body };

    fn push_mentions<'n>(&'n self, in_qself: bool, found: &mut Mentions<'n>) -> Mem<()> {
        self.body.push_mentions(in_qself, found)
    }
}

impl<'a> Drop for Variant<'a> {
    fn drop(self) {
        let Self {
            name_in_attr: _,
            variant_ident: _,
            ty_ident: _,
            body: _body,
            skip: _,
            allow_unknown_fields: _,
            transparent: _,
        } = self;
    }
}
