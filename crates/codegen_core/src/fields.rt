//! The fields of a struct or of a variant, one by one: each has a slot, and the slots are numbered in order.

ghost use Rattle.std.specs.Prelude.{◌≡◌, ◌++◌, ◌+◌, ◌<◌, ◌^◌, length, IfOk, OnOk};
ghost use Rattle.std.specs.List.{list_any};
ghost use Rattle.codegen_core.specs.Fields as spec;

use crate::field::Field;
use base_core::{Items, Mem, Text};
use body_core::ast::Fields;
use codegen_program::{Alternatives, Arm, Arms, Init, Rest, Stmt};
use std::alloc::Global;

/// The fields of a struct or of a variant, and whether items that are for none of them are let pass.
pub struct FieldsGen<'f, 'a> {
    pub fields: &'f [Field<'a>],
    pub allow_unknown_fields: bool,
    /// The slot of the first field.
    pub(crate) first_slot: u32,
}

impl<'f, 'a> FieldsGen<'f, 'a> {
    /// What is generated for the fields of a struct, whose unknown items are faults unless they are allowed.
    pub fn new(fields: &'f Fields<Field<'a>>, allow_unknown_fields: bool) -> FieldsGen<'f, 'a>
        ensures fields { result.fields.now ≡ fields.now.fields }
        ensures allow { result.allow_unknown_fields ≡ allow_unknown_fields }
        ensures first { result.first_slot ≡ 0 }
    {
        FieldsGen {
            fields: fields.fields.as_slice(),
            allow_unknown_fields,
            first_slot: 0,
        }
    }

    /// Adds what declares the slots.
    pub fn push_declarations(&self, alloc: Global, stmts: &mut Items<Stmt>) -> Mem<()>
        requires { self.now.first_slot + length self.now.fields.now < 2 ^ 32 }
        ensures { OnOk result (stmts.new ≡ stmts.old ++ spec.declarations_from self.now.first_slot self.now.fields.now) }
    {
        let fields = self.fields;
        let mut slot = self.first_slot;
        for field in fields {
            field.push_declaration(alloc, slot, stmts)?;
            slot += 1;
        }
        Ok(())
    }

    /// The loop over the items.
    pub fn core_loop(&self, alloc: Global) -> Mem<Stmt>
        requires { self.now.first_slot + length self.now.fields.now < 2 ^ 32 }
        ensures { IfOk result (λ it. it ≡ spec.core_loop_from self.now.first_slot self.now.allow_unknown_fields self.now.fields.now) }
    {
        let arms = Arms::new(alloc, self.arms(alloc)?)?;
        let rest = self.rest(alloc)?;
        Ok(Stmt::ForItems { arms, rest })
    }

    /// The arms of the fields that have a name.
    fn arms(&self, alloc: Global) -> Mem<Items<Arm>>
        requires { self.now.first_slot + length self.now.fields.now < 2 ^ 32 }
        ensures { IfOk result (λ it. it ≡ spec.arms_from self.now.first_slot self.now.fields.now) }
    {
        let fields = self.fields;
        let mut arms = Items::new(alloc);
        let mut slot = self.first_slot;
        for field in fields {
            field.push_arm(alloc, slot, &mut arms)?;
            slot += 1;
        }
        Ok(arms)
    }

    /// What an item does that no arm is for.
    fn rest(&self, alloc: Global) -> Mem<Rest>
        ensures { IfOk result (λ it. it ≡ spec.rest self.now.allow_unknown_fields self.now.fields.now) }
    {
        if has_flatten(self.fields) {
            return Ok(Rest::Buffer);
        }
        if self.allow_unknown_fields {
            return Ok(Rest::Ignore);
        }
        Ok(Rest::Unknown(alternatives(alloc, self.fields)?))
    }

    /// Adds the reading of the items that were kept for a flattened field, whose slots are numbered from 0.
    pub(crate) fn push_flattens(&self, alloc: Global, stmts: &mut Items<Stmt>) -> Mem<()>
        requires { length self.now.fields.now < 2 ^ 32 }
        ensures { OnOk result (stmts.new ≡ stmts.old ++ spec.flattens self.now.fields.now) }
    {
        let fields = self.fields;
        let names = alternatives(alloc, fields)?;
        let mut slot = 0;
        for field in fields {
            field.push_flatten(alloc, slot, &names, stmts)?;
            slot += 1;
        }
        Ok(())
    }

    /// Adds the look at each slot that has to be written.
    pub(crate) fn push_checks(&self, alloc: Global, stmts: &mut Items<Stmt>) -> Mem<()>
        requires { self.now.first_slot + length self.now.fields.now < 2 ^ 32 }
        ensures { OnOk result (stmts.new ≡ stmts.old ++ spec.checks_from self.now.first_slot self.now.fields.now) }
    {
        let fields = self.fields;
        let mut slot = self.first_slot;
        for field in fields {
            field.push_check(alloc, slot, stmts)?;
            slot += 1;
        }
        Ok(())
    }

    /// The members that the fields become.
    pub(crate) fn initializers(&self, alloc: Global) -> Mem<Items<Init>>
        requires { self.now.first_slot + length self.now.fields.now < 2 ^ 32 }
        ensures { IfOk result (λ it. it ≡ spec.inits_from self.now.first_slot self.now.fields.now) }
    {
        let fields = self.fields;
        let mut inits = Items::new(alloc);
        let mut slot = self.first_slot;
        for field in fields {
            let init = field.to_init(alloc, slot)?;
            inits.push(init)?;
            slot += 1;
        }
        Ok(inits)
    }
}

fn has_flatten(fields: &[Field<'_>]) -> bool
    ensures { result ≡ list_any (λ field. field.flatten) fields.now }
{
    fields.iter().any(|field| field.flatten)
}

/// What faults offer: the names of the fields that have one.
fn alternatives(alloc: Global, fields: &[Field<'_>]) -> Mem<Alternatives>
    ensures { IfOk result (λ it. it ≡ spec.names fields.now) }
{
    Alternatives::new(alloc, names_of(alloc, fields)?)
}

/// The names of the fields that have one.
fn names_of(alloc: Global, fields: &[Field<'_>]) -> Mem<Items<Text>>
    ensures { IfOk result (λ it. it ≡ spec.names fields.now) }
{
    let mut names = Items::new(alloc);
    for field in fields {
        if let Some(name) = field.as_name() {
            let name = Text::from_str(alloc, name)?;
            names.push(name)?;
        }
    }
    Ok(names)
}

impl<'f, 'a> Drop for FieldsGen<'f, 'a> {
    fn drop(self) {
        let Self {
            fields: _,
            allow_unknown_fields: _,
            first_slot: _,
        } = self;
    }
}
