//! A field of a receiver, and what it compiles to alone.

ghost use Rattle.std.specs.Prelude.{◌≡◌, ◌++◌, IfOk, OnOk};
ghost use Rattle.std.specs.Option.{option_copied};
ghost use Rattle.codegen_core.specs.Fields as spec;

use crate::default_expression::DefaultExpression;
use crate::overrideable_callable::OverrideableCallable;
use base_core::{Items, Mem, Text, TryClone};
use body_usage::{Mentions, Searched};
use codegen_program::{Alternatives, Arm, Fallback, Init, PostfixTransform, Stmt};
use node_expr::Type;
use std::alloc::Global;
use tok_types::Ident;

/// A field of a receiver, as the options leave it.
pub struct Field<'a> {
    pub ident: &'a Ident,
    /// The name of its items.
    pub name_in_attr: &'a str,
    /// Whether no item is for it.
    pub skip: bool,
    /// Whether it is read from the items that no other field takes.
    pub flatten: bool,
    /// Whether it takes all items of its name.
    pub multiple: bool,
    pub ty: &'a Type,
    pub with_callable: OverrideableCallable<'a>,
    pub post_transform: Option<&'a PostfixTransform>,
    pub default_expression: Option<DefaultExpression<'a>>,
}

impl<'a> Field<'a> {
    /// The name of its items; none where it is skipped or flattened.
    pub fn as_name(&self) -> Option<&str>
        ensures { option_copied result ≡ spec.name_of self.now }
    {
        if self.skip || self.flatten {
            None
        } else {
            Some(self.name_in_attr)
        }
    }

    /// Adds what declares the field's slot.
    pub(crate) fn push_declaration(
        &self,
        alloc: Global,
        slot: u32,
        stmts: &mut Items<Stmt>,
    ) -> Mem<()>
        ensures { OnOk result (stmts.new ≡ stmts.old ++ spec.declaration slot self.now) }
    {
        let stmt = self.slot_declaration(alloc, slot)?;
        stmts.push(stmt)?;
        if self.flatten {
            stmts.push(Stmt::DeclareBuffer)?;
        }
        Ok(())
    }

    fn slot_declaration(&self, alloc: Global, slot: u32) -> Mem<Stmt>
        ensures { IfOk result (λ it. it ≡ spec.slot_declaration slot self.now) }
    {
        let ident = self.ident.try_clone(alloc)?;
        let ty = self.ty.try_clone(alloc)?;
        if self.multiple {
            Ok(Stmt::DeclareMany { slot, ident, ty })
        } else {
            Ok(Stmt::DeclareOne { slot, ident, ty })
        }
    }

    /// Adds the arm for the field's items, where it has a name.
    pub(crate) fn push_arm(&self, alloc: Global, slot: u32, arms: &mut Items<Arm>) -> Mem<()>
        ensures { OnOk result (arms.new ≡ arms.old ++ spec.arm slot self.now) }
    {
        let Some(name) = self.as_name() else {
            return Ok(());
        };
        let name = Text::from_str(alloc, name)?;
        let with = self.with_callable.to_custom(alloc)?;
        let post = clone_of(alloc, self.post_transform)?;
        let many = self.multiple;
        arms.push(Arm {
            name,
            slot,
            many,
            with,
            post,
        })
    }

    /// Adds the reading of the items that were kept, where the field is flattened.
    pub(crate) fn push_flatten(
        &self,
        alloc: Global,
        slot: u32,
        names: &Alternatives,
        stmts: &mut Items<Stmt>,
    ) -> Mem<()>
        ensures { OnOk result (stmts.new ≡ stmts.old ++ spec.flatten names.now slot self.now) }
    {
        if !self.flatten {
            return Ok(());
        }
        let names = names.try_clone(alloc)?;
        stmts.push(Stmt::ReadFlatten { slot, names })
    }

    /// Adds the look at the field's slot, where it has to be written.
    pub(crate) fn push_check(&self, alloc: Global, slot: u32, stmts: &mut Items<Stmt>) -> Mem<()>
        ensures { OnOk result (stmts.new ≡ stmts.old ++ spec.check slot self.now) }
    {
        if self.multiple || self.default_expression.is_some() {
            return Ok(());
        }
        let ty = self.ty.try_clone(alloc)?;
        let name = Text::from_str(alloc, self.name_in_attr)?;
        stmts.push(Stmt::CheckMissing { slot, ty, name })
    }

    /// The member that the field becomes.
    pub(crate) fn to_init(&self, alloc: Global, slot: u32) -> Mem<Init>
        ensures { IfOk result (λ it. it ≡ spec.init slot self.now) }
    {
        let member = self.ident.to_text(alloc)?;
        let fallback = self.to_fallback(alloc)?;
        let many = self.multiple;
        Ok(Init {
            member,
            slot,
            many,
            fallback,
        })
    }

    fn to_fallback(&self, alloc: Global) -> Mem<Option<Fallback>>
        ensures { IfOk result (λ it. it ≡ spec.fallback_of self.now) }
    {
        match &self.default_expression {
            Some(it) => Ok(Some(it.to_fallback(alloc)?)),
            None => Ok(None),
        }
    }
}

/// The names that the field's type uses.
impl<'a> Searched for Field<'a> {
    ghost use Rattle.body_usage.specs.Nodes.{type_mentions};

    ghost mentions = { λ field. type_mentions field.ty.now };

    fn push_mentions<'n>(&'n self, in_qself: bool, found: &mut Mentions<'n>) -> Mem<()> {
        self.ty.push_mentions(in_qself, found)
    }
}

impl<'a> Drop for Field<'a> {
    fn drop(self) {
        let Self {
            name_in_attr: _,
            ident: _,
            ty: _,
            default_expression: _default_expression,
            with_callable: _with_callable,
            post_transform: _,
            skip: _,
            multiple: _,
            flatten: _,
        } = self;
    }
}

/// A copy of the transform.
pub(crate) fn clone_of(
    alloc: Global,
    post: Option<&PostfixTransform>,
) -> Mem<Option<PostfixTransform>>
    ensures { IfOk result (λ it. it ≡ option_copied post.entry) }
{
    match post {
        Some(it) => Ok(Some(it.try_clone(alloc)?)),
        None => Ok(None),
    }
}
