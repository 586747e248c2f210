//! Copies of statements, and of the statements in them.

ghost use Rattle.std.specs.Prelude.{◌≡◌, IfOk};

use crate::stmt::Stmt;
use crate::variant::{VariantArm, VariantForm};
use crate::variant_arms::VariantArms;
use base_core::{Items, Mem, TryClone};
use std::alloc::Global;

impl TryClone for Stmt {
    #[cycle(clone)]
    fn try_clone(&self, alloc: Global) -> Mem<Stmt> {
        match self {
            Stmt::Variants { arms, names } => Ok(Stmt::Variants {
                arms: clone_arms(arms, alloc)?,
                names: names.try_clone(alloc)?,
            }),
            Stmt::ForAttributes {
                names,
                items,
                forward,
            } => Ok(Stmt::ForAttributes {
                names: names.try_clone(alloc)?,
                items: clone_stmts(items, alloc)?,
                forward: forward.try_clone(alloc)?,
            }),
            Stmt::DeclareErrors => Ok(Stmt::DeclareErrors),
            Stmt::DeclareOne { slot, ident, ty } => Ok(Stmt::DeclareOne {
                slot: *slot,
                ident: ident.try_clone(alloc)?,
                ty: ty.try_clone(alloc)?,
            }),
            Stmt::DeclareMany { slot, ident, ty } => Ok(Stmt::DeclareMany {
                slot: *slot,
                ident: ident.try_clone(alloc)?,
                ty: ty.try_clone(alloc)?,
            }),
            Stmt::DeclareBuffer => Ok(Stmt::DeclareBuffer),
            Stmt::DeclareForward { ident } => Ok(Stmt::DeclareForward {
                ident: ident.try_clone(alloc)?,
            }),
            Stmt::ForwardDone { ident, with } => Ok(Stmt::ForwardDone {
                ident: ident.try_clone(alloc)?,
                with: with.try_clone(alloc)?,
            }),
            Stmt::ForItems { arms, rest } => Ok(Stmt::ForItems {
                arms: arms.try_clone(alloc)?,
                rest: rest.try_clone(alloc)?,
            }),
            Stmt::ReadFlatten { slot, names } => Ok(Stmt::ReadFlatten {
                slot: *slot,
                names: names.try_clone(alloc)?,
            }),
            Stmt::CheckMissing { slot, ty, name } => Ok(Stmt::CheckMissing {
                slot: *slot,
                ty: ty.try_clone(alloc)?,
                name: name.try_clone(alloc)?,
            }),
            Stmt::CheckErrors { location } => Ok(Stmt::CheckErrors {
                location: location.try_clone(alloc)?,
            }),
            Stmt::SetDefault { from } => Ok(Stmt::SetDefault {
                from: from.try_clone(alloc)?,
            }),
            Stmt::Build {
                name,
                variant,
                forwarded,
                inits,
            } => Ok(Stmt::Build {
                name: name.try_clone(alloc)?,
                variant: variant.try_clone(alloc)?,
                forwarded: forwarded.try_clone(alloc)?,
                inits: inits.try_clone(alloc)?,
            }),
            Stmt::Transform { post } => Ok(Stmt::Transform {
                post: post.try_clone(alloc)?,
            }),
            Stmt::CheckShape { shapes } => Ok(Stmt::CheckShape { shapes: *shapes }),
            Stmt::ReadBody { ident, with } => Ok(Stmt::ReadBody {
                ident: ident.try_clone(alloc)?,
                with: with.try_clone(alloc)?,
            }),
            Stmt::ReadGenerics { ident, with } => Ok(Stmt::ReadGenerics {
                ident: ident.try_clone(alloc)?,
                with: with.try_clone(alloc)?,
            }),
            Stmt::Delegate { name, member, ty } => Ok(Stmt::Delegate {
                name: name.try_clone(alloc)?,
                member: member.try_clone(alloc)?,
                ty: ty.try_clone(alloc)?,
            }),
            Stmt::UnitNames { arms, names } => Ok(Stmt::UnitNames {
                arms: arms.try_clone(alloc)?,
                names: names.try_clone(alloc)?,
            }),
            Stmt::Call { callable, at } => Ok(Stmt::Call {
                callable: callable.try_clone(alloc)?,
                at: *at,
            }),
        }
    }
}

#[cycle(clone)]
fn clone_stmts(stmts: &Items<Stmt>, alloc: Global) -> Mem<Items<Stmt>>
    ensures { IfOk result (λ copies. copies ≡ stmts.now) }
{
    let mut copies = Items::new(alloc);
    for stmt in stmts.as_slice() {
        let copy = stmt.try_clone(alloc)?;
        copies.push(copy)?;
    }
    Ok(copies)
}

#[cycle(clone)]
fn clone_arms(arms: &VariantArms<Stmt>, alloc: Global) -> Mem<VariantArms<Stmt>>
    ensures { IfOk result (λ copies. copies ≡ arms.now) }
{
    let mut copies = Items::new(alloc);
    for arm in arms.as_slice() {
        let copy = clone_arm(arm, alloc)?;
        copies.push(copy)?;
    }
    VariantArms::new(alloc, copies)
}

#[cycle(clone)]
fn clone_arm(arm: &VariantArm<Stmt>, alloc: Global) -> Mem<VariantArm<Stmt>>
    ensures { IfOk result (λ copy. copy ≡ arm.now) }
{
    let form = clone_form(&arm.form, alloc)?;
    let name = arm.name.try_clone(alloc)?;
    let ident = arm.ident.try_clone(alloc)?;
    Ok(VariantArm { name, ident, form })
}

#[cycle(clone)]
fn clone_form(form: &VariantForm<Stmt>, alloc: Global) -> Mem<VariantForm<Stmt>>
    ensures { IfOk result (λ copy. copy ≡ form.now) }
{
    match form {
        VariantForm::Unit => Ok(VariantForm::Unit),
        VariantForm::Transparent { member, ty } => Ok(VariantForm::Transparent {
            member: member.try_clone(alloc)?,
            ty: ty.try_clone(alloc)?,
        }),
        VariantForm::Struct(stmts) => Ok(VariantForm::Struct(clone_stmts(stmts, alloc)?)),
    }
}
