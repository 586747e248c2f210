//! What the derives of outer elements share: one function, whose order is the same under each.

ghost use Rattle.std.specs.Prelude.{◌≡◌, ◌++◌, ◌<◌, ◌^◌, length, IfOk, OnOk};
ghost use Rattle.codegen_core.specs.Compiled.{fields_of};
ghost use Rattle.codegen_outer.specs.CompiledOuter as spec;
ghost use Rattle.codegen_outer.specs.Forwarding.{is_nothing};

use crate::attrs_field::ForwardAttrs;
use crate::outer_impl::OuterImpl;
use base_core::{Items, Mem};
use body_core::ast::{Data, Fields};
use codegen_core::{Field, TraitImpl, extract_transparent};
use codegen_program::{Derive, Forward, Forwarded, Func, FuncName, Stmt, Unit};
use node_core::Style;
use options_types::PathList;
use std::alloc::Global;

/// What the derive of an outer element is compiled from.
pub trait OuterFromImpl<'a>: Sized {
    ghost use Rattle.codegen_outer.specs.Outer.{Outer};

    /// All that it is compiled from.
    ghost outer: { Self → Outer };

    fn derive(&self) -> Derive
        ensures { result ≡ (outer self.now).derive };

    /// What it is compiled from whatever element it reads.
    fn as_outer(&self) -> &OuterImpl<'a>
        ensures base { result.now.base ≡ (outer self.now).base }
        ensures names { result.now.attr_names.now.0 ≡ (outer self.now).names }
        ensures forward { result.now.forward_attrs ≡ (outer self.now).forward }
        ensures from_ident { result.now.from_ident ≡ (outer self.now).from_ident };

    /// The members that take a part of the element, in the order in which they are written.
    fn parts(&self, alloc: Global) -> Mem<Items<Forwarded>>
        ensures { IfOk result (λ it. it ≡ (outer self.now).parts) };

    /// Adds what looks at the shape of the element, and what reads parts of it.
    fn push_reads(&self, alloc: Global, stmts: &mut Items<Stmt>) -> Mem<()>
        ensures { OnOk result (stmts.new ≡ stmts.old ++ (outer self.now).reads) };

    /// The unit: the one function of the derive.
    final fn unit_of(&self, alloc: Global, decl: u32) -> Mem<Unit>
        requires few { length (fields_of (outer self.now).base) < 2 ^ 32 }
        ensures { IfOk result (λ unit. unit ≡ spec.compiled_outer (outer self.now) decl) }
    {
        let derive = self.derive();
        let name = func_of(derive);
        let stmts = func_stmts(self, alloc)?;
        let funcs = Items::of(alloc, Func { name, stmts })?;
        let base = &self.as_outer().base;
        base.unit_with(alloc, decl, derive, false, funcs)
    }
}

/// The function of the derive.
fn func_of(derive: Derive) -> FuncName
    ensures { result ≡ spec.func_of derive }
{
    match derive {
        Derive::FromMeta => FuncName::FromMeta,
        Derive::FromAttributes => FuncName::FromAttributes,
        Derive::FromDeriveInput => FuncName::FromDeriveInput,
        Derive::FromField => FuncName::FromField,
        Derive::FromTypeParam => FuncName::FromTypeParam,
        Derive::FromVariant => FuncName::FromVariant,
    }
}

/// Whether a struct may be read as its one field is.
fn has_whole(derive: Derive) -> bool
    ensures { result ≡ spec.has_whole derive }
{
    match derive {
        Derive::FromMeta | Derive::FromAttributes | Derive::FromDeriveInput => true,
        Derive::FromField | Derive::FromTypeParam | Derive::FromVariant => false,
    }
}

fn func_stmts<'a, I: OuterFromImpl<'a>>(it: &I, alloc: Global) -> Mem<Items<Stmt>>
    requires { length (fields_of (I.outer it.now).base) < 2 ^ 32 }
    ensures { IfOk result (λ stmts. stmts ≡ spec.func_stmts (I.outer it.now)) }
{
    match &it.as_outer().base.body {
        Data::Struct(fields) => struct_stmts(it, alloc, fields),
        Data::Enum(_) => outer_stmts(it, alloc),
    }
}

fn struct_stmts<'a, I: OuterFromImpl<'a>>(
    it: &I,
    alloc: Global,
    fields: &Fields<Field<'a>>,
) -> Mem<Items<Stmt>>
    requires { length (fields_of (I.outer it.now).base) < 2 ^ 32 }
    ensures { IfOk result (λ stmts. stmts ≡ spec.struct_stmts (I.outer it.now) fields.now) }
{
    let base = &it.as_outer().base;
    if !has_whole(it.derive()) {
        return outer_stmts(it, alloc);
    }
    match extract_transparent(fields, base.transparent) {
        Some(field) => whole_stmts(alloc, base, fields.style, field),
        None => outer_stmts(it, alloc),
    }
}

/// Reads the receiver as its one field is read.
fn whole_stmts(
    alloc: Global,
    base: &TraitImpl<'_>,
    style: Style,
    field: &Field<'_>,
) -> Mem<Items<Stmt>>
    ensures { IfOk result (λ stmts. stmts ≡ spec.whole_stmts base.now style field.now) }
{
    let mut stmts = Items::of(alloc, base.delegate(alloc, style, field)?)?;
    base.push_transform(alloc, &mut stmts)?;
    Ok(stmts)
}

/// Reads the receiver field by field.
fn outer_stmts<'a, I: OuterFromImpl<'a>>(it: &I, alloc: Global) -> Mem<Items<Stmt>>
    requires { length (fields_of (I.outer it.now).base) < 2 ^ 32 }
    ensures { IfOk result (λ stmts. stmts ≡ spec.outer_stmts (I.outer it.now)) }
{
    let outer = it.as_outer();
    let base = &outer.base;
    let kept = &outer.forward_attrs;
    let mut stmts = Items::new(alloc);
    stmts.push(Stmt::DeclareErrors)?;
    base.fields_gen().push_declarations(alloc, &mut stmts)?;
    kept.push_declaration(alloc, &mut stmts)?;
    push_attributes(alloc, base, outer.attr_names, kept, &mut stmts)?;
    kept.push_done(alloc, &mut stmts)?;
    it.push_reads(alloc, &mut stmts)?;
    let parts = it.parts(alloc)?;
    base.push_closing(alloc, parts, outer.from_ident, &mut stmts)?;
    Ok(stmts)
}

/// Adds the loop over the attributes, where some are read or kept.
fn push_attributes(
    alloc: Global,
    base: &TraitImpl<'_>,
    attr_names: &PathList,
    forward_attrs: &ForwardAttrs<'_>,
    stmts: &mut Items<Stmt>,
) -> Mem<()>
    requires { length (fields_of base.now) < 2 ^ 32 }
    ensures { OnOk result (stmts.new ≡ stmts.old ++ spec.for_attributes attr_names.now.0 forward_attrs.now base.now) }
{
    let forward = forward_attrs.to_forward(alloc)?;
    let names = Items::from_vec(attr_names.to_strings(alloc)?);
    if names.is_empty() {
        return push_kept(alloc, forward, stmts);
    }
    let items = Items::of(alloc, base.fields_gen().core_loop(alloc)?)?;
    stmts.push(Stmt::ForAttributes {
        names,
        items,
        forward,
    })
}

/// Adds the loop over the attributes, where none is read and some are kept.
fn push_kept(alloc: Global, forward: Forward, stmts: &mut Items<Stmt>) -> Mem<()>
    ensures { OnOk result (stmts.new ≡ stmts.old ++ spec.over_kept forward) }
{
    if is_nothing(&forward) {
        return Ok(());
    }
    stmts.push(Stmt::ForAttributes {
        names: Items::new(alloc),
        items: Items::new(alloc),
        forward,
    })
}

fn is_nothing(forward: &Forward) -> bool
    ensures { result ≡ is_nothing forward.now }
{
    match forward {
        Forward::Nothing => true,
        Forward::All => false,
        Forward::Only(_) => false,
    }
}
