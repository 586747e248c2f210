//! What `FromMeta` compiles to.

ghost use Rattle.std.specs.Prelude.{◌≡◌, ◌++◌, ◌<◌, ◌^◌, ◌∷◌, [], length, IfOk, OnOk};
ghost use Rattle.std.specs.Option.{option_copied};
ghost use Rattle.codegen_core.specs.Compiled as spec;
ghost use Rattle.codegen_core.specs.Variants.{slots_in};

use crate::field::Field;
use crate::trait_impl::TraitImpl;
use crate::transparent::extract_transparent;
use crate::variant::Variant;
use crate::variants::{list_stmt, string_stmt};
use base_core::{Items, Mem, TryClone};
use body_core::ast::{Data, Fields};
use codegen_program::{Callable, Derive, Func, FuncName, Stmt, Unit};
use node_core::Style;
use std::alloc::Global;

/// A receiver that derives `FromMeta`.
pub struct FromMetaImpl<'a> {
    pub base: TraitImpl<'a>,
    /// What a word alone is read by: what the option names, or the variant whose word it is.
    pub from_word: Option<Callable>,
    pub from_none: Option<&'a Callable>,
    pub from_expr: Option<&'a Callable>,
    /// Whether the type is read by `syn` too.
    pub derive_syn_parse: bool,
}

impl<'a> FromMetaImpl<'a> {
    /// The unit of a struct or of an enum, whatever its form is.
    pub fn unit_of(&self, alloc: Global, decl: u32) -> Mem<Unit>
        requires few { spec.slot_count self.now.base.body < 2 ^ 32 }
        ensures { IfOk result (λ unit. unit ≡ spec.compiled_meta self.now decl) }
    {
        let funcs = self.funcs(alloc)?;
        let parse_impl = self.derive_syn_parse;
        self.base
            .unit_with(alloc, decl, Derive::FromMeta, parse_impl, funcs)
    }

    fn funcs(&self, alloc: Global) -> Mem<Items<Func>>
        requires { spec.slot_count self.now.base.body < 2 ^ 32 }
        ensures { IfOk result (λ it. it ≡ spec.meta_funcs self.now) }
    {
        match &self.base.body {
            Data::Struct(fields) => self.struct_funcs(alloc, fields),
            Data::Enum(variants) => self.enum_funcs(alloc, variants.as_slice()),
        }
    }

    fn struct_funcs(&self, alloc: Global, fields: &Fields<Field<'a>>) -> Mem<Items<Func>>
        requires { length (spec.fields_of self.now.base) < 2 ^ 32 }
        ensures { IfOk result (λ it. it ≡ spec.struct_funcs self.now fields.now) }
    {
        match extract_transparent(fields, self.base.transparent) {
            Some(field) => self.whole_funcs(alloc, fields.style, field),
            None => self.own_funcs(alloc, fields.style),
        }
    }

    /// The functions of a struct that is read as its one field is.
    fn whole_funcs(&self, alloc: Global, style: Style, field: &Field<'_>) -> Mem<Items<Func>>
        ensures { IfOk result (λ it. it ≡ spec.whole_funcs self.now.base style field.now) }
    {
        let stmt = self.base.delegate(alloc, style, field)?;
        one_func(alloc, FuncName::FromMeta, Items::of(alloc, stmt)?)
    }

    fn own_funcs(&self, alloc: Global, style: Style) -> Mem<Items<Func>>
        requires { length (spec.fields_of self.now.base) < 2 ^ 32 }
        ensures { IfOk result (λ it. it ≡ spec.own_funcs style self.now) }
    {
        match style {
            Style::Unit => self.unit_funcs(alloc),
            Style::Tuple => self.list_funcs(alloc),
            Style::Struct => self.list_funcs(alloc),
        }
    }

    /// The functions of a unit struct: a word is the struct.
    fn unit_funcs(&self, alloc: Global) -> Mem<Items<Func>>
        requires { length (spec.fields_of self.now.base) < 2 ^ 32 }
        ensures { IfOk result (λ it. it ≡ spec.unit_funcs self.now.base) }
    {
        let mut stmts = Items::new(alloc);
        let parts = Items::new(alloc);
        self.base.push_build(alloc, parts, &mut stmts)?;
        one_func(alloc, FuncName::FromWord, stmts)
    }

    /// The functions of a struct that is read field by field.
    fn list_funcs(&self, alloc: Global) -> Mem<Items<Func>>
        requires { length (spec.fields_of self.now.base) < 2 ^ 32 }
        ensures { IfOk result (λ it. it ≡ spec.list_funcs self.now) }
    {
        let mut funcs = Items::new(alloc);
        self.push_calls(alloc, &mut funcs)?;
        let name = FuncName::FromList;
        let stmts = self.list_stmts(alloc)?;
        funcs.push(Func { name, stmts })?;
        Ok(funcs)
    }

    /// The functions of an enum: its variants, and then what callables answer.
    fn enum_funcs(&self, alloc: Global, variants: &[Variant<'_>]) -> Mem<Items<Func>>
        requires { slots_in variants.now < 2 ^ 32 }
        ensures { IfOk result (λ it. it ≡ spec.enum_funcs self.now variants.now) }
    {
        let mut funcs = Items::new(alloc);
        push_func(
            alloc,
            FuncName::FromList,
            list_stmt(alloc, variants)?,
            &mut funcs,
        )?;
        push_func(
            alloc,
            FuncName::FromString,
            string_stmt(alloc, variants)?,
            &mut funcs,
        )?;
        self.push_calls(alloc, &mut funcs)?;
        Ok(funcs)
    }

    /// Adds the functions that answer what a callable gives.
    fn push_calls(&self, alloc: Global, funcs: &mut Items<Func>) -> Mem<()>
        ensures { OnOk result (funcs.new ≡ funcs.old ++ spec.call_funcs self.now) }
    {
        push_call(alloc, FuncName::FromWord, self.from_word.as_ref(), funcs)?;
        push_call(alloc, FuncName::FromNone, self.from_none, funcs)?;
        push_call(alloc, FuncName::FromExpr, self.from_expr, funcs)
    }

    fn list_stmts(&self, alloc: Global) -> Mem<Items<Stmt>>
        requires { length (spec.fields_of self.now.base) < 2 ^ 32 }
        ensures { IfOk result (λ it. it ≡ spec.list_stmts self.now.base) }
    {
        let mut stmts = Items::new(alloc);
        self.base.fields_gen().push_declarations(alloc, &mut stmts)?;
        stmts.push(Stmt::DeclareErrors)?;
        stmts.push(self.base.fields_gen().core_loop(alloc)?)?;
        let parts = Items::new(alloc);
        self.base.push_closing(alloc, parts, false, &mut stmts)?;
        Ok(stmts)
    }
}

/// This function alone.
fn one_func(alloc: Global, name: FuncName, stmts: Items<Stmt>) -> Mem<Items<Func>>
    ensures { IfOk result (λ it. it ≡ record { name = name; stmts = stmts } ∷ []) }
{
    Items::of(alloc, Func { name, stmts })
}

/// Adds the function of this one statement.
fn push_func(alloc: Global, name: FuncName, stmt: Stmt, funcs: &mut Items<Func>) -> Mem<()>
    ensures { OnOk result (funcs.new ≡ funcs.old ++ record { name = name; stmts = stmt ∷ [] } ∷ []) }
{
    let stmts = Items::of(alloc, stmt)?;
    funcs.push(Func { name, stmts })
}

/// Adds the function that answers what the callable gives, where there is one.
fn push_call(
    alloc: Global,
    name: FuncName,
    callable: Option<&Callable>,
    funcs: &mut Items<Func>,
) -> Mem<()>
    ensures { OnOk result (funcs.new ≡ funcs.old ++ spec.call_func name (option_copied callable.entry)) }
{
    let Some(callable) = callable else {
        return Ok(());
    };
    let callable = callable.try_clone(alloc)?;
    push_func(alloc, name, Stmt::Call { callable, at: name }, funcs)
}

impl<'a> Drop for FromMetaImpl<'a> {
    fn drop(self) {
        let Self {
            base: _base,
            from_word: _from_word,
            from_none: _,
            from_expr: _,
            derive_syn_parse: _,
        } = self;
    }
}
