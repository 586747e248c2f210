//! Programs, their units, and the functions of a unit.

use crate::decls::Decls;
use crate::stmt::Stmt;
use base_core::{Items, Mem, TryClone};
use node_core::Generics;
use node_expr::Path;
use std::alloc::Global;
use tok_types::Ident;

/// The traits that a receiver derives.
#[derive(Clone, Copy, Debug, PartialEq, Eq)]
pub enum Derive {
    FromMeta,
    FromAttributes,
    FromDeriveInput,
    FromField,
    FromTypeParam,
    FromVariant,
}

impl TryClone for Derive {
    fn try_clone(&self, _alloc: Global) -> Mem<Derive> {
        Ok(*self)
    }
}

/// The declarations of receivers, and what their derives compile to.
pub struct Program {
    /// The declarations, without attributes.
    pub decls: Decls,
    pub units: Items<Unit>,
}

impl Drop for Program {
    fn drop(self) {
        let Self {
            decls: _decls,
            units: _units,
        } = self;
    }
}

impl TryClone for Program {
    fn try_clone(&self, alloc: Global) -> Mem<Program> {
        let decls = self.decls.try_clone(alloc)?;
        let units = self.units.try_clone(alloc)?;
        Ok(Program { decls, units })
    }
}

/// What one derive of a declaration compiles to.
pub struct Unit {
    /// The declaration's number, from 0 on.
    pub decl: u32,
    pub derive: Derive,
    pub ident: Ident,
    pub generics: Generics,
    /// The path to `darling`, where it is not the usual one.
    pub krate: Option<Path>,
    /// Whether the type is read by `syn` too.
    pub parse_impl: bool,
    pub funcs: Items<Func>,
}

impl Drop for Unit {
    fn drop(self) {
        let Self {
            decl: _,
            derive: _,
            ident: _ident,
            generics: _generics,
            krate: _krate,
            parse_impl: _,
            funcs: _funcs,
        } = self;
    }
}

impl TryClone for Unit {
    fn try_clone(&self, alloc: Global) -> Mem<Unit> {
        let ident = self.ident.try_clone(alloc)?;
        let generics = self.generics.try_clone(alloc)?;
        let krate = self.krate.try_clone(alloc)?;
        let funcs = self.funcs.try_clone(alloc)?;
        Ok(Unit {
            decl: self.decl,
            derive: self.derive,
            ident,
            generics,
            krate,
            parse_impl: self.parse_impl,
            funcs,
        })
    }
}

/// A function of a unit.
pub struct Func {
    pub name: FuncName,
    pub stmts: Items<Stmt>,
}

impl Drop for Func {
    fn drop(self) {
        let Self {
            name: _,
            stmts: _stmts,
        } = self;
    }
}

impl TryClone for Func {
    fn try_clone(&self, alloc: Global) -> Mem<Func> {
        let stmts = self.stmts.try_clone(alloc)?;
        Ok(Func {
            name: self.name,
            stmts,
        })
    }
}

/// The function of a trait that a function of a unit is.
#[derive(Clone, Copy, PartialEq, Eq)]
pub enum FuncName {
    FromMeta,
    FromWord,
    FromList,
    FromString,
    FromNone,
    FromExpr,
    FromAttributes,
    FromDeriveInput,
    FromField,
    FromTypeParam,
    FromVariant,
}

impl TryClone for FuncName {
    fn try_clone(&self, _alloc: Global) -> Mem<FuncName> {
        Ok(*self)
    }
}
