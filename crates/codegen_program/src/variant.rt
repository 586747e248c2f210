//! Variants of an enum: which is read, and how.

use base_core::{Items, Mem, Text, TryClone};
use node_expr::Type;
use std::alloc::Global;
use tok_types::Ident;

/// The variant that an item of this name is. `S` is the statement.
pub struct VariantArm<S> {
    pub name: Text,
    pub ident: Ident,
    pub form: VariantForm<S>,
}

/// How a variant is read from an item.
pub enum VariantForm<S> {
    /// From a word.
    Unit,
    /// As the type of its one member is.
    Transparent { member: Text, ty: Type },
    /// From a list, by these statements.
    Struct(Items<S>),
}

impl<S: Drop> Drop for VariantArm<S> {
    fn drop(self) {
        let Self {
            name: _name,
            ident: _ident,
            form: _form,
        } = self;
    }
}

impl<S: Drop> Drop for VariantForm<S> {
    fn drop(self) {
        match self {
            VariantForm::Unit => {}
            VariantForm::Transparent {
                member: _member,
                ty: _ty,
            } => {}
            VariantForm::Struct(_stmts) => {}
        }
    }
}

/// The variant that a string of this name is.
pub struct UnitArm {
    pub name: Text,
    pub ident: Ident,
    pub form: UnitForm,
}

/// What a variant is where its name stands alone.
pub enum UnitForm {
    /// The variant.
    Unit,
    /// The variant, where its one member has a value without an item.
    Transparent { member: Text, ty: Type },
    /// It asks for a list.
    Other,
}

impl Drop for UnitArm {
    fn drop(self) {
        let Self {
            name: _name,
            ident: _ident,
            form: _form,
        } = self;
    }
}

impl TryClone for UnitArm {
    fn try_clone(&self, alloc: Global) -> Mem<UnitArm> {
        let name = self.name.try_clone(alloc)?;
        let ident = self.ident.try_clone(alloc)?;
        let form = self.form.try_clone(alloc)?;
        Ok(UnitArm { name, ident, form })
    }
}

impl Drop for UnitForm {
    fn drop(self) {
        match self {
            UnitForm::Unit | UnitForm::Other => {}
            UnitForm::Transparent {
                member: _member,
                ty: _ty,
            } => {}
        }
    }
}

impl TryClone for UnitForm {
    fn try_clone(&self, alloc: Global) -> Mem<UnitForm> {
        match self {
            UnitForm::Unit => Ok(UnitForm::Unit),
            UnitForm::Transparent { member, ty } => Ok(UnitForm::Transparent {
                member: member.try_clone(alloc)?,
                ty: ty.try_clone(alloc)?,
            }),
            UnitForm::Other => Ok(UnitForm::Other),
        }
    }
}
