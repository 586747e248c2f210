//! The host of the program.

ghost use Rattle.std.specs.Prelude.{◌≡◌, IfOk, codes, unwrap_or};
ghost use Rattle.machine_host.specs.Made as made;
ghost use Rattle.machine_host.specs.Decls.{decl_names};
ghost use Rattle.machine_rows.specs.Heads as spec;
ghost use Rattle.machine_std.specs.Defaults.{declared_in, default_among};

use crate::defaulted::defaulted;
use crate::function::{function_for, is_transform, unasked};
use crate::has_default::has_default;
use crate::make_default::{ROOM, declaration_default};
use crate::tag::{is_tag, read_tag};
use base_core::{Items, Mem};
use codegen_program::Decls;
use machine_host::{Arg, Callable, Host, HostItem, Place, Said, named_type};
use machine_rows::{Head, head_of};
use machine_value::Value;
use node_expr::{Path, Type};
use std::alloc::Global;

/// The host of the program. It offers seven functions by the texts of their paths, knows the type `Tag`, and has the
/// default of each struct of named fields whose fields' types all have one.
pub struct StdHost {
    text: Type,
    ghost is_text: { text ≡ made.named_type (codes "String") },
}

impl StdHost {
    /// The host of the functions that `docs/DECLARATIONS.md` lists.
    pub fn new(alloc: Global) -> Mem<StdHost> {
        let text = named_type(alloc, "String")?;
        Ok(StdHost { text })
    }
}

impl Host for StdHost {
    ghost use Rattle.machine_std.specs.StdSays.{std_says};
    ghost use Rattle.machine_std.specs.StdLaws.{std_lawful};

    ghost says = { λ host. std_says };

    ghost lawful = { λ host. std_lawful };

    fn offers(&self, decls: &Decls, call: Option<&Callable>, place: &Place) -> bool {
        function_for(decls, call, place).is_some()
    }

    fn takes(&self, call: &Path) -> Option<&Type> {
        if is_transform(call) {
            return Some(&self.text);
        }
        None
    }

    fn knows(&self, ty: &Type) -> bool {
        is_tag(ty)
    }

    fn answer(
        &self,
        alloc: Global,
        decls: &Decls,
        call: Option<&Callable>,
        place: &Place,
        arg: Arg<'_>,
    ) -> Mem<Said> {
        match function_for(decls, call, place) {
            Some(function) => function.answer(alloc, arg),
            None => unasked(alloc),
        }
    }

    fn has_default(&self, decls: &Decls, ty: &Type) -> bool {
        match declared(decls, ty) {
            Some(number) => has_default(decls, number),
            None => false,
        }
    }

    fn defaulted(&self, alloc: Global, decls: &Decls) -> Mem<Items<bool>> {
        defaulted(alloc, decls)
    }

    fn default_of(&self, alloc: Global, decls: &Decls, ty: &Type) -> Mem<Value> {
        match declared(decls, ty) {
            Some(number) => default_of(alloc, decls, number),
            None => Ok(Value::Unit),
        }
    }

    fn convert(&self, alloc: Global, _ty: &Type, item: HostItem<'_>) -> Mem<Said> {
        read_tag(alloc, item)
    }

    fn none_of(&self, _alloc: Global, _ty: &Type) -> Mem<Option<Value>> {
        Ok(None)
    }
}

/// The number of the declaration that the type is.
pub(crate) fn declared(decls: &Decls, ty: &Type) -> Option<usize>
    ensures { result ≡ declared_in (spec.head_of (decl_names decls.now) ty.now) }
{
    match head_of(decls, ty) {
        Head::Declared(number) => Some(number),
        _ => None,
    }
}

/// The default of the declaration, where it has one. Where it has none nothing is made, however much of it could be.
fn default_of(alloc: Global, decls: &Decls, number: usize) -> Mem<Value>
    ensures { IfOk result (λ value. value ≡ unwrap_or (default_among decls.now number) Value.Unit) }
{
    if !has_default(decls, number) {
        return Ok(Value::Unit);
    }
    match declaration_default(alloc, decls, number, ROOM)? {
        Some(value) => Ok(value),
        None => Ok(Value::Unit),
    }
}

impl Drop for StdHost {
    fn drop(self) {
        let Self { text: _text } = self;
    }
}
