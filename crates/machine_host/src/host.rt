//! The trait of hosts.

ghost use Rattle.std.specs.Prelude.{◌≡◌, IfOk};
ghost use Rattle.std.specs.Option.{option_copied};
ghost use Rattle.law_spans.specs.Erased.{erased_path, erased_type};
ghost use Rattle.machine_host.specs.HostSays.{defaulted as defaulted_by, erased_call, erased_decls, erased_place};
ghost use Rattle.machine_host.specs.Seen.{seen_arg, seen_item};

use crate::arg::{Arg, HostItem};
use crate::made::named_type;
use crate::place::Place;
use crate::said::Said;
use base_core::{Items, Mem};
use codegen_program::Decls;
use machine_value::Value;
use node_expr::{Path, Type};
use std::alloc::Global;
use util_core::Callable;

/// What a run asks for where an option names a function, or a type is not of the table.
///
/// `decls` are all declarations of the program, without attributes. `call` is what the option names, and none
/// exactly at [`FromIdent`](crate::Use::FromIdent). A function is asked where it is offered, and a type where it is known or
/// has a default: the laws speak of these alone, and elsewhere the record tells no more than the answer.
pub trait Host {
    ghost use Rattle.machine_host.specs.HostSays.{HostSays};
    ghost use Rattle.machine_host.specs.Lawful.{IsLawful};

    /// What the host answers, by what it is asked without spans; an argument has its spans.
    ghost says: { Self → HostSays };

    /// Whether the function may be asked at the place.
    fn offers(&self, decls: &Decls, call: Option<&Callable>, place: &Place) -> bool
        ensures { result ≡ (says self.now).offers (erased_decls decls.now) (erased_call call.entry) (erased_place place.now) };

    /// The type of the value that a field's `map` or `and_then` takes.
    fn takes(&self, call: &Path) -> Option<&Type>
        ensures { option_copied result ≡ (says self.now).takes (erased_path call.now) };

    /// Whether the type is one of the host's own.
    fn knows(&self, ty: &Type) -> bool
        ensures { result ≡ (says self.now).knows (erased_type ty.now) };

    /// What the function answers at the place.
    fn answer(
        &self,
        alloc: Global,
        decls: &Decls,
        call: Option<&Callable>,
        place: &Place,
        arg: Arg<'_>,
    ) -> Mem<Said>
        ensures { IfOk result (λ said. said ≡ (says self.now).answer (erased_decls decls.now) (erased_call call.entry) (erased_place place.now) (seen_arg arg.entry)) };

    /// Whether the type, which is the host's or a declaration, has a default.
    fn has_default(&self, decls: &Decls, ty: &Type) -> bool
        ensures { result ≡ (says self.now).has_default (erased_decls decls.now) (erased_type ty.now) };

    /// Which of the declarations have a default, by their numbers. It is asked once, before a program is run: a host that can
    /// tell it of all of them in less time than of one after another writes this itself.
    fn defaulted(&self, alloc: Global, decls: &Decls) -> Mem<Items<bool>>
        ensures { IfOk result (λ flags. flags ≡ defaulted_by (says self.now) decls.now) }
    {
        let mut flags = Items::new(alloc);
        for decl in decls.as_slice() {
            let flag = {
                let ty = named_type(alloc, decl.ident.text.as_str())?;
                self.has_default(decls, &ty)
            };
            flags.push(flag)?;
        }
        Ok(flags)
    }

    /// The default of the type.
    fn default_of(&self, alloc: Global, decls: &Decls, ty: &Type) -> Mem<Value>
        ensures { IfOk result (λ value. value ≡ (says self.now).default_of (erased_decls decls.now) (erased_type ty.now)) };

    /// What the type reads from an item.
    fn convert(&self, alloc: Global, ty: &Type, item: HostItem<'_>) -> Mem<Said>
        ensures { IfOk result (λ said. said ≡ (says self.now).convert (erased_type ty.now) (seen_item item.entry)) };

    /// The value of the type where there is no item.
    fn none_of(&self, alloc: Global, ty: &Type) -> Mem<Option<Value>>
        ensures { IfOk result (λ value. value ≡ (says self.now).none_of (erased_type ty.now)) };

    /// What is given fits the type that is asked for, and nothing is given only for the value of no item.
    ghost lawful: { (host : Self) → IsLawful (says host) };
}
