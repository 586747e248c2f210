//! Which declarations have a default, all of them at once.
//!
//! Fields are of declarations before their own, so each declaration is looked at once, behind all that its default can rest
//! on.

ghost use Rattle.std.specs.Prelude.{◌≡◌, ℕ, Option, IfOk, is_some, map};
ghost use Rattle.std.specs.List.{list_all};
ghost use Rattle.machine_std.specs.Defaulted.{AreFlags, is_flagged as is_flagged_in, names_default};
ghost use Rattle.machine_std.specs.Defaults as spec;
ghost use Rattle.machine_value.specs.declared.value.Value.{Value};

use crate::has_default::{Rest, rest_of};
use crate::make_default::{MAX_LEVEL, named_in};
use crate::std_host::declared;
use base_core::{Items, Mem};
use codegen_program::Decls;
use machine_host::named_type;
use node_core::{DeriveInput, Field};
use node_expr::Type;
use std::alloc::Global;

/// Whether the type of each declaration's name has a default.
pub fn defaulted(alloc: Global, decls: &Decls) -> Mem<Items<bool>>
    ensures { IfOk result (λ flags. flags ≡ map (names_default decls.now) decls.now) }
{
    let flags = flags_of(alloc, decls)?;
    by_name(alloc, decls, flags.as_slice())
}

/// Whether each declaration has a default.
fn flags_of(alloc: Global, decls: &Decls) -> Mem<Items<bool>>
    ensures { IfOk result (λ flags. AreFlags flags (spec.default_among decls.now)) }
{
    let mut flags = Items::new(alloc);
    for decl in decls.as_slice() {
        let flag = has_by(decls, flags.as_slice(), decl);
        flags.push(flag)?;
    }
    Ok(flags)
}

/// Whether the declaration has a default, where the flags tell it of those that it names.
fn has_by(decls: &Decls, flags: &[bool], decl: &DeriveInput) -> bool
    ensures { (declared : ℕ → Option Value) → AreFlags flags.now declared
        → result ≡ is_some (spec.decl_default (spec.type_default decls.now declared) (Some decl.now)) }
{
    match named_in(decl) {
        Some(fields) => fields_have(decls, flags, fields),
        None => false,
    }
}

fn fields_have(decls: &Decls, flags: &[bool], fields: &[Field]) -> bool
    ensures { (declared : ℕ → Option Value) → AreFlags flags.now declared
        → result ≡ list_all (λ field. is_some (spec.type_default decls.now declared field.ty)) fields.now }
{
    for field in fields {
        if !type_has(decls, flags, &field.ty) {
            return false;
        }
    }
    true
}

fn type_has(decls: &Decls, flags: &[bool], ty: &Type) -> bool
    ensures { (declared : ℕ → Option Value) → AreFlags flags.now declared → result ≡ is_some (spec.type_default decls.now declared ty.now) }
{
    match rest_of(decls, MAX_LEVEL, ty) {
        Rest::Has => true,
        Rest::Lacks => false,
        Rest::On(number) => is_flagged(flags, number),
    }
}

fn is_flagged(flags: &[bool], number: usize) -> bool
    ensures { result ≡ is_flagged_in flags.now number }
{
    match flags.get(number) {
        Some(flag) => *flag,
        None => false,
    }
}

/// A name is that of the first declaration of the name, or of a type of the table.
fn by_name(alloc: Global, decls: &Decls, flags: &[bool]) -> Mem<Items<bool>>
    requires { AreFlags flags.now (spec.default_among decls.now) }
    ensures { IfOk result (λ by_name. by_name ≡ map (names_default decls.now) decls.now) }
{
    let mut by_name = Items::new(alloc);
    for decl in decls.as_slice() {
        let flag = name_has(alloc, decls, flags, decl)?;
        by_name.push(flag)?;
    }
    Ok(by_name)
}

fn name_has(alloc: Global, decls: &Decls, flags: &[bool], decl: &DeriveInput) -> Mem<bool>
    requires { AreFlags flags.now (spec.default_among decls.now) }
    ensures { IfOk result (λ has. has ≡ names_default decls.now decl.now) }
{
    let ty = named_type(alloc, decl.ident.text.as_str())?;
    match declared(decls, &ty) {
        Some(number) => Ok(is_flagged(flags, number)),
        None => Ok(false),
    }
}
