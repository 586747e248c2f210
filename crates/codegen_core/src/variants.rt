//! The variants of an enum, one by one.

ghost use Rattle.std.specs.Prelude.{◌≡◌, ◌<◌, ◌^◌, ◌↔◌, IfOk, IsTrue};
ghost use Rattle.codegen_core.specs.Variants as spec;

use crate::variant::Variant;
use base_core::{Items, Mem, Text};
use codegen_program::{Alternatives, Stmt, UnitArm, UnitArms, VariantArm, VariantArms};
use std::alloc::Global;

/// Reads the variant whose name the one item of a list has.
pub(crate) fn list_stmt(alloc: Global, variants: &[Variant<'_>]) -> Mem<Stmt>
    requires { spec.slots_in variants.now < 2 ^ 32 }
    ensures { IfOk result (λ it. it ≡ Stmt.Variants (spec.variant_arms 0 variants.now) (spec.variant_names variants.now)) }
{
    let names = Alternatives::new(alloc, names_of(alloc, variants)?)?;
    let arms = VariantArms::new(alloc, variant_arms(alloc, variants)?)?;
    Ok(Stmt::Variants { arms, names })
}

/// Reads the variant that a string names.
pub(crate) fn string_stmt(alloc: Global, variants: &[Variant<'_>]) -> Mem<Stmt>
    ensures { IfOk result (λ it. it ≡ Stmt.UnitNames (spec.unit_arms variants.now) (spec.variant_names variants.now)) }
{
    let names = Alternatives::new(alloc, names_of(alloc, variants)?)?;
    let arms = UnitArms::new(alloc, unit_arms(alloc, variants)?)?;
    Ok(Stmt::UnitNames { arms, names })
}

/// The arms for items; slots are numbered on from one variant to the next.
fn variant_arms(alloc: Global, variants: &[Variant<'_>]) -> Mem<Items<VariantArm<Stmt>>>
    requires { spec.slots_in variants.now < 2 ^ 32 }
    ensures { IfOk result (λ it. it ≡ spec.variant_arms 0 variants.now) }
{
    let mut arms = Items::new(alloc);
    let mut slot = 0;
    for variant in variants {
        variant.push_data_arm(alloc, slot, &mut arms)?;
        slot += variant.slots() as u32;
    }
    Ok(arms)
}

/// Whether a `u32` counts the slots of the variants.
pub(crate) fn have_few_slots(variants: &[Variant<'_>]) -> bool
    ensures { IsTrue result ↔ (spec.slots_in variants.now < 2 ^ 32) }
{
    let mut room = u32::MAX as usize;
    for variant in variants {
        let slots = variant.slots();
        if room < slots {
            return false;
        }
        room -= slots;
    }
    true
}

/// The arms for strings.
fn unit_arms(alloc: Global, variants: &[Variant<'_>]) -> Mem<Items<UnitArm>>
    ensures { IfOk result (λ it. it ≡ spec.unit_arms variants.now) }
{
    let mut arms = Items::new(alloc);
    for variant in variants {
        variant.push_unit_arm(alloc, &mut arms)?;
    }
    Ok(arms)
}

/// The names of the variants that are read.
fn names_of(alloc: Global, variants: &[Variant<'_>]) -> Mem<Items<Text>>
    ensures { IfOk result (λ it. it ≡ spec.variant_names variants.now) }
{
    let mut names = Items::new(alloc);
    for variant in variants {
        if !variant.skip {
            let name = Text::from_str(alloc, variant.name_in_attr)?;
            names.push(name)?;
        }
    }
    Ok(names)
}
