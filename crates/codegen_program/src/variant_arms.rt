//! Arms of variants that are looked up by their names.

ghost use Rattle.std.specs.Prelude.{◌≡◌, ◌<◌, ◌≤◌, ◌+◌, ◌*◌, ◌^◌, ◌⊎◌, ℕ, IfOk, length, position};
ghost use Rattle.std.specs.Str.{bytes_eq};
ghost use Rattle.base_index.specs.Count.{last};
ghost use Rattle.codegen_program.specs.Named.{variant_arm_names};

use crate::variant::VariantArm;
use base_core::{Items, Mem};
use base_index::{NameIndex, NameOf, Tally};
use std::alloc::Global;
use std::marker::Model;

/// The name of a variant's arm.
struct VariantArmName {}

impl<S> NameOf<VariantArm<S>> for VariantArmName {
    ghost name_of = { λ arm. arm.name };

    fn name(arm: &VariantArm<S>) -> &str {
        arm.name.as_str()
    }
}

/// Arms of variants in their order, with the index of their names. A contract sees the list. `S` is the statement.
///
/// The index is made once, with the list: where each of many items is a variant of one enum, no item is compared with
/// each of its variants.
pub struct VariantArms<S> {
    arms: Items<VariantArm<S>>,
    index: NameIndex,
}

impl<S> Model for VariantArms<S> {
    ghost use Rattle.std.specs.Coded.{coded_list};
    ghost use Rattle.std.specs.Prelude.{List};
    ghost use Rattle.base_index.specs.Index.{IsIndex};
    ghost use Rattle.codegen_program.specs.VariantParts.{coded_arm};
    ghost use Rattle.codegen_program.specs.Named.{variant_arm_names};
    ghost use Rattle.codegen_program.specs.declared.variant.VariantArm.{VariantArm};

    ghost Value = { List (VariantArm S) };

    ghost coded = { coded_list (coded_arm S.code) };

    ghost view = { λ it. it.arms };

    ghost invariant = { λ it. IsIndex it.index (variant_arm_names it.arms) };
}

impl<S: Drop> Drop for VariantArms<S> {
    fn drop(self) {
        let Self {
            arms: _arms,
            index: _index,
        } = self;
    }
}

impl<S: Drop> VariantArms<S> {
    /// The arms with their index.
    pub fn new(alloc: Global, arms: Items<VariantArm<S>>) -> Mem<VariantArms<S>>
        ensures { IfOk result (λ it. it ≡ arms) }
    {
        let index = NameIndex::new::<VariantArm<S>, VariantArmName>(alloc, arms.as_slice())?;
        Ok(VariantArms { arms, index })
    }
}

impl<S> VariantArms<S> {
    pub fn as_slice(&self) -> &[VariantArm<S>]
        ensures { result.now ≡ self.now }
    {
        self.arms.as_slice()
    }

    /// The place of the first arm of the name. With `d` the least number such that fewer than 2^d arms are there, the
    /// names are compared at most 2 `d` times.
    pub fn find(&self, name: &str, tally: &mut Tally) -> Option<usize>
        ensures place { result ≡ position (λ other. bytes_eq other name.now) (variant_arm_names self.now) }
        ensures most { (d : ℕ) → length self.now < 2 ^ d → tally.new ≤ tally.old + 2 * d }
        ensures grows { tally.old ≤ tally.new }
        ensures stays { tally.old ≡ last → tally.new ≡ last }
        ensures least { 0 < length self.now → (tally.old + 1 ≤ tally.new) ⊎ (tally.new ≡ last) }
    {
        self.index
            .find::<VariantArm<S>, VariantArmName>(self.arms.as_slice(), name, tally)
    }
}
